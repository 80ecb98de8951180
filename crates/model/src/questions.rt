// The questions of terms, given by their names and coefficients, and of what else a call takes, in the order of docs/SCOPE.md 10.2.

ghost use Rattle.std.specs.Prelude.{◌≡◌, length};
ghost use Rattle.model.specs.Model.{numbers_asked, terms_asked};

use limits::{MAX_TERMS, SLOT};
use refusal::Refusal;

// Terms by their names, a slot each, and their coefficients.
#[derive(Clone, Copy)]
pub struct Terms<'a> {
    pub names: &'a [u8],
    pub coefficients: &'a [f64],
}

impl Terms<'_> {
    // Questions 1, 2, 4 and 5. Whether what else a call takes has its length (2), its numbers are finite (4) and its code is known (5) is given.
    #[tactic(auto, unfolding(crate::specs::Model::numbers_asked))]
    pub fn ask_numbers(&self, counted: bool, finite: bool, known: bool) -> Result<(), Refusal>
        ensures { result ≡ numbers_asked (length self.now.coefficients.now) self.now.names.now self.now.coefficients.now
            counted finite known }
    {
        let count = self.coefficients.len();
        if MAX_TERMS < count {
            return Err(Refusal::Limits);
        }
        if self.names.len() != SLOT * count || !counted {
            return Err(Refusal::Lengths);
        }
        if !sequence::all_finite(self.coefficients) || !finite {
            return Err(Refusal::NotFinite);
        }
        if !known {
            return Err(Refusal::Code);
        }
        Ok(())
    }

    // These, and then questions 7 to 10 of the names.
    pub fn ask(&self, counted: bool, finite: bool, known: bool) -> Result<(), Refusal>
        ensures { result ≡ terms_asked (length self.now.coefficients.now) self.now.names.now self.now.coefficients.now
            counted finite known }
    {
        self.ask_numbers(counted, finite, known)?;
        terms::names_read(self.names, self.coefficients.len())
    }
}
