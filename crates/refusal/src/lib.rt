// Why a call is refused: the question of docs/SCOPE.md 10.1 that is answered no.
#![tactic(auto)]

ghost use Rattle.std.specs.Prelude.{◌≡◌};
ghost use Rattle.refusal.specs.Refusal.{number_of};

use std::error::Error;
use std::fmt;

// The questions' noes, each with the question's number.
#[derive(Clone, Copy, Debug, PartialEq, Eq)]
pub enum Refusal {
    // more terms than 32, or more stars than 1,024
    Limits = 1,
    // a slice of another length than belongs to the others
    Lengths = 2,
    // a buffer that is too short
    Room = 3,
    // a float that is not finite
    NotFinite = 4,
    // a pier code, a flag or another code that is unknown
    Code = 5,
    // max_iter above 1,000
    IterationLimit = 6,
    // a slot that holds no name
    NotAName = 7,
    // a term of an altazimuth mount
    AltAzTerm = 8,
    // a name that is unknown
    UnknownTerm = 9,
    // a harmonic that is not well formed
    MalformedHarmonic = 10,
    // no term at all
    NoTerm = 11,
    // no free term
    NoFreeTerm = 12,
    // fewer stars than free terms
    TooFewStars = 13,
    // a new term for a model of 32
    FullModel = 14,
    // a file that is not well formed
    NotAFile = 15,
}

impl Refusal {
    // The question's number, by which C and the listings have it; only `as` gives a variant's.
    pub fn number(self) -> u8
        ensures { result ≡ number_of self }
    {
        self as u8
    }
}

impl fmt::Display for Refusal {
    fn fmt<W: fmt::Write>(&self, f: &mut fmt::Formatter<W>) -> fmt::Result {
        let number = self.number();
        write!(f, "question {number} is answered no")
    }
}

impl Error for Refusal {}
