// The terms of a model's slots, and what is written of them.

ghost use Rattle.std.specs.Prelude.{◌≡◌, ◌*◌, ◌≤◌, ◌+◌, length};
ghost use Rattle.limits.specs.Limits.{max_terms, slot_bytes};
ghost use Rattle.sequence.specs.Sequence.{table};
ghost use Rattle.terms.specs.Names.{same, read_term};
ghost use Rattle.terms.specs.Slots.{slot};
ghost use Rattle.model.specs.Slots.{term_at, has_name, pier_at};

use limits::SLOT;
use refusal::Refusal;
use terms::Term;

// What slot i is read as.
pub fn read_at(names: &[u8], i: usize) -> Result<Term, Refusal>
    requires { slot_bytes * (i + 1) ≤ length names.now }
    ensures { result ≡ read_term (slot names.now i) }
{
    let start = SLOT * i;
    terms::read_term(&names[start..start + SLOT])
}

// The term of slot i; a blank one where the slot is not read. Not design's: the theorems here speak of `term_at` of specs/Slots.antt.
pub fn term_at(names: &[u8], i: usize) -> Term
    requires { slot_bytes * (i + 1) ≤ length names.now }
    ensures { result ≡ term_at names.now i }
{
    read_at(names, i).unwrap_or(Term::blank())
}

// Whether the term of slot i has a stored name.
fn is_named(names: &[u8], i: usize, stored: &[u8]) -> bool
    requires { slot_bytes * (i + 1) ≤ length names.now }
    ensures { result ≡ same (term_at names.now i).name stored.now }
{
    term_at(names, i).name.as_slice() == stored
}

// Whether one of the first count slots is read as the term of a stored name, however it is spelled there.
// By number, as the definition `has_name` takes the slots.
pub fn has_name(names: &[u8], count: usize, stored: &[u8]) -> bool
    requires { slot_bytes * count ≤ length names.now }
    ensures { result ≡ has_name names.now count stored.now }
{
    (0..count).any(|i| is_named(names, i, stored))
}

// The flags become those of the slots' terms.
// By number: of what a zip lends to write, a proof knows the length alone.
pub fn write_flags(flags: &mut [bool], names: &[u8])
    requires { slot_bytes * length flags.old ≤ length names.now }
    ensures { flags.new ≡ table (length flags.old) (pier_at names.now) }
{
    for (i, flag) in flags.iter_mut().enumerate() {
        *flag = term_at(names, i).pier_sensitive;
    }
}
