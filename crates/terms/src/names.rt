// What stands in a name slot, and which term it names. A name is a slice with a clause on its length and no type of its own,
// since it is matched byte by byte; beside it goes the slot that a term stores, which each reading would make again.

ghost use Rattle.std.specs.Prelude.{◌≡◌, ◌++◌, map, ◌≤◌, ◌<◌, length, None};
ghost use Rattle.limits.specs.Limits.{slot_bytes};
ghost use Rattle.harmonic.specs.Table.{ascii};
ghost use Rattle.terms.specs.Names.{capital, padded, name_of, well_formed, named, fixed_names};
ghost use Rattle.terms.specs.Names.{find, digits_from, unsigned, short_decimal, by_known};

use crate::pier::pier_sensitive;
use crate::{Term, TermKind};
use equatorial::EquatorialTerm;
use limits::SLOT;
use refusal::Refusal;

// What a fixed name is that of.
// No Option of a term, as None already says that a name is no fixed one.
#[derive(Clone, Copy)]
pub enum Known {
    Equatorial(EquatorialTerm),
    AltAz,
}

// The term that has a name.
fn named(kind: TermKind, name: [u8; SLOT]) -> Term
    ensures { result ≡ named kind name }
{
    Term {
        kind,
        name,
        pier_sensitive: pier_sensitive(kind),
    }
}

// Where the first zero stands, or the length.
pub fn name_end(slot: &[u8]) -> usize
    ensures { result ≡ length (name_of slot.now) }
{
    slot.iter().position(|b| *b == 0).unwrap_or(slot.len())
}

// Whether a slot whose name ends at n has at least one byte of ASCII before n, and zeros from there on.
pub fn is_well_formed(slot: &[u8], n: usize) -> bool
    requires { n ≡ length (name_of slot.now) }
    ensures { result ≡ well_formed slot.now }
{
    let some_byte = n != 0;
    some_byte && slot[..n].is_ascii() && slot[n..].iter().all(|b| *b == 0)
}

// The slot in capitals.
pub fn capitals(slot: &[u8]) -> [u8; SLOT]
    requires { length slot.now ≡ slot_bytes }
    ensures { result ≡ map capital slot.now }
{
    let mut out = [0; SLOT];
    out.copy_from_slice(slot);
    out.make_ascii_uppercase();
    out
}

fn fixed_name(name: &[u8]) -> Option<Known>
    ensures { result ≡ find fixed_names name.now }
{
    match name {
        b"IH" => Some(Known::Equatorial(EquatorialTerm::IH)),
        b"ID" => Some(Known::Equatorial(EquatorialTerm::ID)),
        b"CH" => Some(Known::Equatorial(EquatorialTerm::CH)),
        b"NP" => Some(Known::Equatorial(EquatorialTerm::NP)),
        b"MA" => Some(Known::Equatorial(EquatorialTerm::MA)),
        b"ME" => Some(Known::Equatorial(EquatorialTerm::ME)),
        b"TF" => Some(Known::Equatorial(EquatorialTerm::TF)),
        b"TX" => Some(Known::Equatorial(EquatorialTerm::TX)),
        b"DAF" => Some(Known::Equatorial(EquatorialTerm::DAF)),
        b"FO" => Some(Known::Equatorial(EquatorialTerm::FO)),
        b"HCES" => Some(Known::Equatorial(EquatorialTerm::HCES)),
        b"HCEC" => Some(Known::Equatorial(EquatorialTerm::HCEC)),
        b"DCES" => Some(Known::Equatorial(EquatorialTerm::DCES)),
        b"DCEC" => Some(Known::Equatorial(EquatorialTerm::DCEC)),
        b"IA" | b"IE" | b"CA" | b"NPAE" | b"AN" | b"AW" => Some(Known::AltAz),
        _ => None,
    }
}

// The number whose decimal digits are s, digit by digit: `parse` takes a str, and a name is bytes.
fn read_digits(s: &[u8]) -> Option<usize>
    requires { length s.now ≤ 14 }
    ensures { result ≡ digits_from 0 s.now }
{
    let mut v = 0usize;
    for d in s {
        if !d.is_ascii_digit() {
            return None;
        }
        v = v * 10 + usize::from(*d - b'0');
    }
    Some(v)
}

// As Rust's parse of an unsigned number: a + may stand in front.
#[tactic(auto, unfolding(crate::specs::Names::unsigned))]
fn read_unsigned(s: &[u8]) -> Option<usize>
    requires { length s.now ≤ 14 }
    ensures { result ≡ unsigned s.now }
{
    match s {
        [] => None,
        [b'+', _, ..] => read_digits(&s[1..]),
        _ => read_digits(s),
    }
}

// TX and the number's decimal digits, by hand: an itoa buffer, a bound and a copy are no plainer for at most three.
fn txn_name(v: u8) -> [u8; SLOT]
    ensures { result ≡ padded (ascii "TX" ++ short_decimal v) }
{
    let mut out = [0; SLOT];
    out[0] = b'T';
    out[1] = b'X';
    if v < 10 {
        out[2] = b'0' + v;
        return out;
    }
    if v < 100 {
        out[2] = b'0' + v / 10;
        out[3] = b'0' + v % 10;
        return out;
    }
    out[2] = b'0' + v / 100;
    out[3] = b'0' + v / 10 % 10;
    out[4] = b'0' + v % 10;
    out
}

// The term that a name in capitals names; full is the name with zeros behind. One function for all: each that hands a whole term on copies it.
#[tactic(auto, unfolding(crate::specs::Names::by_known, crate::specs::Names::read_harmonic))]
pub fn create_term(name: &[u8], full: [u8; SLOT]) -> Result<Term, Refusal>
    requires { (length name.now ≤ slot_bytes) × (full ≡ padded name.now) }
    ensures { result ≡ by_known name.now (find fixed_names name.now) }
{
    match fixed_name(name) {
        Some(Known::Equatorial(t)) => return Ok(named(TermKind::Equatorial(t), full)),
        Some(Known::AltAz) => return Err(Refusal::AltAzTerm),
        None => {}
    }
    match name {
        [b'T', b'X', ..] => match read_unsigned(&name[2..]) {
            Some(v @ 1..=255) => {
                // `as` loses nothing by the pattern; try_from would have an arm that can't come
                let v = v as u8;
                Ok(named(TermKind::Equatorial(EquatorialTerm::TXN(v)), txn_name(v)))
            }
            _ => Err(Refusal::UnknownTerm),
        },
        [b'H', ..] => match harmonic::parse_harmonic(name) {
            Some(h) => Ok(named(TermKind::Harmonic(h), full)),
            None => Err(Refusal::MalformedHarmonic),
        },
        _ => Err(Refusal::UnknownTerm),
    }
}
