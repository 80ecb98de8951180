// A text that grows line by line.
ghost use Rattle.std.specs.Prelude.{◌≡◌, [], ◌+◌, ◌*◌, ◌≤◌, ◌<◌, ◌++◌, cond, length};
ghost use Rattle.limits.specs.Limits.{slot_bytes};
ghost use Rattle.terms.specs.Names.{name_of};
ghost use Rattle.listing.specs.Text.{digit, spaced, hexadecimal, bits_of, Wrote, listing_room};
ghost use Rattle.listing.specs.Listing.{counts_line, floats, term_line, term_lines};

use crate::LISTING;
use limits::SLOT;
use solver::FitResult;
use std::marker::Model;
use terms::Term;

// What is written so far: the first `len` bytes. No String or Vec, since there is no heap.
#[derive(Drop)]
pub struct Text {
    bytes: [u8; LISTING],
    len: usize,
}

impl Model for Text {
    ghost use Rattle.std.specs.Prelude.{List, ℕ, take, ◌≤◌};
    ghost use Rattle.listing.specs.Text.{listing_room};

    ghost Value = { List ℕ };

    ghost view = { λ a. take a.len a.bytes };

    ghost invariant = { λ a. a.len ≤ listing_room };
}

fn digit_of(d: u8) -> u8
    requires { d < 16 }
    ensures { result ≡ digit d }
{
    if d < 10 { b'0' + d } else { b'a' + (d - 10) }
}

// Sixteen digits in base 16, each as `digit` says: `{:016x}` through a formatter is no plainer. What `as` takes is below 16.
fn hex_digits(v: u64) -> [u8; 16]
    ensures { result ≡ hexadecimal v }
{
    let mut text = [0u8; 16];
    for (i, d) in text.iter_mut().enumerate() {
        *d = digit_of(((v >> (60 - 4 * i)) % 16) as u8);
    }
    text
}

impl Text {
    pub fn new() -> Text
        ensures { result ≡ [] }
    {
        Text {
            bytes: [0; LISTING],
            len: 0,
        }
    }

    pub fn put(&mut self, words: &[u8])
        requires { length self.old + length words.now ≤ listing_room }
        ensures { self.new ≡ self.old ++ words.now }
    {
        let end = self.len + words.len();
        self.bytes[self.len..end].copy_from_slice(words);
        self.len = end;
    }

    // One of two texts.
    fn put_either(&mut self, first: bool, one: &[u8], other: &[u8])
        requires { (length self.old + length one.now ≤ listing_room) × (length self.old + length other.now ≤ listing_room) }
        ensures { self.new ≡ self.old ++ cond first one.now other.now }
    {
        self.put(if first { one } else { other });
    }

    // The bytes before the first zero.
    #[tactic(auto, using(crate::proofs::Writes::name_short))]
    fn put_name(&mut self, name: [u8; SLOT])
        requires { length self.old + slot_bytes ≤ listing_room }
        ensures wrote { self.new ≡ self.old ++ name_of name }
        ensures bound { length self.new ≤ length self.old + slot_bytes }
    {
        let n = terms::name_end(&name);
        self.put(&name[..n]);
    }

    // A space and a number.
    pub fn put_count(&mut self, v: usize)
        requires { length self.old + 21 ≤ listing_room }
        ensures wrote { self.new ≡ self.old ++ spaced v }
        ensures bound { length self.new ≤ length self.old + 21 }
    {
        let mut digits = itoa::Buffer::new();
        self.put(b" ");
        self.put(digits.format(v).as_bytes());
    }

    fn put_bits(&mut self, x: f64)
        requires { length self.old + 16 ≤ listing_room }
        ensures wrote { self.new ≡ self.old ++ bits_of x }
        ensures end { length self.new ≡ length self.old + 16 }
    {
        self.put(&hex_digits(float::to_bits(x)));
    }

    // Two floats behind a name.
    pub fn put_floats(&mut self, x: f64, y: f64)
        requires { length self.old + 34 ≤ listing_room }
        ensures wrote { self.new ≡ self.old ++ floats x y }
        ensures end { length self.new ≡ length self.old + 34 }
    {
        self.put(b" ");
        self.put_bits(x);
        self.put(b" ");
        self.put_bits(y);
    }

    // Free, rank, iterations, converged, sweeps, settled.
    pub fn put_counts(&mut self, r: FitResult)
        requires { length self.old + 96 ≤ listing_room }
        ensures wrote { self.new ≡ self.old ++ counts_line r }
        ensures bound { length self.new ≤ length self.old + 96 }
    {
        self.put(b"fit");
        self.put_count(r.rank_info.n_free);
        self.put_count(r.rank_info.rank);
        self.put_count(r.iter_report.iterations);
        self.put_either(r.iter_report.converged, b" yes", b" no");
        self.put_count(r.sweeps);
        self.put_either(r.settled, b" yes", b" no");
        self.put(b"\n");
    }

    // The stored name of a slot's term, its coefficient, its sigma and pier or both.
    fn put_term(&mut self, slot: &[u8], coefficient: f64, sigma: f64)
        requires { length self.old + 56 ≤ listing_room }
        ensures wrote { self.new ≡ self.old ++ term_line slot.now coefficient sigma }
        ensures bound { length self.new ≤ length self.old + 56 }
    {
        let term = terms::read_term(slot).unwrap_or(Term::blank());
        self.put_name(term.name);
        self.put_floats(coefficient, sigma);
        self.put_either(term.pier_sensitive, b" pier", b" both");
        self.put(b"\n");
    }

    pub fn put_terms(&mut self, names: &[u8], m: usize, coefficients: &[f64], sigma: &[f64])
        requires room { length self.old + 56 * m ≤ listing_room }
        requires lent { (slot_bytes * m ≤ length names.now) × (m ≤ length coefficients.now) × (m ≤ length sigma.now) }
        ensures wrote { self.new ≡ self.old ++ term_lines names.now m coefficients.now sigma.now }
        ensures bound { length self.new ≤ length self.old + 56 * m }
    {
        // By number, as `term_lines` is: three slices that may be longer than m are read at one place.
        for j in 0..m {
            let a = SLOT * j;
            self.put_term(&names[a..a + SLOT], coefficients[j], sigma[j]);
        }
    }

    // Into the front of a buffer; the answer is how many bytes there are.
    pub fn lend_to(&self, out: &mut [u8]) -> usize
        requires { listing_room ≤ length out.old }
        ensures { Wrote self.now 0 out.old out.new result }
    {
        out[..self.len].copy_from_slice(&self.bytes[..self.len]);
        self.len
    }
}
