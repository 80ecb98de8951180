// Replays the oracle's listings of whole and damaged files. Standard input holds files and changes of them, each with the listing that
// the Rust made of it (oracle/README.md has the format); the counts and the number of listings that differ are written out.
#![tactic(auto)]

ghost use Rattle.std.specs.Prelude.{◌≡◌, ◌+◌, ◌<◌, ◌≤◌, length};

use listing::LISTING;
use replay::{Ahead, Refused, line, more};
use std::io::{Read, Write};

// The longest base, and room for 64 bytes behind it.
const BASE: usize = 40000;

const ROOM: usize = 40064;

#[derive(Clone, Copy)]
struct Tally {
    files: u64,
    fits: u64,
    refused: Refused,
    different: u64,
}

// What a record is: a new base, or the base with a change that is undone afterwards.
#[derive(Clone, Copy)]
enum Kind {
    Base,
    // its first bytes alone
    Front,
    // one byte, or eight, changed
    Byte,
    Eight,
    // so many zeros more
    Longer,
}

impl TryFrom<u8> for Kind {
    type Error = u8;

    fn try_from(code: u8) -> Result<Kind, u8> {
        match code {
            0 => Ok(Kind::Base),
            1 => Ok(Kind::Front),
            2 => Ok(Kind::Byte),
            3 => Ok(Kind::Eight),
            4 => Ok(Kind::Longer),
            _ => Err(code),
        }
    }
}

// Whether the listing is what comes next, behind its length of two bytes.
fn same_listing(input: &mut impl Read, listing: &[u8]) -> bool {
    let mut expected = [0u8; LISTING];
    let n = usize::from(u16::from_le_bytes(replay::bytes(input)));
    match expected.get_mut(..n) {
        Some(theirs) => input.read_exact(theirs).is_ok() && *listing == *theirs,
        None => false,
    }
}

// The digits of a line as a number, the sixteens left out: a question's is below 16.
// Byte by byte, as a line holds more than digits and `parse` takes a text of them alone. A byte counts 256, so that no sixteen is lost.
fn number(line: &[u8]) -> u8
    ensures { result < 16 }
{
    let n = line.iter().filter(|b| b.is_ascii_digit()).fold(
        0u8,
        |n, b| n.wrapping_mul(10).wrapping_add(b.wrapping_sub(b'0')),
    );
    n % 16
}

// Counts a listing, and whether it is the oracle's. A refusal begins with `no`, a fit with `fit`.
fn count(input: &mut impl Read, t: &mut Tally, listing: &[u8]) {
    more(&mut t.files);
    if listing.starts_with(b"n") {
        t.refused.count(number(listing));
    } else {
        more(&mut t.fits);
    }
    if !same_listing(input, listing) {
        more(&mut t.different);
    }
}

// Lists a file and counts its listing.
fn list(input: &mut impl Read, t: &mut Tally, file: &[u8]) {
    let mut text = [0u8; LISTING];
    let k = pmf::list(file, &mut text);
    count(input, t, &text[..k]);
}

// The first n bytes, with the k at x changed to the next ones of the input; the base is as it was afterwards.
fn changed(input: &mut impl Read, t: &mut Tally, file: &mut [u8], n: usize, x: usize, k: usize)
    requires { (n ≤ length file.old) × (k ≤ 8) × (x + k ≤ length file.old) }
{
    let mut bytes = [0u8; 8];
    let _ = input.read_exact(&mut bytes[..k]);
    file[x..x + k].swap_with_slice(&mut bytes[..k]);
    list(input, t, &file[..n]);
    file[x..x + k].swap_with_slice(&mut bytes[..k]);
}

// The next x bytes become the base, with zeros behind them.
fn read_base(input: &mut impl Read, file: &mut [u8], x: usize)
    requires { x + 64 ≤ length file.old }
{
    let _ = input.read_exact(&mut file[..x]);
    file[x..x + 64].fill(0);
}

// One record over a base of n bytes; the base has so many afterwards.
fn record(input: &mut impl Read, t: &mut Tally, code: u8, file: &mut [u8], n: usize) -> usize
    requires { (length file.old ≡ 40064) × (n ≤ 40000) }
    ensures { result ≤ 40000 }
{
    let x = replay::large(input, BASE);
    match Kind::try_from(code) {
        Ok(Kind::Base) => {
            read_base(input, file, x);
            list(input, t, &file[..x]);
            return x;
        }
        Ok(Kind::Front) => changed(input, t, file, x, x, 0),
        Ok(Kind::Byte) => changed(input, t, file, n, x, 1),
        Ok(Kind::Eight) => changed(input, t, file, n, x, 8),
        Ok(Kind::Longer) if n + x <= ROOM => changed(input, t, file, n + x, x, 0),
        Ok(Kind::Longer) | Err(_) => replay::abandon(input),
    }
    n
}

// All records.
fn records(input: &mut impl Read, file: &mut [u8]) -> Tally
    requires { length file.old ≡ 40064 }
{
    let mut t = Tally {
        files: 0,
        fits: 0,
        refused: Refused::none(),
        different: 0,
    };
    let mut n = 0;
    for _ in 0..u64::MAX {
        match replay::head(input) {
            Ahead::Record(code) => n = record(input, &mut t, code, file, n),
            Ahead::End => return t,
            Ahead::Cut => break,
        }
    }
    more(&mut t.different);
    t
}

fn report(output: &mut impl Write, t: &Tally) {
    line(output, b"files", t.files);
    line(output, b"fits", t.fits);
    for (question, n) in (0u8..).zip(&t.refused.0) {
        if *n > 0 {
            t.refused.line(output, question);
        }
    }
    line(output, b"different", t.different);
}

fn main(rt: HostRuntime) {
    let mut file = replay::room::<u8, ROOM>(0);
    let t = records(&mut rt.stdin(), &mut file);
    report(&mut rt.stdout(), &t);
}
