// Replays the oracle's readings of names. Standard input holds name slots, each with what the Rust made of it (oracle/README.md has the
// format); the counts and the number of readings that differ are written out.
#![tactic(auto)]

ghost use Rattle.std.specs.Prelude.{◌≤◌, length};

use harmonic::{Components, HarmonicComponent};
use refusal::Refusal;
use replay::{Ahead, Refused, line, more};
use std::io::{Read, Write};
use terms::{Term, TermKind};

#[derive(Clone, Copy)]
struct Tally {
    names: u64,
    read: u64,
    // those that are pier sensitive
    sensitive: u64,
    refused: Refused,
    // harmonics of 4, 5 and 6 bytes in capitals
    short: [u64; 3],
    different: u64,
}

// Whether the oracle's next three bytes are this component.
fn same_component(input: &mut impl Read, c: HarmonicComponent) -> bool {
    replay::same_bytes(input, &[c.func as u8, c.coord as u8, c.frequency])
}

// Whether the oracle's next bytes are these components.
fn same_components(input: &mut impl Read, cs: Components) -> bool {
    let mut same = true;
    for c in cs.list.iter().take(cs.count) {
        same &= same_component(input, *c);
    }
    same
}

// The five bytes in front of the components as the oracle writes them: kind, TXN's number, result type, number of components, pier flag.
// `as` after a remainder, since the type doesn't say that a count is at most 7.
fn heading(t: Term) -> [u8; 5] {
    let flag = u8::from(t.pier_sensitive);
    match t.kind {
        TermKind::Equatorial(e) => [e.code(), e.txn_number(), 0, 0, flag],
        TermKind::Harmonic(h) => [
            15,
            0,
            h.result as u8,
            (h.components.count % 256) as u8,
            flag,
        ],
    }
}

// Whether the oracle's next bytes are this term.
fn same_term(input: &mut impl Read, t: Term) -> bool {
    let same_name = replay::same_bytes(input, &t.name);
    let same_head = replay::same_bytes(input, &heading(t));
    let same_list = match t.kind {
        TermKind::Equatorial(_) => true,
        TermKind::Harmonic(h) => same_components(input, h.components),
    };
    same_name && same_head && same_list
}

// Counts a harmonic of 4, 5 or 6 bytes without small letters.
fn count_short(t: &mut Tally, kind: TermKind, name: &[u8]) {
    let n = name.len();
    if matches!(kind, TermKind::Harmonic(_))
        && 4 <= n
        && n <= 6
        && !name.iter().any(|b| b.is_ascii_lowercase())
    {
        more(&mut t.short[n - 4]);
    }
}

// Counts a reading, and whether it is the oracle's.
fn count(input: &mut impl Read, t: &mut Tally, reading: Result<Term, Refusal>, name: &[u8]) {
    let expected = replay::byte(input);
    more(&mut t.names);
    let same = match reading {
        Ok(term) => {
            more(&mut t.read);
            count_short(t, term.kind, name);
            if expected == 0 && term.pier_sensitive {
                more(&mut t.sensitive);
            }
            expected == 0 && same_term(input, term)
        }
        Err(why) => {
            t.refused.count(why.number());
            expected == why.number()
        }
    };
    if !same {
        more(&mut t.different);
    }
}

// One record: n given bytes in a slot of k.
fn record(input: &mut impl Read, t: &mut Tally, n: u8) {
    let n = usize::from(n);
    let k = usize::from(replay::byte(input));
    let mut slot = [0u8; 256];
    let _ = input.read_exact(&mut slot[..n]);
    let reading = terms::read_term(&slot[..k]);
    count(input, t, reading, &slot[..n]);
}

// All records.
fn records(input: &mut impl Read) -> Tally {
    let mut t = Tally {
        names: 0,
        read: 0,
        sensitive: 0,
        refused: Refused::none(),
        short: [0; 3],
        different: 0,
    };
    for _ in 0..u64::MAX {
        match replay::head(input) {
            Ahead::Record(first) => record(input, &mut t, first),
            Ahead::End => return t,
            Ahead::Cut => break,
        }
    }
    more(&mut t.different);
    t
}

fn report(output: &mut impl Write, t: &Tally) {
    line(output, b"names", t.names);
    line(output, b"read", t.read);
    line(output, b"pier sensitive", t.sensitive);
    t.refused.lines(output, &[2, 7, 8, 9, 10]);
    replay::write(output, b"harmonics of 4, 5 and 6 bytes");
    for n in t.short {
        replay::number(output, n);
    }
    replay::write(output, b"\n");
    line(output, b"different", t.different);
}

fn main(rt: HostRuntime) {
    let t = records(&mut rt.stdin());
    report(&mut rt.stdout(), &t);
}
