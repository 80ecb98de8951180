// Replays the oracle's Jacobians. Standard input holds name slots, then sheets with latitudes and pier codes, and for each of them what
// the Rust made of every name (oracle/README.md has the format); the counts and the number of answers that differ are written out.
#![tactic(auto)]

ghost use Rattle.std.specs.Prelude.{◌≡◌, ◌≤◌, length};

use observation::Pair;
use refusal::Refusal;
use replay::{Ahead, Place, Refused, line, more};
use std::io::{Read, Write};

// A slot's bytes: how many are in use, then 32.
const ENTRY: usize = 33;

#[derive(Clone, Copy)]
struct Tally {
    blocks: u64,
    pairs: u64,
    refused: Refused,
    not_numbers: u64,
    different: u64,
}

// The oracle's answer to one name, held against ours.
fn count(input: &mut impl Read, t: &mut Tally, ours: Result<Pair, Refusal>) {
    let expected = replay::byte(input);
    let same = match ours {
        Ok(p) => {
            more(&mut t.pairs);
            if p.dh.is_nan() || p.dd.is_nan() {
                more(&mut t.not_numbers);
            }
            expected == 0 && replay::same_pair(input, p.dh, p.dd)
        }
        Err(why) => {
            t.refused.count(why.number());
            expected == why.number()
        }
    };
    if !same {
        more(&mut t.different);
    }
}

// One name of a block. A slot has at most 32 bytes.
fn answer(input: &mut impl Read, t: &mut Tally, entry: &[u8], sheet: &[f64], p: Place) {
    let Some((n, text)) = entry.split_first() else {
        return;
    };
    match text.get(..usize::from(*n)) {
        Some(name) => {
            let ours = terms::jacobian(name, sheet, p.sin_lat, p.cos_lat, p.pier);
            count(input, t, ours);
        }
        None => replay::abandon(input),
    }
}

// One block: a sheet of l numbers, the latitude, the pier code, and every name's answer.
fn block(input: &mut impl Read, t: &mut Tally, l: u8, names: &[u8]) {
    let l = usize::from(l);
    let mut sheet = [0.0; 256];
    replay::read_doubles(input, &mut sheet[..l]);
    let p = Place::read(input);
    more(&mut t.blocks);
    for entry in names.chunks_exact(ENTRY) {
        answer(input, t, entry, &sheet[..l], p);
    }
}

// All blocks.
fn blocks(input: &mut impl Read, names: &[u8]) -> Tally {
    let mut t = Tally {
        blocks: 0,
        pairs: 0,
        refused: Refused::none(),
        not_numbers: 0,
        different: 0,
    };
    for _ in 0..u64::MAX {
        match replay::head(input) {
            Ahead::Record(l) => block(input, &mut t, l, names),
            Ahead::End => return t,
            Ahead::Cut => break,
        }
    }
    more(&mut t.different);
    t
}

// The names, and all blocks.
fn run(input: &mut impl Read) -> Tally {
    let mut names = replay::room::<u8, 6600>(0);
    let n = ENTRY * replay::small(input, 200);
    let _ = input.read_exact(&mut names[..n]);
    blocks(input, &names[..n])
}

fn report(output: &mut impl Write, t: &Tally) {
    line(output, b"blocks", t.blocks);
    line(output, b"pairs", t.pairs);
    t.refused.lines(output, &[2, 4, 5, 7, 8, 9, 10]);
    line(output, b"not numbers", t.not_numbers);
    line(output, b"different", t.different);
}

fn main(rt: HostRuntime) {
    let t = run(&mut rt.stdin());
    report(&mut rt.stdout(), &t);
}
