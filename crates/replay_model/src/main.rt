// Replays the oracle's sequences of calls of a model. Standard input holds sheets, then calls, each with what the Rust made of it
// (oracle/README.md has the format); the counts and the number of answers that differ are written out.
#![tactic(auto)]

ghost use Rattle.std.specs.Prelude.{◌≡◌, ◌≤◌, length};

use limits::{MAX_TERMS, SLOT};
use model::{Breakdown, PointingModel, Unchanged};
use observation::Pair;
use refusal::Refusal;
use replay::{Ahead, Place, Refused, line, more};
use std::io::{Read, Write};

#[derive(Clone, Copy)]
struct Tally {
    calls: u64,
    models: u64,
    added: u64,
    there: u64,
    // accepted calls that were given a flag which is not its name's
    mended: u64,
    refused: Refused,
    different: u64,
}

// What a record is: a new model, or a call of the model.
#[derive(Clone, Copy)]
enum Op {
    New,
    AddTerm,
    SetCoefficients,
    ApplyEquatorial,
    PredictBreakdown,
    // a model made by hand
    ByHand,
}

impl TryFrom<u8> for Op {
    type Error = u8;

    fn try_from(code: u8) -> Result<Op, u8> {
        match code {
            0 => Ok(Op::New),
            1 => Ok(Op::AddTerm),
            2 => Ok(Op::SetCoefficients),
            3 => Ok(Op::ApplyEquatorial),
            4 => Ok(Op::PredictBreakdown),
            5 => Ok(Op::ByHand),
            _ => Err(code),
        }
    }
}

// Whether the codes of the first n values are the oracle's next ones, and the other values those of the model before.
fn same_places<R: Read, T: Copy, C: Fn(T) -> u64, N: Fn(&mut R) -> u64>(
    input: &mut R,
    ours: &[T],
    n: usize,
    before: &[T],
    code: C,
    next: N,
) -> bool
    requires coded { C.IsAlwaysCallable code }
    requires read { N.IsAlwaysCallable next }
{
    let mut same = true;
    for (i, (value, was)) in ours.iter().zip(before).enumerate() {
        let due = if i < n { next(input) } else { code(*was) };
        same &= code(*value) == due;
    }
    same
}

// Whether the oracle's next model is this one: what it writes, and behind the count what the model before the call held.
fn same_model(input: &mut impl Read, before: &PointingModel, m: &PointingModel) -> bool {
    let n = m.count.min(MAX_TERMS);
    let same_count = replay::small(input, 65535) == m.count;
    let byte = |input: &mut _| u64::from(replay::byte(input));
    let bits = |input: &mut _| float::to_bits(replay::double(input));
    let same = same_places(
        input,
        &m.names,
        SLOT * n,
        &before.names,
        |b| u64::from(b),
        byte,
    );
    let same_too = same_places(
        input,
        &m.coefficients,
        n,
        &before.coefficients,
        |x| float::to_bits(x),
        bits,
    );
    let same_last = same_places(
        input,
        &m.pier_sensitive,
        n,
        &before.pier_sensitive,
        |flag| u64::from(flag),
        byte,
    );
    same_count && same && same_too && same_last
}

// Whether a new model has no term, and zeros and false in all its places.
fn is_empty(m: &PointingModel) -> bool {
    m.count == 0
        && m.names.iter().all(|b| *b == 0)
        && m.coefficients.iter().all(|x| replay::same_bits(*x, 0.0))
        && !m.pier_sensitive.iter().any(|flag| *flag)
}

// Counts a call, by the question that refused it.
fn count(t: &mut Tally, answer: Result<(), Refusal>, same: bool) {
    more(&mut t.calls);
    if let Err(why) = answer {
        t.refused.count(why.number());
    }
    if !same {
        more(&mut t.different);
    }
}

// The byte that the oracle writes of an answer: 0, or the number of the question that refused it.
fn code(answer: Result<(), Refusal>) -> u8 {
    match answer {
        Ok(()) => 0,
        Err(why) => why.number(),
    }
}

// A change of a model, held against the oracle's: a refused one hands the model back.
fn change(
    input: &mut impl Read,
    t: &mut Tally,
    m: &mut PointingModel,
    answer: Result<PointingModel, Unchanged>,
) {
    let before = *m;
    let (model, told) = match answer {
        Ok(new) => (new, Ok(())),
        Err(back) => (back.model, Err(back.why)),
    };
    *m = model;
    let flags = before.pier_sensitive.iter().zip(&m.pier_sensitive);
    if flags.take(before.count).any(|(was, is)| *was != *is) {
        more(&mut t.mended);
    }
    let same_answer = replay::byte(input) == code(told);
    let same = same_model(input, &before, m);
    count(t, told, same_answer && same);
}

// A call of `add_term` with the first k bytes of a slot.
fn add(input: &mut impl Read, t: &mut Tally, m: &mut PointingModel) {
    let k = usize::from(replay::byte(input));
    let mut slot = [0u8; 256];
    let _ = input.read_exact(&mut slot[..k]);
    let answer = m.add_term(&slot[..k]);
    if let Ok(new) = answer {
        if m.count < new.count {
            more(&mut t.added);
        } else {
            more(&mut t.there);
        }
    }
    change(input, t, m, answer);
}

// A call of `set_coefficients` with the next c doubles.
fn set(input: &mut impl Read, t: &mut Tally, m: &mut PointingModel) {
    let c = usize::from(replay::byte(input));
    let mut numbers = [0.0; 256];
    replay::read_doubles(input, &mut numbers[..c]);
    let answer = m.set_coefficients(&numbers[..c]);
    change(input, t, m, answer);
}

// A correction, held against the oracle's.
fn corrected(input: &mut impl Read, t: &mut Tally, ours: Result<Pair, Refusal>) {
    let expected = replay::byte(input);
    match ours {
        Ok(p) => {
            let same = expected == 0 && replay::same_pair(input, p.dh, p.dd);
            count(t, Ok(()), same);
        }
        Err(why) => count(t, Err(why), expected == why.number()),
    }
}

// Whether the first n contributions and flags are the oracle's next ones, and the others 0 and false.
fn same_parts(input: &mut impl Read, b: &Breakdown, n: usize) -> bool {
    let mut same = true;
    for (i, ((dh, dd), flag)) in b.dh.iter().zip(&b.dd).zip(&b.pier_sensitive).enumerate() {
        if i < n {
            same &= replay::same_pair(input, *dh, *dd);
            same &= replay::byte(input) == u8::from(*flag);
        } else {
            same &= replay::same_bits(*dh, 0.0) && replay::same_bits(*dd, 0.0) && !*flag;
        }
    }
    same
}

// A breakdown of a model of n terms, held against the oracle's.
fn broken_down(input: &mut impl Read, t: &mut Tally, ours: Result<Breakdown, Refusal>, n: usize) {
    let expected = replay::byte(input);
    match ours {
        Ok(b) => {
            let same = same_parts(input, &b, n);
            count(t, Ok(()), expected == 0 && same);
        }
        Err(why) => count(t, Err(why), expected == why.number()),
    }
}

// What a correction is lent: l numbers from sheet a on, where the sheets have them, and a place.
fn read_point<'a>(input: &mut impl Read, sheets: &'a [f64]) -> Option<(&'a [f64], Place)> {
    let l = usize::from(replay::byte(input));
    let from = 37 * replay::small(input, 65535);
    let p = Place::read(input);
    let sheet = sheets.get(from..from + l)?;
    Some((sheet, p))
}

// A call of `apply_equatorial`.
fn apply(input: &mut impl Read, t: &mut Tally, m: &PointingModel, sheets: &[f64]) {
    match read_point(input, sheets) {
        Some((sheet, p)) => {
            let ours = m.apply_equatorial(sheet, p.sin_lat, p.cos_lat, p.pier);
            corrected(input, t, ours);
        }
        None => count(t, Ok(()), false),
    }
}

// A call of `predict_breakdown`.
fn break_down(input: &mut impl Read, t: &mut Tally, m: &PointingModel, sheets: &[f64]) {
    match read_point(input, sheets) {
        Some((sheet, p)) => {
            let ours = m.predict_breakdown(sheet, p.sin_lat, p.cos_lat, p.pier);
            broken_down(input, t, ours, m.count);
        }
        None => count(t, Ok(()), false),
    }
}

// The next 32 flags, a byte each.
fn read_flags(input: &mut impl Read) -> [bool; MAX_TERMS] {
    let mut flags = [false; MAX_TERMS];
    for flag in &mut flags {
        *flag = replay::byte(input) != 0;
    }
    flags
}

// A model made by hand.
fn by_hand(input: &mut impl Read) -> PointingModel {
    let count = replay::small(input, 65535);
    let names = replay::bytes(input);
    let mut coefficients = [0.0; MAX_TERMS];
    replay::read_doubles(input, &mut coefficients);
    let pier_sensitive = read_flags(input);
    PointingModel {
        names,
        coefficients,
        pier_sensitive,
        count,
    }
}

// One record.
fn record(input: &mut impl Read, t: &mut Tally, code: u8, m: &mut PointingModel, sheets: &[f64]) {
    match Op::try_from(code) {
        Ok(Op::New) => {
            *m = PointingModel::new();
            more(&mut t.models);
            if !is_empty(m) {
                more(&mut t.different);
            }
        }
        Ok(Op::ByHand) => {
            *m = by_hand(input);
            more(&mut t.models);
        }
        Ok(Op::AddTerm) => add(input, t, m),
        Ok(Op::SetCoefficients) => set(input, t, m),
        Ok(Op::ApplyEquatorial) => apply(input, t, m, sheets),
        Ok(Op::PredictBreakdown) => break_down(input, t, m, sheets),
        Err(_) => more(&mut t.different),
    }
}

// All records.
fn records(input: &mut impl Read, sheets: &[f64]) -> Tally {
    let mut t = Tally {
        calls: 0,
        models: 0,
        added: 0,
        there: 0,
        mended: 0,
        refused: Refused::none(),
        different: 0,
    };
    let mut m = PointingModel::new();
    for _ in 0..u64::MAX {
        match replay::head(input) {
            Ahead::Record(code) => record(input, &mut t, code, &mut m, sheets),
            Ahead::End => return t,
            Ahead::Cut => break,
        }
    }
    more(&mut t.different);
    t
}

// The sheets, and all records.
fn run(input: &mut impl Read) -> Tally {
    let mut sheets = replay::room::<f64, 16384>(0.0);
    let n = 37 * replay::small(input, 400);
    replay::read_doubles(input, &mut sheets[..n]);
    records(input, &sheets)
}

fn report(output: &mut impl Write, t: &Tally) {
    line(output, b"calls", t.calls);
    line(output, b"models", t.models);
    line(output, b"added", t.added);
    line(output, b"there", t.there);
    line(output, b"mended", t.mended);
    t.refused.lines(output, &[1, 2, 4, 5, 7, 8, 9, 10, 14]);
    line(output, b"different", t.different);
}

fn main(rt: HostRuntime) {
    let t = run(&mut rt.stdin());
    report(&mut rt.stdout(), &t);
}
