// Replays the oracle's fits. Standard input holds a pool of sheets and then calls, each with what the Rust made of it (oracle/README.md
// has the format); whole answers, the buffers' tails, refused buffers and the cleared scratch are held against it.
#![tactic(auto)]

ghost use Rattle.std.specs.Prelude.{◌≡◌, ◌*◌, ◌≤◌, length};

use refusal::Refusal;
use replay::{Ahead, Held, Refused, line, more, room};
use solver::input::FitInput;
use solver::{FitResult, IterOptions, Settings, SigmaBy};
use std::io::{Read, Write};

// The most sheets of the pool, and the most numbers that all lent sheets have: each lent sheet is read whole.
const POOL: usize = 14800;

const SHEETS: usize = 41070;

// What the buffers hold before a call.
const BEFORE: f64 = 7.25;

#[derive(Clone, Copy)]
struct Tally {
    fits: u64,
    done: u64,
    refused: Refused,
    deficient: u64,
    by_rows: u64,
    not_numbers: u64,
    thirty: u64,
    not_settled: u64,
    converged: u64,
    robust: u64,
    different: u64,
}

// Which fit is called.
// Not pmf's Mode, in which other bytes are refused: here each byte stands for a fit.
#[derive(Clone, Copy, PartialEq, Eq)]
enum Mode {
    Single,
    Iterated,
    Robust,
}

impl From<u8> for Mode {
    fn from(code: u8) -> Mode {
        match code {
            0 => Mode::Single,
            3 => Mode::Robust,
            _ => Mode::Iterated,
        }
    }
}

// How much is lent.
#[derive(Clone, Copy)]
struct Lent {
    m: usize,
    n: usize,
    names: usize,
    fixed: usize,
    dd: usize,
    pier: usize,
    sheets: usize,
    ghost m_fits: { m ≤ 40 },
    ghost n_fits: { n ≤ 1100 },
    ghost names_fit: { names ≤ 700 },
    ghost fixed_fit: { fixed ≤ 64 },
    ghost dd_fit: { dd ≤ 1200 },
    ghost pier_fit: { pier ≤ 1200 },
    ghost sheets_fit: { sheets ≤ 41000 },
}

// How many places the buffers have: at most as many as their arrays, which `Sizes` doesn't say.
#[derive(Clone, Copy)]
struct Room {
    coefficients: usize,
    change: usize,
    sigma: usize,
    diagnostics: usize,
    scratch: usize,
    ghost coefficients_fit: { coefficients ≤ 64 },
    ghost change_fits: { change ≤ 64 },
    ghost sigma_fits: { sigma ≤ 64 },
    ghost diagnostics_fit: { diagnostics ≤ 3400 },
    ghost scratch_fits: { scratch ≤ 150000 },
}

// What is lent to the fit beside the slices and the settings.
#[derive(Clone, Copy)]
struct Call {
    mode: Mode,
    sigma_by: SigmaBy,
    options: IterOptions,
}

fn read_lent(input: &mut impl Read) -> Lent {
    let m = replay::small(input, 40);
    let n = replay::small(input, 1100);
    let names = replay::small(input, 700);
    let fixed = replay::small(input, 64);
    let dd = replay::small(input, 1200);
    let pier = replay::small(input, 1200);
    let sheets = replay::large(input, 41000);
    Lent {
        m,
        n,
        names,
        fixed,
        dd,
        pier,
        sheets,
    }
}

fn read_room(input: &mut impl Read) -> Room {
    let coefficients = replay::small(input, 64);
    let change = replay::small(input, 64);
    let sigma = replay::small(input, 64);
    let diagnostics = replay::small(input, 3400);
    let scratch = replay::large(input, 150000);
    Room {
        coefficients,
        change,
        sigma,
        diagnostics,
        scratch,
    }
}

fn read_settings(input: &mut impl Read) -> Settings {
    let sin_lat = replay::double(input);
    let cos_lat = replay::double(input);
    let fit_tol = replay::double(input);
    Settings {
        sin_lat,
        cos_lat,
        fit_tol,
    }
}

// The numbers of the options, which are read in every mode.
fn read_options(input: &mut impl Read, robust: bool) -> IterOptions {
    let tol_rad = replay::double(input);
    let initial_lambda = replay::double(input);
    let lambda_up = replay::double(input);
    let lambda_down = replay::double(input);
    let huber_k = replay::double(input);
    let max_iter = replay::small(input, 65535);
    IterOptions {
        max_iter,
        tol_rad,
        initial_lambda,
        lambda_up,
        lambda_down,
        robust,
        huber_k,
    }
}

fn read_call(input: &mut impl Read, mode: Mode) -> Call {
    let sigma_by = match replay::byte(input) {
        1 => SigmaBy::Rows,
        _ => SigmaBy::Stars,
    };
    let options = read_options(input, mode == Mode::Robust);
    Call {
        mode,
        sigma_by,
        options,
    }
}

// Sheets one after the other, each by its place in the pool.
fn read_sheets(input: &mut impl Read, pool: &[f64; POOL], sheets: &mut [f64]) {
    for sheet in sheets.chunks_exact_mut(37) {
        let a = 37 * replay::small(input, 399);
        sheet.copy_from_slice(&pool[a..a + 37]);
    }
}

// The slices of the calls, one call after the other: a call reads as much as is lent to it.
// Arrays, with their lengths in `Lent`, since there is no heap; those of one call need not match.
#[derive(Clone, Copy)]
struct Slices {
    names: [u8; 700],
    fixed: [u8; 64],
    coefficients: [f64; 64],
    dh: [f64; 1200],
    dd: [f64; 1200],
    pier: [u8; 1200],
    sheets: [f64; SHEETS],
}

impl Slices {
    fn read(&mut self, input: &mut impl Read, lent: Lent, pool: &[f64; POOL]) {
        let _ = input.read_exact(&mut self.names[..lent.names]);
        let _ = input.read_exact(&mut self.fixed[..lent.fixed]);
        replay::read_doubles(input, &mut self.coefficients[..lent.m]);
        replay::read_doubles(input, &mut self.dh[..lent.n]);
        replay::read_doubles(input, &mut self.dd[..lent.dd]);
        let _ = input.read_exact(&mut self.pier[..lent.pier]);
        let whole = (lent.sheets + 36) / 37 * 37;
        read_sheets(input, pool, &mut self.sheets[..whole]);
    }

    fn lent(&self, lent: Lent, settings: Settings) -> FitInput<'_> {
        FitInput {
            names: &self.names[..lent.names],
            fixed: &self.fixed[..lent.fixed],
            coefficients: &self.coefficients[..lent.m],
            dh: &self.dh[..lent.n],
            dd: &self.dd[..lent.dd],
            pier: &self.pier[..lent.pier],
            sheets: &self.sheets[..lent.sheets],
            settings,
        }
    }
}

// Whether each number of s is x, in its bits.
fn all_are(s: &[f64], x: f64) -> bool {
    s.iter().all(|y| replay::same_bits(*y, x))
}

// A buffer after an accepted fit: n numbers of the oracle's, and the rest as it was.
fn hold_buffer(input: &mut impl Read, held: &mut Held, s: &[f64], n: usize) {
    match s.split_at_checked(n) {
        Some((front, tail)) => {
            held.hold_all(input, front);
            held.same &= all_are(tail, BEFORE);
        }
        None => held.same = false,
    }
}

// Scratch after an accepted fit: n zeros, and the rest as it was.
fn cleared(s: &[f64], n: usize) -> bool {
    match s.split_at_checked(n) {
        Some((front, tail)) => all_are(front, 0.0) && all_are(tail, BEFORE),
        None => false,
    }
}

// The record of an accepted fit.
fn hold_result(input: &mut impl Read, held: &mut Held, r: &FitResult) {
    held.hold(input, r.sky_rms);
    held.hold(input, r.popn_sd);
    let n_free = usize::from(replay::byte(input));
    let rank = usize::from(replay::byte(input));
    held.hold(input, r.rank_info.sigma_max);
    held.hold(input, r.rank_info.sigma_min);
    held.hold(input, r.rank_info.tol);
    let iterations = replay::small(input, 65535);
    let converged = replay::byte(input);
    held.hold(input, r.iter_report.final_lambda);
    held.hold(input, r.iter_report.final_step_norm);
    let sweeps = usize::from(replay::byte(input));
    let settled = replay::byte(input);
    held.same &= n_free == r.rank_info.n_free
        && rank == r.rank_info.rank
        && iterations == r.iter_report.iterations
        && converged == u8::from(r.iter_report.converged)
        && sweeps == r.sweeps
        && settled == u8::from(r.settled);
}

// An accepted fit.
fn hold_fit(
    input: &mut impl Read,
    r: &FitResult,
    lent: Lent,
    out: &[f64],
    change: &[f64],
    sigma: &[f64],
    diagnostics: &[f64],
    scratch: &[f64],
) -> Held {
    let mut held = Held {
        same: true,
        numbers: true,
    };
    hold_buffer(input, &mut held, out, lent.m);
    hold_buffer(input, &mut held, change, lent.m);
    hold_buffer(input, &mut held, sigma, lent.m);
    hold_buffer(input, &mut held, diagnostics, 3 * lent.n);
    hold_result(input, &mut held, r);
    let needed = replay::large(input, 150000);
    held.same &= cleared(scratch, needed);
    held
}

fn count_done(t: &mut Tally, call: Call, r: &FitResult, held: Held, expected: u8) {
    more(&mut t.done);
    if r.iter_report.converged {
        more(&mut t.converged);
    }
    if call.mode == Mode::Robust {
        more(&mut t.robust);
    }
    if r.rank_info.is_deficient() {
        more(&mut t.deficient);
    }
    if call.sigma_by == SigmaBy::Rows {
        more(&mut t.by_rows);
    }
    if !held.numbers {
        more(&mut t.not_numbers);
    }
    if r.sweeps == 30 {
        more(&mut t.thirty);
    }
    if !r.settled {
        more(&mut t.not_settled);
    }
    if !held.same || expected != 0 {
        more(&mut t.different);
    }
}

fn count_refused(t: &mut Tally, why: Refusal, kept: bool, expected: u8) {
    t.refused.count(why.number());
    if !kept || expected != why.number() {
        more(&mut t.different);
    }
}

// The call by its mode. The buffers come one by one, here and below, as both fits take them.
fn fit(
    fit_input: &FitInput,
    call: Call,
    out: &mut [f64],
    change: &mut [f64],
    sigma: &mut [f64],
    diagnostics: &mut [f64],
    scratch: &mut [f64],
) -> Result<FitResult, Refusal> {
    match call.mode {
        Mode::Single => single_step::fit_model(
            fit_input,
            call.sigma_by,
            out,
            change,
            sigma,
            diagnostics,
            scratch,
        ),
        Mode::Iterated | Mode::Robust => iterated::fit_model_iterated(
            fit_input,
            call.sigma_by,
            call.options,
            out,
            change,
            sigma,
            diagnostics,
            scratch,
        ),
    }
}

// A call's answer and its buffers, against the oracle's.
fn judge(
    input: &mut impl Read,
    t: &mut Tally,
    call: Call,
    lent: Lent,
    answer: Result<FitResult, Refusal>,
    out: &[f64],
    change: &[f64],
    sigma: &[f64],
    diagnostics: &[f64],
    scratch: &[f64],
) {
    more(&mut t.fits);
    let expected = replay::byte(input);
    match answer {
        Ok(r) => {
            let held = hold_fit(input, &r, lent, out, change, sigma, diagnostics, scratch);
            count_done(t, call, &r, held, expected);
        }
        Err(why) => {
            let kept = [out, change, sigma, diagnostics, scratch]
                .iter()
                .all(|buffer| all_are(buffer, BEFORE));
            count_refused(t, why, kept, expected);
        }
    }
}

// The call with buffers of the places that its head gives.
fn lend(
    input: &mut impl Read,
    t: &mut Tally,
    call: Call,
    lent: Lent,
    places: Room,
    fit_input: &FitInput,
) {
    let mut out = room::<f64, 64>(BEFORE);
    let mut change = room::<f64, 64>(BEFORE);
    let mut sigma = room::<f64, 64>(BEFORE);
    let mut diagnostics = room::<f64, 3400>(BEFORE);
    let mut scratch = room::<f64, 150000>(BEFORE);
    let answer = fit(
        fit_input,
        call,
        &mut out[..places.coefficients],
        &mut change[..places.change],
        &mut sigma[..places.sigma],
        &mut diagnostics[..places.diagnostics],
        &mut scratch[..places.scratch],
    );
    judge(
        input,
        t,
        call,
        lent,
        answer,
        &out[..places.coefficients],
        &change[..places.change],
        &sigma[..places.sigma],
        &diagnostics[..places.diagnostics],
        &scratch[..places.scratch],
    );
}

// One record.
fn record(
    input: &mut impl Read,
    t: &mut Tally,
    mode: Mode,
    pool: &[f64; POOL],
    slices: &mut Slices,
) {
    let lent = read_lent(input);
    let places = read_room(input);
    slices.read(input, lent, pool);
    let settings = read_settings(input);
    let call = read_call(input, mode);
    lend(input, t, call, lent, places, &slices.lent(lent, settings));
}

// All records.
fn records(input: &mut impl Read, pool: &[f64; POOL], slices: &mut Slices) -> Tally {
    let mut t = Tally {
        fits: 0,
        done: 0,
        refused: Refused::none(),
        deficient: 0,
        by_rows: 0,
        not_numbers: 0,
        thirty: 0,
        not_settled: 0,
        converged: 0,
        robust: 0,
        different: 0,
    };
    for _ in 0..u64::MAX {
        match replay::head(input) {
            Ahead::Record(code) => record(input, &mut t, Mode::from(code), pool, slices),
            Ahead::End => return t,
            Ahead::Cut => break,
        }
    }
    more(&mut t.different);
    t
}

// The pool of sheets, then all records.
fn run(input: &mut impl Read) -> Tally {
    let mut pool = room::<f64, POOL>(0.0);
    let n = 37 * replay::small(input, 400);
    replay::read_doubles(input, &mut pool[..n]);
    let mut slices = Slices {
        names: [0; 700],
        fixed: [0; 64],
        coefficients: [0.0; 64],
        dh: room(0.0),
        dd: room(0.0),
        pier: room(0),
        sheets: room(0.0),
    };
    records(input, &pool, &mut slices)
}

// All counts. A single step isn't asked question 6, about the options, has no loop that may converge, and isn't robust.
fn report(output: &mut impl Write, t: &Tally, iterated: bool) {
    line(output, b"fits", t.fits);
    line(output, b"done", t.done);
    for question in 1..14u8 {
        if question != 6 || iterated {
            t.refused.line(output, question);
        }
    }
    line(output, b"deficient", t.deficient);
    line(output, b"by rows", t.by_rows);
    line(output, b"not numbers", t.not_numbers);
    line(output, b"thirty sweeps", t.thirty);
    line(output, b"not settled", t.not_settled);
    if iterated {
        line(output, b"converged", t.converged);
        line(output, b"robust", t.robust);
    }
    line(output, b"different", t.different);
}

// Replays the input and prints the counts: those of a single step, or those of an iterated fit.
pub fn replay(input: &mut impl Read, output: &mut impl Write, iterated: bool) {
    let t = run(input);
    report(output, &t, iterated);
}
