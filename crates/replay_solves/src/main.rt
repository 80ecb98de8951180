// Replays the oracle's solves. Standard input holds linear systems, each with what the Rust made of it (oracle/README.md has the format);
// the counts and the number of solves that differ are written out.
#![tactic(auto)]

ghost use Rattle.std.specs.Prelude.{◌≡◌, ◌+◌, ◌*◌, ◌<◌, ◌≤◌, length, take};
ghost use Rattle.linalg.specs.Linalg.{Placed};
ghost use Rattle.replay_solves.specs.Systems.{Sized, Ordered};

use linalg::SolveOutcome;
use replay::{Ahead, Held, line, more, read_doubles};
use std::io::{Read, Write};

#[derive(Clone, Copy)]
struct Tally {
    solves: u64,
    damped: u64,
    deficient: u64,
    not_numbers: u64,
    thirty: u64,
    different: u64,
}

// The head of a record.
#[derive(Clone, Copy)]
struct Head {
    rows: usize,
    m: usize,
    lambda: f64,
    fit_tol: f64,
}

// The columns of a system lie from 256 on, each with room for V and the damping rows below its rows.
fn read_matrix(input: &mut impl Read, head: Head, w: &mut [f64])
    requires { Sized head.rows head.m w.old }
{
    let Head { rows, m, .. } = head;
    for column in w[256..].chunks_exact_mut(rows + m + m).take(m) {
        for x in column.iter_mut().take(rows) {
            *x = replay::double(input);
        }
    }
}

// The leverage of the first rows, by their numbers, which `leverage` takes, from the columns that the solve left.
fn hold_leverage(
    input: &mut impl Read,
    held: &mut Held,
    w: &[f64],
    h: usize,
    rows: usize,
    o: &[usize],
    r: &SolveOutcome,
)
    requires { (rows ≤ h) × Placed h w.now o.now }
{
    for i in 0..rows {
        held.hold(input, linalg::leverage(w, h, o, i, &r.inv_s));
    }
}

// The whole outcome, and the columns that it was worked out in, held against the oracle's.
fn hold_outcome(input: &mut impl Read, head: Head, r: &SolveOutcome, w: &[f64]) -> Held
    requires { Sized head.rows head.m w.now × Ordered head.m r.now.order }
{
    let Head { rows, m, .. } = head;
    let mut held = Held {
        same: true,
        numbers: true,
    };
    held.hold_all(input, &r.x[..m]);
    held.hold_all(input, &r.cov_diag[..m]);
    hold_leverage(
        input,
        &mut held,
        &w[256..],
        rows + m + m,
        rows,
        &r.order[..m],
        r,
    );
    let rank = usize::from(replay::byte(input));
    held.hold(input, r.sigma_max);
    held.hold(input, r.sigma_min);
    let sweeps = usize::from(replay::byte(input));
    let settled = replay::byte(input);
    held.same &= rank == r.rank && sweeps == r.sweeps && settled == u8::from(r.settled);
    held
}

fn count(t: &mut Tally, head: Head, r: &SolveOutcome, held: Held) {
    more(&mut t.solves);
    if !(head.lambda <= 0.0) {
        more(&mut t.damped);
    }
    if r.rank < head.m {
        more(&mut t.deficient);
    }
    if !held.numbers {
        more(&mut t.not_numbers);
    }
    if r.sweeps == 30 {
        more(&mut t.thirty);
    }
    if !held.same {
        more(&mut t.different);
    }
}

// One system of at most 256 rows and 32 columns. b lies at the front.
fn solve(input: &mut impl Read, t: &mut Tally, head: Head, w: &mut [f64])
    requires { Sized head.rows head.m w.old }
{
    let Head {
        rows,
        m,
        lambda,
        fit_tol,
    } = head;
    read_matrix(input, head, w);
    read_doubles(input, &mut w[..rows]);
    let r = linalg::solve_damped(w, 256, rows + m + m, rows, m, 0, lambda, fit_tol);
    let held = hold_outcome(input, head, &r, w);
    count(t, head, &r, held);
}

// One record. The oracle writes no system without a column, or with more than 32.
fn record(input: &mut impl Read, t: &mut Tally, m: u8, w: &mut [f64])
    requires { length w.old ≡ 10496 }
{
    if m == 0 || 32 < m {
        replay::abandon(input);
        return;
    }
    let head = Head {
        rows: replay::small(input, 256),
        m: usize::from(m),
        lambda: replay::double(input),
        fit_tol: replay::double(input),
    };
    solve(input, t, head, w);
}

// All records.
fn records(input: &mut impl Read, w: &mut [f64]) -> Tally
    requires { length w.old ≡ 10496 }
{
    let mut t = Tally {
        solves: 0,
        damped: 0,
        deficient: 0,
        not_numbers: 0,
        thirty: 0,
        different: 0,
    };
    for _ in 0..u64::MAX {
        match replay::head(input) {
            Ahead::Record(m) => record(input, &mut t, m, w),
            Ahead::End => return t,
            Ahead::Cut => break,
        }
    }
    more(&mut t.different);
    t
}

fn report(output: &mut impl Write, t: &Tally) {
    line(output, b"solves", t.solves);
    line(output, b"damped", t.damped);
    line(output, b"deficient", t.deficient);
    line(output, b"not numbers", t.not_numbers);
    line(output, b"thirty sweeps", t.thirty);
    line(output, b"different", t.different);
}

fn main(rt: HostRuntime) {
    let mut w = replay::room::<f64, 10496>(0.0);
    let t = records(&mut rt.stdin(), &mut w);
    report(&mut rt.stdout(), &t);
}
