// The iterated fit: a loop of damped trials and one undamped trial at its end. Of all the sets that it tries it returns the best, as
// specs/Demand3.antt says. It works in the scratch that outcome describes. After solver/iterated.rs.
#![tactic(auto)]

ghost use Rattle.std.specs.Prelude.{◌≡◌, ◌+◌, ◌*◌, ◌≤◌, length};
ghost use mathlib.Core.List.{zip_with};
ghost use Rattle.std.specs.Float.Ieee.{sub};
ghost use Rattle.std.specs.Float.{binary64};
ghost use Rattle.solver.specs.Call.{buffers, sizes_of};
ghost use Rattle.design.specs.Design.{run_from};
ghost use Rattle.validate.specs.Questions.{Ready};
ghost use Rattle.outcome.specs.Outcome.{outcome};
ghost use Rattle.outcome.specs.Scratch.{count_of, height_in, Fits};
ghost use Rattle.iterated.specs.Iterated.{tried_to, trial_of, lm_loop, Left, Proposed, LastTried, fitted_run, fitted, iterated_outcome};
ghost use Rattle.iterated.specs.Demand3.{Demand3};

use design::run::RunInput;
use limits::{MAX_STARS, MAX_TERMS};
use linalg::SolveOutcome;
use refusal::Refusal;
use solver::input::FitInput;
use solver::{FitResult, IterOptions, IterReport, SigmaBy, Sizes};

// What comes of a trial: its chi-square and the step's length where it is kept, and else the raised damping. No Result, as a rejected trial is no error.
#[derive(Clone, Copy)]
pub enum Trial {
    Accepted(f64, f64),
    Rejected(f64),
}

// How the loop came to the set in hand.
#[derive(Clone, Copy)]
pub struct LmLoopResult {
    pub iterations: usize,
    pub converged: bool,
    pub lambda: f64,
    pub last_step_norm: f64,
    pub prev_chi2: f64,
}

// The set that a step leads to, at the front of an array, its chi-square, and the solver's answer.
#[derive(Clone, Copy)]
struct Proposal {
    pub set: [f64; MAX_TERMS],
    pub chi2: f64,
    pub solved: SolveOutcome,
}

// What the step at a damping proposes, with the weights that belong to k. The residuals of the set lie at 2·n, and at the end those of the
// proposal.
// That scratch fits a run is a clause, here and below: a struct of both would owe that it lends the same scratch.
fn propose(run: &RunInput, set: &[f64], k: f64, lambda: f64, w: &mut [f64]) -> Proposal
    requires { (length set.now ≡ run.now.m) × Fits run.now w.old × Left run.now set.now w.old }
    ensures { Proposed run.now k lambda set.now w.new result.set result.chi2 result.solved }
{
    let v = 4 * run.sights.used.len();
    let solved = lm_system::lm_step(run, set, k, lambda, w);
    let trial = lm_system::trial_state_from(run.free, &solved.x, set);
    let chi2 = lm_system::chi2_at_state(run, &trial[..set.len()], &mut w[..v]);
    Proposal {
        set: trial,
        chi2,
        solved,
    }
}

// One trial. The set moves where its chi-square is strictly below the current one: a NaN fails. The residuals of the set lie at 2·n before and
// after it.
#[tactic(auto, using(design::proofs::Runs::named, design::proofs::Runs::read))]
fn attempt(
    run: &RunInput,
    options: IterOptions,
    chi2: f64,
    lambda: f64,
    set: &mut [f64],
    w: &mut [f64],
) -> Trial
    requires { (length set.old ≡ run.now.m) × Fits run.now w.old × Left run.now set.old w.old }
    ensures tried { tried_to result set.new ≡ trial_of (run_from run.now) options chi2 lambda set.old }
    ensures left { Left run.now set.new w.new }
{
    let m = set.len();
    let n = run.sights.used.len();
    let free = run.free.len();
    let k = lm_system::huber_threshold(n, free, options, chi2);
    let next = propose(run, set, k, lambda, w);
    if next.chi2 < chi2 {
        set.copy_from_slice(&next.set[..m]);
        let norm = lm_system::rotational_step_norm(run.names, run.free, &next.solved.x[..free]);
        return Trial::Accepted(next.chi2, norm);
    }
    lm_system::residuals_under_state(run, set, &mut w[..4 * n]);
    Trial::Rejected(lambda * options.lambda_up)
}

// The loop of damped trials.
fn run_lm_loop(run: &RunInput, options: IterOptions, set: &mut [f64], w: &mut [f64]) -> LmLoopResult
    requires { (length set.old ≡ run.now.m) × Fits run.now w.old }
    ensures reported { record { set = set.new; how = result } ≡ lm_loop (run_from run.now) options set.old }
    ensures left { Left run.now set.new w.new }
{
    let v = 4 * run.sights.used.len();
    let chi2 = lm_system::chi2_at_state(run, set, &mut w[..v]);
    let mut lm = LmLoopResult {
        iterations: 0,
        converged: false,
        lambda: options.initial_lambda,
        last_step_norm: f64::INFINITY,
        prev_chi2: chi2,
    };
    for i in 0..options.max_iter {
        lm.iterations = i + 1;
        match attempt(run, options, lm.prev_chi2, lm.lambda, set, w) {
            Trial::Accepted(chi2, norm) => {
                lm.prev_chi2 = chi2;
                lm.lambda /= options.lambda_down;
                lm.last_step_norm = norm;
                if norm < options.tol_rad {
                    lm.converged = true;
                    break;
                }
            }
            Trial::Rejected(raised) => {
                lm.lambda = raised;
                if raised > 1.0e12 {
                    break;
                }
            }
        }
    }
    lm
}

// The chi-square of the set after the last trial, and the solver's answer.
#[derive(Clone, Copy)]
struct LastTrial {
    pub chi2: f64,
    pub solved: SolveOutcome,
}

// The last, undamped trial, kept where it is not above. It leaves at 2·n the residuals of its step, kept or not.
fn apply_final_step(
    run: &RunInput,
    options: IterOptions,
    chi2: f64,
    set: &mut [f64],
    w: &mut [f64],
) -> LastTrial
    requires { (length set.old ≡ run.now.m) × Fits run.now w.old × Left run.now set.old w.old }
    ensures { LastTried run.now options chi2 set.old w.new set.new result.chi2 result.solved }
{
    let m = set.len();
    let n = run.sights.used.len();
    let k = lm_system::huber_threshold(n, run.free.len(), options, chi2);
    let last = propose(run, set, k, 0.0, w);
    let mut least = chi2;
    if last.chi2 <= chi2 {
        set.copy_from_slice(&last.set[..m]);
        least = last.chi2;
    }
    outcome::free_residuals(
        &run.sights,
        run.names,
        run.free,
        k,
        &last.solved.x,
        &mut w[..8 * n],
    );
    LastTrial {
        chi2: least,
        solved: last.solved,
    }
}

// A set less the start, written by its places: of what a zip lends to write, a proof knows the length alone.
fn changes(set: &[f64], start: &[f64], change: &mut [f64])
    requires { (length start.now ≡ length set.now) × (length change.old ≡ length set.now) }
    ensures { change.new ≡ zip_with (sub binary64) set.now start.now }
{
    for (j, x) in change.iter_mut().enumerate() {
        *x = set[j] - start[j];
    }
}

// By hand, since copy_from_slice from one lent slice to another calls memmove, which the archives for C do without.
fn copy(from: &[f64], to: &mut [f64])
    requires { length to.old ≡ length from.now }
    ensures { to.new ≡ from.now }
{
    for (j, x) in to.iter_mut().enumerate() {
        *x = from[j];
    }
}

// The fit of a run that needs so much of scratch: from the coefficients as lent through the loop and the last trial. The set in hand lies at the front of
// the answer's coefficients. The buffers come one by one, here and below: a struct that lends them would owe in each contract that its references
// stay the same.
fn fit_run(
    run: &RunInput,
    coefficients: &[f64],
    sigma_by: SigmaBy,
    options: IterOptions,
    need: usize,
    out: &mut [f64],
    change: &mut [f64],
    sigma: &mut [f64],
    diagnostics: &mut [f64],
    scratch: &mut [f64],
) -> FitResult
    requires { (length coefficients.now ≡ run.now.m) × (8 * count_of run.now + run.now.m * height_in run.now ≤ need) × (need ≤ length scratch.old)
        × (run.now.m ≤ length out.old) × (run.now.m ≤ length change.old) × (run.now.m ≤ length sigma.old)
        × (3 * count_of run.now ≤ length diagnostics.old) }
    ensures { outcome (Ok result) (buffers out.new change.new sigma.new diagnostics.new scratch.new)
        ≡ fitted_run (run_from run.now) sigma_by need coefficients.now options
        (buffers out.old change.old sigma.old diagnostics.old scratch.old) }
{
    let n = run.sights.used.len();
    let m = run.m;
    copy(coefficients, &mut out[..m]);
    let lm = run_lm_loop(run, options, &mut out[..m], &mut scratch[..need]);
    let last = apply_final_step(
        run,
        options,
        lm.prev_chi2,
        &mut out[..m],
        &mut scratch[..need],
    );
    changes(&out[..m], coefficients, &mut change[..m]);
    let sky = stats::sky_of_sum(last.chi2, n, run.free.len());
    let report = IterReport {
        iterations: lm.iterations,
        converged: lm.converged,
        final_lambda: lm.lambda,
        final_step_norm: lm.last_step_norm,
    };
    outcome::finish(
        run.free,
        n,
        m,
        run.sights.settings,
        sigma_by,
        last.solved,
        sky,
        report,
        sigma,
        diagnostics,
        &mut scratch[..need],
    )
}

// A fit whose questions are all passed: the free terms and the stars that count are listed once, in arrays of the limits, since there is no heap.
// The lists are made in both fits, as a run borrows them. Ready is a clause and no type: it speaks of the buffers' lengths too.
pub fn fit(
    input: &FitInput,
    sigma_by: SigmaBy,
    options: IterOptions,
    out: &mut [f64],
    change: &mut [f64],
    sigma: &mut [f64],
    diagnostics: &mut [f64],
    scratch: &mut [f64],
) -> FitResult
    requires { Ready input.now (sizes_of (buffers out.old change.old sigma.old diagnostics.old scratch.old)) }
    ensures { outcome (Ok result) (buffers out.new change.new sigma.new diagnostics.new scratch.new)
        ≡ fitted input.now sigma_by options
        (buffers out.old change.old sigma.old diagnostics.old scratch.old) }
{
    let n = input.dh.len();
    let need = validate::scratch_needed(input.coefficients.len(), n);
    let mut terms = [0u16; MAX_TERMS];
    let free = validate::collect_indices(input.fixed, &mut terms[..]);
    let mut stars = [0u16; MAX_STARS];
    validate::all_indices(n, &mut stars[..]);
    let run = validate::run_input(input, &terms[..free], &stars[..n]);
    fit_run(
        &run,
        input.coefficients,
        sigma_by,
        options,
        need,
        out,
        change,
        sigma,
        diagnostics,
        scratch,
    )
}

// The iterated fit of m terms to n stars, robust or not: the best set that it tried, its change and sigma, and three numbers a star, or the
// refusal of the first question that is answered no, which leaves every buffer as it was.
pub fn fit_model_iterated(
    input: &FitInput,
    sigma_by: SigmaBy,
    options: IterOptions,
    out: &mut [f64],
    change: &mut [f64],
    sigma: &mut [f64],
    diagnostics: &mut [f64],
    scratch: &mut [f64],
) -> Result<FitResult, Refusal>
    ensures equal { outcome result (buffers out.new change.new sigma.new diagnostics.new scratch.new)
        ≡ iterated_outcome input.now sigma_by options
        (buffers out.old change.old sigma.old diagnostics.old scratch.old) }
    ensures demand { Demand3 input.now options result out.new }
{
    let room = Sizes {
        coefficients: out.len(),
        change: change.len(),
        sigma: sigma.len(),
        diagnostics: diagnostics.len(),
        scratch: scratch.len(),
    };
    validate::questions(input, options, room)?;
    Ok(fit(
        input,
        sigma_by,
        options,
        out,
        change,
        sigma,
        diagnostics,
        scratch,
    ))
}
