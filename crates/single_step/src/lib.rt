// The single-step fit. It works in the scratch that outcome describes. After solver/single_step.rs.
#![tactic(auto)]

ghost use Rattle.std.specs.Prelude.{◌≡◌, ◌+◌, ◌*◌, ◌≤◌, Ok, length, replicate};
ghost use mathlib.Core.List.{zip_with};
ghost use Rattle.std.specs.Float.Ieee.{add};
ghost use Rattle.std.specs.Float.{binary64};
ghost use Rattle.limits.specs.Limits.{max_terms};
ghost use Rattle.float.specs.Float.{#0};
ghost use Rattle.sequence.specs.Sequence.{at};
ghost use Rattle.solver.specs.Call.{buffers, sizes_of};
ghost use Rattle.design.specs.Design.{run_from, scattered};
ghost use Rattle.design.specs.Counted.{Below};
ghost use Rattle.validate.specs.Questions.{Ready};
ghost use Rattle.stats.specs.Stats.{sky_from};
ghost use Rattle.outcome.specs.Outcome.{outcome};
ghost use Rattle.outcome.specs.Scratch.{count_of, height_in, b_in, solved_in};
ghost use Rattle.single_step.specs.SingleStep.{to_fit, step, actual_residuals, fitted_run, fitted, fit_outcome};

use design::run::RunInput;
use limits::{MAX_STARS, MAX_TERMS};
use linalg::SolveOutcome;
use refusal::Refusal;
use solver::input::FitInput;
use solver::{FitResult, IterReport, SigmaBy, Sizes};
use stats::Sky;

// The step: the residuals at 4·n, the free columns at 8·n, and the solution. A column is weighed by nothing where k is 0.
fn solve(run: &RunInput, coefficients: &[f64], w: &mut [f64]) -> SolveOutcome
    requires { (length coefficients.now ≡ run.now.m) × (8 * count_of run.now + run.now.m * height_in run.now ≤ length w.old) }
    ensures solution { solved_in run.now w.new result ≡ step (run_from run.now) coefficients.now }
    ensures fits { b_in run.now w.new ≡ to_fit (run_from run.now) coefficients.now }
{
    let sights = &run.sights;
    let n = sights.used.len();
    let rows = 2 * n;
    let h = rows + 2 * run.m;
    let b = 4 * n;
    let c = 8 * n;
    design::build_sky_residuals(
        run.dh,
        run.dd,
        sights.sheets,
        sights.used,
        &mut w[rows..rows + rows],
    );
    sights.subtract_all_contributions(run.names, coefficients, &mut w[..b]);
    design::copy(w, rows, b, rows);
    sights.build_design_matrix(run.names, run.free, 0.0, w, c, h);
    let tol = sights.settings.fit_tol;
    linalg::solve_and_covariance(w, c, h, rows, run.free.len(), b, rows, tol)
}

// A free term's change is the number at its place in x, a fixed term's is 0.
fn changes(free: &[u16], x: &[f64; MAX_TERMS], change: &mut [f64])
    requires { (length free.now ≤ max_terms) × Below (length change.old) free.now }
    ensures { change.new ≡ scattered free.now (at x.now) (replicate (length change.old) #0) }
{
    sequence::fill(change, 0.0);
    for (j, step) in free.iter().zip(x) {
        change[usize::from(*j)] = *step;
    }
}

// The coefficients with their changes added.
// Not one function with iterated's `changes`: a closure for the one operator, with what it asks, is longer than the loop.
fn changed(coefficients: &[f64], change: &[f64], out: &mut [f64])
    requires { (length change.now ≡ length coefficients.now) × (length out.old ≡ length coefficients.now) }
    ensures { out.new ≡ zip_with (add binary64) coefficients.now change.now }
{
    // By number: of what a zip lends to write, a proof knows the length alone.
    for (j, sum) in out.iter_mut().enumerate() {
        *sum = coefficients[j] + change[j];
    }
}

// What the residuals under coefficients come to on the sky; it works in v, 4·n numbers.
fn on_the_sky(run: &RunInput, coefficients: &[f64], v: &mut [f64]) -> Sky
    requires { (length coefficients.now ≡ run.now.m) × (length v.old ≡ 4 * count_of run.now) }
    ensures { result ≡ sky_from (run_from run.now).stars (length run.now.free) (actual_residuals (run_from run.now) coefficients.now) }
{
    run.sights.product(run.names, coefficients, v);
    let used = run.sights.used;
    let rows = 2 * used.len();
    design::subtract_from_differences(run.dh, run.dd, used, &mut v[rows..rows + rows]);
    let sum = stats::sum_sq_sky(run.sights.sheets, run.dh.len(), used, &v[rows..rows + rows]);
    stats::sky_of_sum(sum, used.len(), run.free.len())
}

// The fit of a run that needs so much of scratch. The buffers come one by one, here and below: a struct that lends them would owe in each
// contract that its references stay the same.
fn fit_run(
    run: &RunInput,
    coefficients: &[f64],
    sigma_by: SigmaBy,
    need: usize,
    out: &mut [f64],
    change: &mut [f64],
    sigma: &mut [f64],
    diagnostics: &mut [f64],
    scratch: &mut [f64],
) -> FitResult
    requires { (length coefficients.now ≡ run.now.m) × (8 * count_of run.now + run.now.m * height_in run.now ≤ need) × (need ≤ length scratch.old)
        × (run.now.m ≤ length out.old) × (run.now.m ≤ length change.old) × (run.now.m ≤ length sigma.old)
        × (3 * count_of run.now ≤ length diagnostics.old) }
    ensures { outcome (Ok result) (buffers out.new change.new sigma.new diagnostics.new scratch.new)
        ≡ fitted_run (run_from run.now) sigma_by need coefficients.now
        (buffers out.old change.old sigma.old diagnostics.old scratch.old) }
{
    let m = run.m;
    let sights = &run.sights;
    let n = sights.used.len();
    let solved = solve(run, coefficients, &mut scratch[..need]);
    changes(run.free, &solved.x, &mut change[..m]);
    changed(coefficients, &change[..m], &mut out[..m]);
    let sky = on_the_sky(run, &out[..m], &mut scratch[..4 * n]);
    outcome::free_residuals(
        sights,
        run.names,
        run.free,
        0.0,
        &solved.x,
        &mut scratch[..8 * n],
    );
    let report = IterReport {
        iterations: 1,
        converged: true,
        final_lambda: 0.0,
        final_step_norm: 0.0,
    };
    outcome::finish(
        run.free,
        n,
        m,
        sights.settings,
        sigma_by,
        solved,
        sky,
        report,
        sigma,
        diagnostics,
        &mut scratch[..need],
    )
}

// A fit whose questions are all passed: the free terms and the stars that count are listed once, in arrays of the limits, since there is no heap.
// The lists are made in both fits, as a run borrows them. Ready is a clause and no type: it speaks of the buffers' lengths too.
pub fn fit(
    input: &FitInput,
    sigma_by: SigmaBy,
    out: &mut [f64],
    change: &mut [f64],
    sigma: &mut [f64],
    diagnostics: &mut [f64],
    scratch: &mut [f64],
) -> FitResult
    requires { Ready input.now (sizes_of (buffers out.old change.old sigma.old diagnostics.old scratch.old)) }
    ensures { outcome (Ok result) (buffers out.new change.new sigma.new diagnostics.new scratch.new)
        ≡ fitted input.now sigma_by (buffers out.old change.old sigma.old diagnostics.old scratch.old) }
{
    let n = input.dh.len();
    let need = validate::scratch_needed(input.coefficients.len(), n);
    let mut terms = [0u16; MAX_TERMS];
    let free = validate::collect_indices(input.fixed, &mut terms);
    let mut stars = [0u16; MAX_STARS];
    validate::all_indices(n, &mut stars);
    let run = validate::run_input(input, &terms[..free], &stars[..n]);
    fit_run(
        &run,
        input.coefficients,
        sigma_by,
        need,
        out,
        change,
        sigma,
        diagnostics,
        scratch,
    )
}

// The single-step fit of m terms to n stars: the new coefficients, their change and sigma, and three numbers a star, or the first question that is
// answered no, which leaves every buffer as it was.
pub fn fit_model(
    input: &FitInput,
    sigma_by: SigmaBy,
    out: &mut [f64],
    change: &mut [f64],
    sigma: &mut [f64],
    diagnostics: &mut [f64],
    scratch: &mut [f64],
) -> Result<FitResult, Refusal>
    ensures { outcome result (buffers out.new change.new sigma.new diagnostics.new scratch.new)
        ≡ fit_outcome input.now sigma_by (buffers out.old change.old sigma.old diagnostics.old scratch.old) }
{
    let room = Sizes {
        coefficients: out.len(),
        change: change.len(),
        sigma: sigma.len(),
        diagnostics: diagnostics.len(),
        scratch: scratch.len(),
    };
    validate::questions(input, validate::no_options(), room)?;
    Ok(fit(input, sigma_by, out, change, sigma, diagnostics, scratch))
}
