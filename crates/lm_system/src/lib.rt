// The system that a trial of the iterated fit solves, the set that its step leads to, and the length of the step. A set lies in a slice; the
// scratch is the one that outcome describes. After the functions below the loop in solver/iterated.rs.
#![tactic(auto)]

ghost use Rattle.std.specs.Prelude.{◌≡◌, [], ◌+◌, ◌*◌, ◌≤◌, length, take};
ghost use Rattle.limits.specs.Limits.{max_terms, max_stars};
ghost use Rattle.sequence.specs.Sequence.{part};
ghost use Rattle.design.specs.Design.{run_from, sights_at, term_at, sky_rows, weighing};
ghost use Rattle.design.specs.Counted.{Below, Named, Read};
ghost use Rattle.outcome.specs.Scratch.{count_of, residuals_in, b_in, sky_in, solved_in, Fits};
ghost use Rattle.lm_system.specs.System.{residuals_under, sky_residuals, chi2_at, huber_from, weighed_residuals, lm_step, moved};
ghost use Rattle.lm_system.specs.System.{larger as larger_of, largest as largest_of, step_norm};
ghost use Rattle.lm_system.specs.Kinds.{of_kind};

use design::run::{RunInput, SightInput};
use equatorial::EquatorialTerm;
use limits::MAX_TERMS;
use linalg::SolveOutcome;
use solver::IterOptions;
use terms::TermKind;

// The arcseconds in a radian.
const RADIAN: f64 = 206264.806247;

// The differences less what a set predicts, behind a column's room in v, 4·n numbers.
pub fn residuals_under_state(run: &RunInput, set: &[f64], v: &mut [f64])
    requires { (length set.now ≡ run.now.m) × (length v.old ≡ 4 * count_of run.now) }
    ensures { residuals_in run.now v.new ≡ residuals_under (run_from run.now) set.now }
{
    run.sights.predict(run.names, set, v);
    let used = run.sights.used;
    let rows = 2 * used.len();
    design::subtract_from_differences(run.dh, run.dd, used, &mut v[rows..rows + rows]);
}

// The chi-square of a set, whose residuals it leaves there.
pub fn chi2_at_state(run: &RunInput, set: &[f64], v: &mut [f64]) -> f64
    requires { (length set.now ≡ run.now.m) × (length v.old ≡ 4 * count_of run.now) }
    ensures chi2 { result ≡ chi2_at (run_from run.now) set.now }
    ensures left { residuals_in run.now v.new ≡ residuals_under (run_from run.now) set.now }
{
    residuals_under_state(run, set, v);
    let used = run.sights.used;
    let rows = 2 * used.len();
    stats::sum_sq_sky(run.sights.sheets, run.dh.len(), used, &v[rows..rows + rows])
}

// A row is weighed where the size of its residual is above this; none is where this isn't above 0. There are n stars.
#[tactic(auto, unfolding(crate::specs::System::huber_from))]
pub fn huber_threshold(n: usize, free: usize, options: IterOptions, chi2: f64) -> f64
    requires { n ≤ max_stars }
    ensures { result ≡ huber_from n free options chi2 }
{
    if options.robust && chi2 > 0.0 {
        let dof = stats::degrees(2 * n, free);
        options.huber_k * sqrt::sqrt(chi2 / dof as f64)
    } else {
        0.0
    }
}

// Of v, three vectors, the first of which are residuals: the third becomes those on the sky, and the second the same weighed, b.
fn weighed_residuals(sights: &SightInput, k: f64, v: &mut [f64])
    requires { length v.old ≡ 6 * length sights.now.used }
    ensures sky { part v.new (4 * length sights.now.used) (2 * length sights.now.used)
        ≡ sky_rows (sights_at [] sights.now.sheets sights.now.used) (part v.old 0 (2 * length sights.now.used)) }
    ensures b { part v.new (2 * length sights.now.used) (2 * length sights.now.used)
        ≡ weighing k (part v.new (4 * length sights.now.used) (2 * length sights.now.used))
        (part v.new (4 * length sights.now.used) (2 * length sights.now.used)) }
{
    let used = sights.used;
    let rows = 2 * used.len();
    let r = 2 * rows;
    design::copy(v, 0, rows, rows);
    design::scale_ha_rows(
        sights.sheets,
        sights.pier.len(),
        used,
        &mut v[rows..rows + rows],
    );
    design::copy(v, rows, r, rows);
    design::weigh(v, rows, r, rows, k);
}

// The solution of the system at a set, whose residuals lie at 2·n: with the weights that belong to k, and with a damping. It leaves b at 4·n, the residuals
// on the sky at 6·n, and the solved columns at 8·n.
pub fn lm_step(run: &RunInput, set: &[f64], k: f64, lambda: f64, w: &mut [f64]) -> SolveOutcome
    requires { (length set.now ≡ run.now.m) × Fits run.now w.old × (residuals_in run.now w.old ≡ residuals_under (run_from run.now) set.now) }
    ensures solution { solved_in run.now w.new result ≡ lm_step (run_from run.now) k lambda set.now }
    ensures b { b_in run.now w.new ≡ weighed_residuals (run_from run.now) k set.now }
    ensures sky { sky_in run.now w.new ≡ sky_residuals (run_from run.now) set.now }
{
    let n = run.sights.used.len();
    let rows = 2 * n;
    let h = rows + 2 * set.len();
    let c = 8 * n;
    weighed_residuals(&run.sights, k, &mut w[rows..c]);
    run.sights
        .build_design_matrix(run.names, run.free, k, w, c, h);
    linalg::solve_damped(
        w,
        c,
        h,
        rows,
        run.free.len(),
        4 * n,
        lambda,
        run.sights.settings.fit_tol,
    )
}

// The numbers of a set, at the front of an array. The clause is silent on the rest, so it is no case of terms' `padded`.
fn padded(set: &[f64]) -> [f64; MAX_TERMS]
    requires { length set.now ≤ max_terms }
    ensures { take (length set.now) result ≡ set.now }
{
    let mut t = [0.0; MAX_TERMS];
    t[..set.len()].copy_from_slice(set);
    t
}

// Each free coefficient of a set moves by the number at its place in x.
fn move_free(free: &[u16], x: &[f64; MAX_TERMS], set: &mut [f64])
    requires { (length free.now ≤ max_terms) × Below (length set.old) free.now }
    ensures { set.new ≡ moved free.now x.now set.old }
{
    for (j, step) in free.iter().zip(x) {
        set[usize::from(*j)] += *step;
    }
}

// The set that a step x leads to, at the front of an array.
pub fn trial_state_from(free: &[u16], x: &[f64; MAX_TERMS], set: &[f64]) -> [f64; MAX_TERMS]
    requires { (length set.now ≤ max_terms) × (length free.now ≤ max_terms) × Below (length set.now) free.now }
    ensures { take (length set.now) result ≡ moved free.now x.now set.now }
{
    let mut trial = padded(set);
    move_free(free, x, &mut trial[..set.len()]);
    trial
}

fn rotational(kind: TermKind) -> bool
    ensures { result ≡ of_kind kind }
{
    matches!(
        kind,
        TermKind::Equatorial(
            EquatorialTerm::IH | EquatorialTerm::ID | EquatorialTerm::NP | EquatorialTerm::ME
        )
    )
}

// The larger of `most` and the step x of a term, in radians, if the term is rotational.
#[tactic(auto, unfolding(crate::specs::System::larger))]
fn larger(kind: TermKind, x: f64, most: f64) -> f64
    ensures { result ≡ larger_of (of_kind kind) x most }
{
    let step = float::abs(x) / RADIAN;
    if rotational(kind) && step > most {
        step
    } else {
        most
    }
}

// The largest step of a free rotational term, in radians.
fn largest(names: &[u8], free: &[u16], x: &[f64]) -> f64
    requires { Named names.now free.now × Read names.now free.now × (length x.now ≡ length free.now) }
    ensures { result ≡ largest_of (term_at names.now) free.now x.now }
{
    let mut most = 0.0;
    for (j, step) in free.iter().zip(x) {
        most = larger(design::term_at(names, usize::from(*j)).kind, *step, most);
    }
    most
}

// The length of a step, in radians: that of the largest rotational one, or of all where no rotational term moves. It asks less than a run.
#[tactic(auto, unfolding(crate::specs::System::step_norm))]
pub fn rotational_step_norm(names: &[u8], free: &[u16], x: &[f64]) -> f64
    requires { Named names.now free.now × Read names.now free.now × (length x.now ≡ length free.now) }
    ensures { result ≡ step_norm (term_at names.now) free.now x.now }
{
    let most = largest(names, free, x);
    if most == 0.0 {
        sqrt::sqrt(sequence::sum_squares(x)) / RADIAN
    } else {
        most
    }
}
