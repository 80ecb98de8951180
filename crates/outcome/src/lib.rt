// What both fits do after their last solve: the free terms' residuals, sigma, the diagnostics and the answer. specs/Scratch.antt says how a run
// lies in scratch. After solver/stats.rs and the ends of solver/single_step.rs and solver/iterated.rs.
#![tactic(auto)]

ghost use Rattle.std.specs.Prelude.{◌≡◌, ◌+◌, ◌*◌, ◌≤◌, length, take, drop, replicate};
ghost use mathlib.Core.List.{◌++◌, zip_with};
ghost use Rattle.std.specs.Float.{binary64};
ghost use Rattle.std.specs.Float.Ieee.{sub};
ghost use Rattle.limits.specs.Limits.{max_terms, max_stars};
ghost use Rattle.float.specs.Float.{#0};
ghost use Rattle.sequence.specs.Sequence.{at, part};
ghost use Rattle.linalg.specs.Linalg.{Placed, leverage_of};
ghost use Rattle.design.specs.Design.{product, extracted, weighed_at, scattered};
ghost use Rattle.design.specs.Counted.{Below, Named};
ghost use Rattle.design.specs.Sights.{sights_in};
ghost use Rattle.stats.specs.Stats.{degrees, divisor, variance, sigma_at};
ghost use Rattle.outcome.specs.Outcome.{diagnostic_from, diagnostic_numbers, answer_of};

use design::run::SightInput;
use limits::MAX_TERMS;
use linalg::SolveOutcome;
use solver::{FitResult, IterReport, RankInfo, Settings, SigmaBy};
use stats::{Row, Sky};

// At 2·n, what lies at 4·n less the product of the free sky columns, weighed, with x: the free terms' residuals.
// names and free come beside the sights, as it asks less than a run.
pub fn free_residuals(
    sights: &SightInput,
    names: &[u8],
    free: &[u16],
    k: f64,
    x: &[f64; MAX_TERMS],
    v: &mut [f64],
)
    requires { (length free.now ≤ max_terms) × Named names.now free.now × (length v.old ≡ 8 * length sights.now.used) }
    ensures { part v.new (2 * length sights.now.used) (2 * length sights.now.used)
        ≡ zip_with (sub binary64) (part v.old (4 * length sights.now.used) (2 * length sights.now.used))
        (product (2 * length sights.now.used) (length free.now) (at x.now)
        (extracted free.now (weighed_at k (part v.old (6 * length sights.now.used) (2 * length sights.now.used)) sights.now.settings
        (sights_in sights.now) names.now))) }
{
    sights.free_product(names, free, k, x, v);
    let n = sights.used.len();
    let rows = 2 * n;
    design::subtract_from(v, rows, 4 * n, rows);
}

// Three numbers for each of n stars, from the residuals at 2·n and the k solved columns at 8·n, where dof divides the residuals' squares.
fn compute_diagnostics(
    solved: &SolveOutcome,
    k: usize,
    n: usize,
    m: usize,
    dof: usize,
    w: &[f64],
    out: &mut [f64],
)
    requires sizes { (n ≤ max_stars) × (m ≤ max_terms) × (k ≤ m) × (8 * n + k * (2 * n + 2 * m) ≤ length w.now)
        × (dof ≤ 2 * max_stars + 1) × (3 * n ≤ length out.old) }
    requires columns { Placed (2 * n + 2 * m) (part w.now (8 * n) (k * (2 * n + 2 * m))) (take k solved.now.order)
        × (length (take k solved.now.order) ≡ k) }
    ensures { out.new
        ≡ diagnostic_numbers n (diagnostic_from dof (part w.now (2 * n) (2 * n))
        (leverage_of (2 * n + 2 * m) (part w.now (8 * n) (k * (2 * n + 2 * m))) (take k solved.now.order) solved.now.inv_s))
        ++ drop (3 * n) out.old }
{
    let rows = 2 * n;
    let h = rows + 2 * m;
    let r = &w[rows..rows + rows];
    let u = &w[8 * n..8 * n + k * h];
    let order = &solved.order[..k];
    let s = sqrt::sqrt(stats::variance(r, dof));
    // out is written by its places: of what its chunks lend, a proof knows the length alone.
    for (i, star) in r.chunks_exact(2).enumerate() {
        let ha = Row {
            residual: star[0],
            leverage: linalg::leverage(u, h, order, 2 * i, &solved.inv_s),
        };
        let dec = Row {
            residual: star[1],
            leverage: linalg::leverage(u, h, order, 2 * i + 1, &solved.inv_s),
        };
        let d = stats::diagnostic(s, ha, dec);
        let numbers = [d.residual_sky, d.leverage, d.studentized];
        out[3 * i..3 * i + 3].copy_from_slice(&numbers);
    }
}

// The end of a fit of n stars and m terms, from the free terms' residuals at 2·n and the solved columns at 8·n: sigma, the diagnostics, the answer,
// and zeros in w. It takes free, n and m, as it asks less than a run, and the buffers one by one: a struct that lends them would owe in each
// contract that its references stay the same.
pub fn finish(
    free: &[u16],
    n: usize,
    m: usize,
    s: Settings,
    sigma_by: SigmaBy,
    solved: SolveOutcome,
    sky: Sky,
    report: IterReport,
    sigma: &mut [f64],
    diagnostics: &mut [f64],
    w: &mut [f64],
) -> FitResult
    requires { (n ≤ max_stars) × (m ≤ max_terms) × (length free.now ≤ m) × Below m free.now × (8 * n + length free.now * (2 * n + 2 * m) ≤ length w.old)
        × Placed (2 * n + 2 * m) (part w.old (8 * n) (length free.now * (2 * n + 2 * m))) (take (length free.now) solved.order)
        × (length (take (length free.now) solved.order) ≡ length free.now) × (m ≤ length sigma.old) × (3 * n ≤ length diagnostics.old) }
    ensures answer { result ≡ answer_of (length free.now) s solved sky report }
    ensures sigmas { sigma.new
        ≡ scattered free.now (sigma_at (variance (part w.old (2 * n) (2 * n)) (divisor sigma_by n solved.rank)) solved.cov_diag)
        (replicate m #0)
        ++ drop m sigma.old }
    ensures stars { diagnostics.new
        ≡ diagnostic_numbers n (diagnostic_from (degrees (2 * n) solved.rank) (part w.old (2 * n) (2 * n))
        (leverage_of (2 * n + 2 * m) (part w.old (8 * n) (length free.now * (2 * n + 2 * m)))
        (take (length free.now) solved.order) solved.inv_s))
        ++ drop (3 * n) diagnostics.old }
    ensures cleared { w.new ≡ replicate (length w.old) #0 }
{
    let rows = 2 * n;
    let dof = stats::divisor(sigma_by, n, solved.rank);
    let s2 = stats::variance(&w[rows..rows + rows], dof);
    sigma[..m].fill(0.0);
    stats::compute_sigma(free, s2, &solved.cov_diag, &mut sigma[..m]);
    let row_dof = stats::degrees(rows, solved.rank);
    compute_diagnostics(&solved, free.len(), n, m, row_dof, w, diagnostics);
    w.fill(0.0);
    FitResult {
        sky_rms: sky.rms,
        popn_sd: sky.popn_sd,
        rank_info: RankInfo {
            n_free: free.len(),
            rank: solved.rank,
            sigma_max: solved.sigma_max,
            sigma_min: solved.sigma_min,
            tol: s.fit_tol,
        },
        iter_report: report,
        sweeps: solved.sweeps,
        settled: solved.settled,
    }
}
