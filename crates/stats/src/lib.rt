// The statistics of a fit. After solver/stats.rs.
#![tactic(auto)]

ghost use Rattle.std.specs.Prelude.{◌≡◌, [], ◌+◌, ◌*◌, ◌≤◌, length};
ghost use Rattle.limits.specs.Limits.{max_terms, max_stars, sheet_numbers};
ghost use Rattle.design.specs.Design.{sights_at, scattered};
ghost use Rattle.design.specs.Counted.{Below};
ghost use Rattle.stats.specs.Stats.{degrees as degrees_of, sum_sq_sky, rms_of, sky_of_sum, divisor as divisor_of, variance as variance_of, sigma_at};
ghost use Rattle.stats.specs.Stats.{clamped as clamped_of, studentized_row, diagnostic as diagnostic_of};

use limits::MAX_TERMS;
use solver::{ObsDiagnostic, SigmaBy};

// What is left on the sky.
#[derive(Clone, Copy)]
pub struct Sky {
    pub rms: f64,
    pub popn_sd: f64,
}

// The residuals r, two a star, whose hour-angle rows are taken times cos dec here: their squares as one sum, in order. The sheets are those of n stars;
// it asks for no pier codes, as `SightInput` does.
pub fn sum_sq_sky(sheets: &[f64], n: usize, used: &[u16], r: &[f64]) -> f64
    requires { (length sheets.now ≡ sheet_numbers * n) × Below n used.now × (length r.now ≡ 2 * length used.now) }
    ensures { result ≡ sum_sq_sky (sights_at [] sheets.now used.now) r.now }
{
    let mut sum = 0.0;
    for (star, &i) in r.chunks_exact(2).zip(used) {
        let dx = star[0] * design::cos_dec(sheets, usize::from(i));
        let dd = star[1];
        sum += dx * dx + dd * dd;
    }
    sum
}

// The root of the mean of n squares, from their sum: 0 where there are none.
fn compute_sky_rms(sum: f64, n: usize) -> f64
    requires { n ≤ max_stars }
    ensures { result ≡ rms_of n sum }
{
    if n == 0 {
        return 0.0;
    }
    sqrt::sqrt(sum / n as f64)
}

// Of n stars, from that sum, where n_free terms are free.
pub fn sky_of_sum(sum: f64, n: usize, n_free: usize) -> Sky
    requires { n ≤ max_stars }
    ensures { result ≡ sky_of_sum n n_free sum }
{
    Sky {
        rms: compute_sky_rms(sum, n),
        popn_sd: compute_sky_rms(sum, n.saturating_sub(n_free)),
    }
}

// n less k, and at least 1.
pub fn degrees(n: usize, k: usize) -> usize
    ensures value { result ≡ degrees_of n k }
    ensures bound { result ≤ n + 1 }
{
    n.saturating_sub(k).max(1)
}

// What sigma's sum of squares is divided by, of n stars.
pub fn divisor(by: SigmaBy, n: usize, rank: usize) -> usize
    requires { n ≤ max_stars }
    ensures value { result ≡ divisor_of by n rank }
    ensures bound { result ≤ 2 * max_stars + 1 }
{
    match by {
        SigmaBy::Stars => degrees(n, rank),
        SigmaBy::Rows => degrees(2 * n, rank),
    }
}

// The residuals' squares over a divisor.
#[tactic(auto, unfolding(crate::specs::Stats::variance))]
pub fn variance(r: &[f64], dof: usize) -> f64
    requires { dof ≤ 2 * max_stars + 1 }
    ensures { result ≡ variance_of r.now dof }
{
    sequence::sum_squares(r) / dof as f64
}

// The sigmas of the free terms, each in its place.
pub fn compute_sigma(free: &[u16], s2: f64, cov_diag: &[f64; MAX_TERMS], sigma: &mut [f64])
    requires { (length free.now ≤ max_terms) × Below (length sigma.old) free.now }
    ensures { sigma.new ≡ scattered free.now (sigma_at s2 cov_diag.now) sigma.old }
{
    for (&j, &c) in free.iter().zip(cov_diag) {
        sigma[usize::from(j)] = sqrt::sqrt(float::abs(s2 * c));
    }
}

// A NaN stays: std has no clamp of a float.
#[tactic(auto, unfolding(crate::specs::Stats::clamped))]
fn clamped(x: f64) -> f64
    ensures { result ≡ clamped_of x }
{
    if x < 0.0 {
        0.0
    } else if x > 1.0 {
        1.0
    } else {
        x
    }
}

// A row of the data after a fit: its residual on the sky and its leverage.
#[derive(Clone, Copy)]
pub struct Row {
    pub residual: f64,
    pub leverage: f64,
}

// A row's residual in units of its uncertainty.
#[tactic(auto, unfolding(crate::specs::Stats::studentized_row))]
fn studentized_row(s: f64, r: f64, h: f64) -> f64
    ensures { result ≡ studentized_row s r h }
{
    if s > 0.0 && h < 1.0 {
        r / (s * sqrt::sqrt(1.0 - h))
    } else {
        0.0
    }
}

// Of a star with these two rows.
#[tactic(auto, unfolding(crate::specs::Stats::diagnostic))]
pub fn diagnostic(s: f64, ha: Row, dec: Row) -> ObsDiagnostic
    ensures { result ≡ diagnostic_of s ha.residual dec.residual ha.leverage dec.leverage }
{
    let h_ha = clamped(ha.leverage);
    let h_dec = clamped(dec.leverage);
    let t_ha = studentized_row(s, ha.residual, h_ha);
    let t_dec = studentized_row(s, dec.residual, h_dec);
    ObsDiagnostic {
        residual_sky: sqrt::sqrt(ha.residual * ha.residual + dec.residual * dec.residual),
        leverage: h_ha + h_dec,
        studentized: sqrt::sqrt((t_ha * t_ha + t_dec * t_dec) / 2.0),
    }
}
