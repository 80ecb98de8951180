// `solve_damped` and `solve_and_covariance` of linalg.rs: columns scaled, decomposed by one-sided
// Jacobi, small singular values left out. A matrix lies in a lent slice w, column after column, h
// numbers each: its rows, the m of V below them, and whatever else the column has room for. h, rows
// and m stay parameters, as in jacobi.
#![tactic(auto)]

ghost use Rattle.std.specs.Prelude.{◌≡◌, ◌+◌, ◌*◌, ◌≤◌, ◌<◌, length, take, Float};
ghost use Rattle.limits.specs.Limits.{max_terms};
ghost use Rattle.sequence.specs.Sequence.{part, Only};
ghost use Rattle.column.specs.Column.{extended};
ghost use Rattle.linalg.specs.Linalg.{Taken, Placed, entry as entry_of, threshold as threshold_of, inverses as inverses_of, rank_to, projected, x_scaled};
ghost use Rattle.linalg.specs.Linalg.{solution as solution_of, scaled_variance as scaled_variance_of, covariance as covariance_of, leverage_of, squares_of};
ghost use Rattle.linalg.specs.Linalg.{decomposed, in_order, answered, solved, solved_damped};

use column::{Scaled, Unit};
use jacobi::Sweeps;
use limits::MAX_TERMS;
use std::marker::Model;

// The Rust's record, with zeros past the m columns, how many sweeps the factorisation made and
// whether the last had no turn. In the leverage's place stand inv_s and the order of the columns, from
// which `leverage` gives it row by row. Arrays, of which the first m places count, since C reads it.
#[repr(C)]
#[derive(Clone, Copy)]
pub struct SolveOutcome {
    pub x: [f64; MAX_TERMS],
    pub cov_diag: [f64; MAX_TERMS],
    pub rank: usize,
    pub sigma_max: f64,
    pub sigma_min: f64,
    pub inv_s: [f64; MAX_TERMS],
    pub order: [usize; MAX_TERMS],
    pub sweeps: usize,
    pub settled: bool,
}

// The norms of A's columns, the singular values as the columns lie, and how the sweeps ended.
// Arrays of the limit here and below, since there is no heap; made and settled stand apart, as in `decomposed`.
#[derive(Clone, Copy)]
struct Factors {
    norms: [f64; MAX_TERMS],
    values: [f64; MAX_TERMS],
    made: usize,
    settled: bool,
}

// The inverses of the singular values above the threshold, in their order, and how many there are.
#[derive(Clone, Copy)]
struct Inverses {
    inv_s: [f64; MAX_TERMS],
    rank: usize,
}

// The columns of U with those of V below them, h numbers each, and the order in which they are taken.
#[derive(Drop)]
struct Columns<'a> {
    w: &'a [f64],
    h: usize,
    o: &'a [usize],
}

impl<'a> Model for Columns<'a> {
    ghost use Rattle.linalg.specs.Linalg.{TakenColumns, taken_columns, Placed};

    ghost Value = { TakenColumns };

    ghost view = { λ l. taken_columns l.w.now l.h l.o.now };

    ghost invariant = { λ l. Placed l.h l.w.now l.o.now };
}

// A in the first rows is scaled and becomes U, with V below it.
fn decompose(w: &mut [f64], h: usize, rows: usize, m: usize) -> Factors
    requires { (m ≤ max_terms) × (rows + m ≤ h) × (m * h ≤ length w.old) }
    ensures { record { norms = result.norms; w = w.new; values = result.values; made = result.made; settled = result.settled } ≡ decomposed h rows m
        w.old }
{
    let norms = column::norms(w, h, rows, m);
    column::change_columns::<Scaled>(w, h, rows, m, &norms);
    column::diagonals(w, h, rows, m, 1.0);
    let Sweeps { made, settled } = jacobi::factorise(w, h, rows, m);
    let values = column::norms(w, h, rows, m);
    column::change_columns::<Unit>(w, h, rows, m, &values);
    Factors {
        norms,
        values,
        made,
        settled,
    }
}

// A singular value counts where it is above this.
#[tactic(auto, unfolding(crate::specs::Linalg::threshold))]
fn threshold(fit_tol: f64, sigma_max: f64) -> f64
    ensures { result ≡ threshold_of fit_tol sigma_max }
{
    if fit_tol > 0.0 {
        return fit_tol * sigma_max;
    }
    0.0
}

// inv_s and the rank.
// By place here and in `project`: of what a zip lends to write, a proof knows the length alone.
fn invert(s: &[f64; MAX_TERMS], o: &[usize], t: f64) -> Inverses
    requires { Taken o.now }
    ensures { result ≡ record {
      inv_s = inverses_of t s.now o.now;
      rank = rank_to (length o.now) t s.now
          o.now;
    } }
{
    let mut inv_s = [0.0; MAX_TERMS];
    let mut rank = 0;
    for (i, j) in o.iter().enumerate() {
        let v = s[*j];
        if v > t {
            inv_s[i] = 1.0 / v;
            rank += 1;
        } else {
            inv_s[i] = 0.0;
        }
    }
    Inverses { inv_s, rank }
}

impl<'a> Columns<'a> {
    // z = inv_s * (U^T b); b has zeros down to the last row.
    fn project(&self, rows: usize, b: &[f64], inv_s: &[f64; MAX_TERMS]) -> [f64; MAX_TERMS]
        requires { (rows ≤ self.now.h) × (length b.now ≤ rows) }
        ensures { result ≡ projected self.now.h rows self.now.w (extended rows b.now) self.now.o inv_s.now }
    {
        let mut z = [0.0; MAX_TERMS];
        for (i, j) in self.o.iter().enumerate() {
            let x = *j * self.h;
            z[i] = inv_s[i] * column::dot(&self.w[x..x + rows], b);
        }
        z
    }

    // The number in row r of the column that is taken i-th.
    fn entry(&self, r: usize, i: usize) -> f64
        requires { (r < self.now.h) × (i < length self.now.o) }
        ensures { result ≡ entry_of self.now.h self.now.w self.now.o r i }
    {
        let o = self.o;
        self.w[o[i] * self.h + r]
    }

    // Row r of V, which begins below the rows of A, times z.
    fn x_scaled(&self, r: usize, z: &[f64; MAX_TERMS]) -> f64
        requires { r < self.now.h }
        ensures { result ≡ x_scaled self.now.h self.now.w self.now.o z.now r }
    {
        let mut t = 0.0;
        for (i, z) in z[..self.o.len()].iter().enumerate() {
            t += self.entry(r, i) * z;
        }
        t
    }

    // x = (V z) * col_scale. Not one function with `covariance`: they share the loop alone, and its one statement with all that it
    // asks would be a closure.
    fn solution(
        &self,
        rows: usize,
        z: &[f64; MAX_TERMS],
        norms: &[f64; MAX_TERMS],
    ) -> [f64; MAX_TERMS]
        requires { rows + length self.now.o ≤ self.now.h }
        ensures { result ≡ solution_of self.now.h rows self.now.w self.now.o z.now norms.now }
    {
        let mut solution = [0.0; MAX_TERMS];
        for (j, x) in solution[..self.o.len()].iter_mut().enumerate() {
            *x = self.x_scaled(rows + j, z) * column::scale(norms[j]);
        }
        solution
    }

    // The sum of the squares of what `part` gives for each number of row r and its inverse, where that isn't 0.
    fn squares<F: Fn(f64, f64) -> f64>(&self, r: usize, inv_s: &[f64; MAX_TERMS], part: F) -> f64
        ghost given: { Float → Float → Float }
        requires row { r < self.now.h }
        requires callable { F.IsAlwaysCallable part }
        requires gives { (v s x : Float) → F.post part v s x → x ≡ given v s }
        ensures { result ≡ squares_of given self.now.h self.now.w self.now.o inv_s.now r }
    {
        let mut t = 0.0;
        for (i, s) in inv_s[..self.o.len()].iter().enumerate() {
            if *s != 0.0 {
                let v = self.entry(r, i);
                let x = part(v, *s);
                t += x * x;
            }
        }
        t
    }

    // The sum of the squares of row r of V times inv_s, where that isn't 0.
    #[tactic(auto, unfolding(crate::specs::Linalg::squares_of, crate::specs::Linalg::scaled_variance))]
    fn scaled_variance(&self, r: usize, inv_s: &[f64; MAX_TERMS]) -> f64
        requires { r < self.now.h }
        ensures { result ≡ scaled_variance_of self.now.h self.now.w self.now.o inv_s.now r }
    {
        self.squares(r, inv_s, |v, s| v * s)
    }

    // The diagonal of the covariance, scaled back.
    fn covariance(
        &self,
        rows: usize,
        inv_s: &[f64; MAX_TERMS],
        norms: &[f64; MAX_TERMS],
    ) -> [f64; MAX_TERMS]
        requires { rows + length self.now.o ≤ self.now.h }
        ensures { result ≡ covariance_of self.now.h rows self.now.w self.now.o inv_s.now norms.now }
    {
        let mut diagonal = [0.0; MAX_TERMS];
        for (j, d) in diagonal[..self.o.len()].iter_mut().enumerate() {
            let s = column::scale(norms[j]);
            *d = self.scaled_variance(rows + j, inv_s) * s * s;
        }
        diagonal
    }

    // The leverage of row r: the sum of the squares of U's row where inv_s isn't 0.
    #[tactic(auto, unfolding(crate::specs::Linalg::squares_of, crate::specs::Linalg::leverage_of))]
    fn leverage(&self, r: usize, inv_s: &[f64; MAX_TERMS]) -> f64
        requires { r < self.now.h }
        ensures { result ≡ leverage_of self.now.h self.now.w self.now.o inv_s.now r }
    {
        self.squares(r, inv_s, |u, _| u)
    }
}

// The leverage of row r of columns of h numbers in w, which are taken in the order o.
pub fn leverage(w: &[f64], h: usize, o: &[usize], r: usize, inv_s: &[f64; MAX_TERMS]) -> f64
    requires { Placed h w.now o.now × (r < h) }
    ensures { result ≡ leverage_of h w.now o.now inv_s.now r }
{
    Columns { w, h, o }.leverage(r, inv_s)
}

// The columns in the order of their values, and zeros after them.
fn in_order(values: &[f64; MAX_TERMS], m: usize) -> [usize; MAX_TERMS]
    requires { m ≤ max_terms }
    ensures { result ≡ in_order m values.now }
{
    let mut o = [0usize; MAX_TERMS];
    order::order(values, &mut o[..m]);
    o
}

// The answer from a decomposition, whose values are taken in the order that begins `order`.
fn answer(
    w: &[f64],
    h: usize,
    rows: usize,
    m: usize,
    b: &[f64],
    fit_tol: f64,
    d: Factors,
    order: [usize; MAX_TERMS],
) -> SolveOutcome
    requires { Placed h w.now (take m order) × (0 < m) × (length (take m order) ≡ m) × (rows + m ≤ h) × (length b.now ≤ rows) }
    ensures { record { outcome = result; w = w.now }
        ≡ answered h rows m (extended rows b.now) fit_tol
        (record { norms = d.norms; w = w.now; values = d.values; made = d.made; settled = d.settled }) order }
{
    let o = &order[..m];
    let columns = Columns { w, h, o };
    let sigma_max = d.values[o[0]];
    let t = threshold(fit_tol, sigma_max);
    let Inverses { inv_s, rank } = invert(&d.values, o, t);
    let z = columns.project(rows, b, &inv_s);
    SolveOutcome {
        x: columns.solution(rows, &z, &d.norms),
        cov_diag: columns.covariance(rows, &inv_s, &d.norms),
        rank,
        sigma_max,
        sigma_min: d.values[o[m - 1]],
        inv_s,
        order,
        sweeps: d.made,
        settled: d.settled,
    }
}

// A has its columns in w from c on, and b its n numbers from `b` on, below them; n may be less than `rows`, and then b stands for b with
// zeros below. The columns end as those of U and V.
pub fn solve_and_covariance(
    w: &mut [f64],
    c: usize,
    h: usize,
    rows: usize,
    m: usize,
    b: usize,
    n: usize,
    fit_tol: f64,
) -> SolveOutcome
    requires { (0 < m) × (m ≤ max_terms) × (rows + m ≤ h) × (c + m * h ≤ length w.old) × (n ≤ rows) × (b + n ≤ c) }
    ensures solution { record { outcome = result; w = part w.new c (m * h) }
        ≡ solved h rows m (part w.old c (m * h)) (part w.old b n) fit_tol }
    ensures only { Only c (m * h) w.old w.new }
{
    let k = m * h;
    let d = decompose(&mut w[c..c + k], h, rows, m);
    let order = in_order(&d.values, m);
    let v = &w[..];
    answer(&v[c..c + k], h, rows, m, &v[b..b + n], fit_tol, d, order)
}

// The same with damping rows below the data rows, unless lambda <= 0.0; a NaN isn't.
pub fn solve_damped(
    w: &mut [f64],
    c: usize,
    h: usize,
    rows: usize,
    m: usize,
    b: usize,
    lambda: f64,
    fit_tol: f64,
) -> SolveOutcome
    requires { (0 < m) × (m ≤ max_terms) × (rows + m + m ≤ h) × (c + m * h ≤ length w.old) × (b + rows ≤ c) }
    ensures solution { record { outcome = result; w = part w.new c (m * h) }
        ≡ solved_damped h rows m (part w.old c (m * h)) (part w.old b rows) lambda fit_tol }
    ensures only { Only c (m * h) w.old w.new }
{
    if lambda <= 0.0 {
        return solve_and_covariance(w, c, h, rows, m, b, rows, fit_tol);
    }
    column::diagonals(&mut w[c..c + m * h], h, rows, m, sqrt::sqrt(lambda));
    solve_and_covariance(w, c, h, rows + m, m, b, rows, fit_tol)
}
