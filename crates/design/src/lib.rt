// The design's columns and the residuals, from the lent slices: star by star over `used`, the indices of the stars that count, and term by
// term. A vector has two numbers a star. After solver/design.rs.
#![tactic(auto)]

ghost use Rattle.std.specs.Prelude.{◌≡◌, ◌+◌, ◌*◌, ◌≤◌, length};
ghost use mathlib.Core.List.{[], zip_with};
ghost use Rattle.std.proofs.lemmas.List.Edits.{sets};
ghost use Rattle.std.specs.Float.{binary64};
ghost use Rattle.std.specs.Float.Ieee.{Float, sub};
ghost use Rattle.limits.specs.Limits.{slot_bytes, sheet_numbers};
ghost use Rattle.sequence.specs.Sequence.{part, Beside};
ghost use Rattle.design.specs.Design.{sheet_at, stars_at, sights_at, term_at, cos_dec};
ghost use Rattle.design.specs.Design.{differences, sky_differences, sky_rows, weighed as weighed_of, weighing};
ghost use Rattle.design.specs.Counted.{Below};
ghost use Rattle.design.specs.Calls.{CombinesBy};

mod columns;
mod products;
pub mod run;

use limits::{SHEET, SLOT};
use terms::Term;

// cos dec of star i.
pub fn cos_dec(sheets: &[f64], i: usize) -> f64
    requires { sheet_numbers * i + sheet_numbers ≤ length sheets.now }
    ensures { result ≡ cos_dec (sheet_at sheets.now i) }
{
    let a = SHEET * i;
    observation::number_at(&sheets[a..a + SHEET], 19)
}

// The term of slot j.
pub fn term_at(names: &[u8], j: usize) -> Term
    requires { slot_bytes * j + slot_bytes ≤ length names.now }
    ensures { result ≡ term_at names.now j }
{
    let a = SLOT * j;
    terms::read_term(&names[a..a + SLOT]).unwrap_or(Term::blank())
}

// ---- residuals. A row is written by its place: of what an iterator lends to write, a proof knows the length alone afterwards.
// These take the slices that they read, as they ask less than `SightInput`.

// The raw differences, with the hour-angle rows times cos dec.
pub fn build_sky_residuals(dh: &[f64], dd: &[f64], sheets: &[f64], used: &[u16], b: &mut [f64])
    requires { (length dd.now ≡ length dh.now) × (length sheets.now ≡ sheet_numbers * length dh.now) × Below (length dh.now) used.now
        × (length b.old ≡ 2 * length used.now) }
    ensures { b.new ≡ sky_differences (stars_at dh.now dd.now [] sheets.now used.now) }
{
    for (r, &u) in used.iter().enumerate() {
        let i = usize::from(u);
        b[2 * r] = dh[i] * cos_dec(sheets, i);
        b[2 * r + 1] = dd[i];
    }
}

// The raw differences less what b holds.
pub fn subtract_from_differences(dh: &[f64], dd: &[f64], used: &[u16], b: &mut [f64])
    requires { (length dd.now ≡ length dh.now) × Below (length dh.now) used.now × (length b.old ≡ 2 * length used.now) }
    ensures { b.new ≡ zip_with (sub binary64) (differences (stars_at dh.now dd.now [] [] used.now))
        b.old }
{
    for (r, &u) in used.iter().enumerate() {
        let i = usize::from(u);
        b[2 * r] = dh[i] - b[2 * r];
        b[2 * r + 1] = dd[i] - b[2 * r + 1];
    }
}

// The hour-angle rows of b times cos dec, where the sheets are those of n stars.
pub fn scale_ha_rows(sheets: &[f64], n: usize, used: &[u16], b: &mut [f64])
    requires { (length sheets.now ≡ sheet_numbers * n) × Below n used.now × (length b.old ≡ 2 * length used.now) }
    ensures { b.new ≡ sky_rows (sights_at [] sheets.now used.now) b.old }
{
    for (r, &u) in used.iter().enumerate() {
        b[2 * r] = b[2 * r] * cos_dec(sheets, usize::from(u));
    }
}

// ---- numbers of one slice, by their places

// Each of the n numbers from x on becomes f of itself and of its partner among those from y on. It counts, since both runs lie in one slice and may overlap.
fn combine<F: Fn(f64, f64) -> f64>(w: &mut [f64], x: usize, y: usize, n: usize, f: F)
    requires callable { F.IsAlwaysCallable f }
    requires room { Beside x y n × (x + n ≤ length w.old) × (y + n ≤ length w.old) }
    ensures { (op : Float → Float → Float) → CombinesBy (F.post f) op
        → w.new ≡ sets w.old x (zip_with op (part w.old x n) (part w.old y n)) }
{
    for k in 0..n {
        w[x + k] = f(w[x + k], w[y + k]);
    }
}

// The n numbers from y on become those from x on. By `combine`, since the library's copies call memmove here, which the archives for C do without.
pub fn copy(w: &mut [f64], x: usize, y: usize, n: usize)
    requires { (x + n ≤ y) × (y + n ≤ length w.old) }
    ensures { w.new ≡ sets w.old y (part w.old x n) }
{
    combine(w, y, x, n, |_a, b| b);
}

// A number of a row whose residual is r, with the row's Huber weight.
#[tactic(auto, unfolding(crate::specs::Design::weighed))]
fn weighed(k: f64, r: f64, x: f64) -> f64
    ensures { result ≡ weighed_of k r x }
{
    let size = float::abs(r);
    if size > k {
        return x * sqrt::sqrt(k / size);
    }
    x
}

// The n numbers from x on, whose rows have the residuals from y on, with their Huber weights.
pub fn weigh(w: &mut [f64], x: usize, y: usize, n: usize, k: f64)
    requires { Beside x y n × (x + n ≤ length w.old) × (y + n ≤ length w.old) }
    ensures { w.new ≡ sets w.old x (weighing k (part w.old y n) (part w.old x n)) }
{
    if k > 0.0 {
        combine(w, x, y, n, |a, r| weighed(k, r, a));
    }
}

// x = y - x.
pub fn subtract_from(w: &mut [f64], x: usize, y: usize, n: usize)
    requires { (x + n ≤ y) × (y + n ≤ length w.old) }
    ensures { w.new ≡ sets w.old x (zip_with (sub binary64) (part w.old y n) (part w.old x n)) }
{
    combine(w, x, y, n, |a, b| b - a);
}
