// Products of columns with coefficients, term by term. A vector v begins with a column's room, and what is worked on lies behind it.
// Names and coefficients, or free, come apart: a struct of them with their fact would be made for each call alone.

ghost use Rattle.std.specs.Prelude.{◌≡◌, ◌+◌, ◌*◌, ◌≤◌, cond, length, replicate};
ghost use Rattle.std.specs.Prelude.{Bool};
ghost use Rattle.std.specs.Float.Ieee.{Float};
ghost use Rattle.float.specs.Float.{#0};
ghost use Rattle.limits.specs.Limits.{max_terms, slot_bytes};
ghost use Rattle.sequence.specs.Sequence.{at, part, each, Only};
ghost use Rattle.design.specs.Design.{term_at, column, sky_column, plus};
ghost use Rattle.design.specs.Design.{subtract_all, product as product_of, predicted, extracted, weighed_at};
ghost use Rattle.design.specs.Counted.{Named};
ghost use Rattle.design.specs.Sights.{sights_in};
ghost use Rattle.design.specs.Calls.{Tests};

use crate::run::SightInput;
use crate::{combine, term_at};
use limits::MAX_TERMS;

impl<'a> SightInput<'a> {
    // From b, the contributions of all terms whose coefficient is not 0 are taken: b -= c * a, where a is the sky column of a term.
    pub fn subtract_all_contributions(&self, names: &[u8], coefficients: &[f64], v: &mut [f64])
        requires { (length coefficients.now ≤ max_terms) × (length names.now ≡ slot_bytes * length coefficients.now)
            × (length v.old ≡ 4 * length self.now.used) }
        ensures { part v.new (2 * length self.now.used) (2 * length self.now.used)
            ≡ subtract_all (length coefficients.now) (at coefficients.now)
            (λ j. sky_column self.now.settings (sights_in self.now) (term_at names.now j))
            (part v.old (2 * length self.now.used) (2 * length self.now.used)) }
    {
        let rows = 2 * self.used.len();
        for (j, &c) in coefficients.iter().enumerate() {
            if c != 0.0 {
                self.fill_sky_column(term_at(names, j), &mut v[..rows]);
                combine(v, rows, 0, rows, |b, a| b - a * c);
            }
        }
    }

    // The product of the columns with coefficients, without the terms whose coefficient is to be skipped. It stays apart from the loop
    // above: the two differ in the column, the sign and the start, more parameters than the loop has lines.
    fn add_columns<F: Fn(f64) -> bool>(
        &self,
        names: &[u8],
        coefficients: &[f64],
        skips: F,
        v: &mut [f64],
    )
        requires callable { F.IsAlwaysCallable skips }
        requires room { (length coefficients.now ≤ max_terms) × (length names.now ≡ slot_bytes * length coefficients.now)
            × (length v.old ≡ 4 * length self.now.used) }
        ensures { (skip : Float → Bool) → Tests (F.post skips) skip → part v.new (2 * length self.now.used) (2 * length self.now.used)
            ≡ each (length coefficients.now) 0
            (λ j p. cond (skip (at coefficients.now j)) p
            (plus (at coefficients.now j) p (column self.now.settings (sights_in self.now) (term_at names.now j))))
            (replicate (2 * length self.now.used) #0) }
    {
        let rows = 2 * self.used.len();
        v[rows..].fill(0.0);
        for (j, &c) in coefficients.iter().enumerate() {
            if !skips(c) {
                self.fill_column(term_at(names, j), &mut v[..rows]);
                combine(v, rows, 0, rows, |b, a| b + a * c);
            }
        }
    }

    // The product of all columns with coefficients.
    pub fn product(&self, names: &[u8], coefficients: &[f64], v: &mut [f64])
        requires { (length coefficients.now ≤ max_terms) × (length names.now ≡ slot_bytes * length coefficients.now)
            × (length v.old ≡ 4 * length self.now.used) }
        ensures { part v.new (2 * length self.now.used) (2 * length self.now.used)
            ≡ product_of (2 * length self.now.used) (length coefficients.now) (at coefficients.now)
            (λ j. column self.now.settings (sights_in self.now) (term_at names.now j)) }
    {
        self.add_columns(names, coefficients, |_| false, v);
    }

    // The same, where a coefficient that is 0 is skipped.
    pub fn predict(&self, names: &[u8], set: &[f64], v: &mut [f64])
        requires { (length set.now ≤ max_terms) × (length names.now ≡ slot_bytes * length set.now)
            × (length v.old ≡ 4 * length self.now.used) }
        ensures { part v.new (2 * length self.now.used) (2 * length self.now.used)
            ≡ predicted (2 * length self.now.used) (length set.now) (at set.now)
            (λ j. column self.now.settings (sights_in self.now) (term_at names.now j)) }
    {
        self.add_columns(names, set, |c| c == 0.0, v);
    }

    // At 2·n, the product of the free columns with x, by number, as `product` takes the columns.
    pub fn free_product(
        &self,
        names: &[u8],
        free: &[u16],
        k: f64,
        x: &[f64; MAX_TERMS],
        v: &mut [f64],
    )
        requires { (length free.now ≤ max_terms) × Named names.now free.now × (length v.old ≡ 8 * length self.now.used) }
        ensures filled { part v.new (2 * length self.now.used) (2 * length self.now.used)
            ≡ product_of (2 * length self.now.used) (length free.now) (at x.now) (extracted free.now
            (weighed_at k (part v.old (6 * length self.now.used) (2 * length self.now.used)) self.now.settings (sights_in self.now)
            names.now)) }
        ensures only { Only 0 (4 * length self.now.used) v.old v.new }
    {
        let rows = 2 * self.used.len();
        v[rows..rows + rows].fill(0.0);
        for (i, &u) in free.iter().enumerate() {
            let c = x[i];
            self.weighed_column(term_at(names, usize::from(u)), k, v, 0);
            combine(v, rows, 0, rows, |b, a| b + a * c);
        }
    }
}
