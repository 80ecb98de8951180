// The columns of terms over the stars that count, and the design matrix: the free terms' columns on the sky, weighed by the residuals that lie at 6·n.

ghost use Rattle.std.specs.Prelude.{◌≡◌, ℕ, ◌+◌, ◌*◌, ◌-◌, ◌<◌, ◌≤◌, ◌++◌, length, get_or, replicate};
ghost use mathlib.Core.List.{[]};
ghost use Rattle.float.specs.Float.{#0};
ghost use Rattle.sequence.specs.Sequence.{part, Only};
ghost use Rattle.observation.specs.Observation.{sign_of, side_of};
ghost use Rattle.observation.specs.declared.Pair.{Pair as PairOf};
ghost use Rattle.equatorial.specs.Equatorial.{equatorial_jacobian};
ghost use Rattle.harmonic.specs.Value.{evaluate, harmonic_jacobian};
ghost use Rattle.design.specs.Design.{Star, sheet_at, star_at, point_at, pairs, column, sky_column, weighing};
ghost use Rattle.design.specs.Counted.{Named, Apart};
ghost use Rattle.design.specs.Matrix.{FilledUpTo};
ghost use Rattle.design.specs.Sights.{sights_in, matrix_in};
ghost use Rattle.design.specs.Calls.{GivesPairs};

use crate::run::SightInput;
use crate::{scale_ha_rows, term_at, weigh};
use equatorial::EquatorialTerm;
use equatorial::EquatorialTerm::{
    CH, DAF, DCEC, DCES, FO, HCEC, HCES, ID, IH, MA, ME, NP, TF, TX, TXN,
};
use harmonic::Harmonic;
use limits::SHEET;
use observation::{Pair, PierSide};
use terms::{Term, TermKind};

impl<'a> SightInput<'a> {
    // The sheet of star i, and the sign of its pier's side.
    fn sight_at(&self, i: usize) -> (&[f64], f64)
        requires { i < length self.now.pier }
        ensures sheet { result.0.now ≡ sheet_at self.now.sheets i }
        ensures sign { result.1 ≡ sign_of (side_of (get_or self.now.pier i 0)) }
    {
        let sign = PierSide::from(self.pier[i]).sign();
        let a = SHEET * i;
        (&self.sheets[a..a + SHEET], sign)
    }

    // The Jacobian of an equatorial term at star i.
    fn equatorial_at(&self, t: EquatorialTerm, i: usize) -> Pair
        requires { i < length self.now.pier }
        ensures { result ≡ equatorial_jacobian t (point_at self.now.settings (star_at [] [] self.now.pier self.now.sheets i)) }
    {
        let (sheet, sign) = self.sight_at(i);
        let s = self.settings;
        terms::equatorial_jacobian(t, sheet, s.sin_lat, s.cos_lat, sign)
    }

    // That of a harmonic.
    fn harmonic_at(&self, h: Harmonic, i: usize) -> Pair
        requires { i < length self.now.pier }
        ensures { result ≡ harmonic_jacobian h.result (evaluate (sheet_at self.now.sheets i) h.components)
            (point_at self.now.settings (star_at [] [] self.now.pier self.now.sheets i)) }
    {
        let (sheet, sign) = self.sight_at(i);
        let s = self.settings;
        terms::harmonic_jacobian(h, sheet, s.sin_lat, s.cos_lat, sign)
    }

    // What a function gives of each star, by the star's number. A row is written by its place, as in the residuals.
    fn fill_pairs<F: Fn(usize) -> Pair>(&self, col: &mut [f64], at_star: F)
        requires callable { (i : ℕ) → i < length self.now.pier → F.pre at_star i }
        requires room { length col.old ≡ 2 * length self.now.used }
        ensures { (f : Star → PairOf) → GivesPairs (F.post at_star) self.now f → col.new ≡ pairs f (sights_in self.now) }
    {
        for (r, &u) in self.used.iter().enumerate() {
            let i = usize::from(u);
            let p = at_star(i);
            col[2 * r] = p.dh;
            col[2 * r + 1] = p.dd;
        }
    }

    // The column of an equatorial term. Its kind is looked at here, once: as each closure has a literal one, the compiler makes a loop of each.
    fn fill_equatorial(&self, t: EquatorialTerm, col: &mut [f64])
        requires { length col.old ≡ 2 * length self.now.used }
        ensures { col.new ≡ pairs (λ x. equatorial_jacobian t (point_at self.now.settings x)) (sights_in self.now) }
    {
        match t {
            IH => self.fill_pairs(col, |i| self.equatorial_at(IH, i)),
            ID => self.fill_pairs(col, |i| self.equatorial_at(ID, i)),
            CH => self.fill_pairs(col, |i| self.equatorial_at(CH, i)),
            NP => self.fill_pairs(col, |i| self.equatorial_at(NP, i)),
            MA => self.fill_pairs(col, |i| self.equatorial_at(MA, i)),
            ME => self.fill_pairs(col, |i| self.equatorial_at(ME, i)),
            TF => self.fill_pairs(col, |i| self.equatorial_at(TF, i)),
            TX => self.fill_pairs(col, |i| self.equatorial_at(TX, i)),
            TXN(n) => self.fill_pairs(col, |i| self.equatorial_at(TXN(n), i)),
            DAF => self.fill_pairs(col, |i| self.equatorial_at(DAF, i)),
            FO => self.fill_pairs(col, |i| self.equatorial_at(FO, i)),
            HCES => self.fill_pairs(col, |i| self.equatorial_at(HCES, i)),
            HCEC => self.fill_pairs(col, |i| self.equatorial_at(HCEC, i)),
            DCES => self.fill_pairs(col, |i| self.equatorial_at(DCES, i)),
            DCEC => self.fill_pairs(col, |i| self.equatorial_at(DCEC, i)),
        }
    }

    // That of any term.
    #[tactic(auto, unfolding(crate::specs::Design::column))]
    pub(crate) fn fill_column(&self, term: Term, col: &mut [f64])
        requires { length col.old ≡ 2 * length self.now.used }
        ensures { col.new ≡ column self.now.settings (sights_in self.now) term }
    {
        match term.kind {
            TermKind::Equatorial(t) => self.fill_equatorial(t, col),
            TermKind::Harmonic(h) => self.fill_pairs(col, |i| self.harmonic_at(h, i)),
        }
    }

    // The same with the hour-angle rows times cos dec.
    pub(crate) fn fill_sky_column(&self, term: Term, col: &mut [f64])
        requires { length col.old ≡ 2 * length self.now.used }
        ensures { col.new ≡ sky_column self.now.settings (sights_in self.now) term }
    {
        self.fill_column(term, col);
        scale_ha_rows(self.sheets, self.pier.len(), self.used, col);
    }

    // The same at x, with Huber weights.
    pub(crate) fn weighed_column(&self, term: Term, k: f64, w: &mut [f64], x: usize)
        requires { Apart x (2 * length self.now.used) (6 * length self.now.used)
            × (x + 2 * length self.now.used ≤ length w.old)
            × (8 * length self.now.used ≤ length w.old) }
        ensures filled { part w.new x (2 * length self.now.used)
            ≡ weighing k (part w.old (6 * length self.now.used) (2 * length self.now.used))
            (sky_column self.now.settings (sights_in self.now) term) }
        ensures only { Only x (2 * length self.now.used) w.old w.new }
    {
        let n = self.used.len();
        let rows = 2 * n;
        self.fill_sky_column(term, &mut w[x..x + rows]);
        weigh(w, x, 6 * n, rows, k);
    }

    // The same, and zeros below it: h numbers in all.
    fn design_column(&self, term: Term, k: f64, w: &mut [f64], x: usize, h: usize)
        requires { (2 * length self.now.used ≤ h) × (8 * length self.now.used ≤ x) × (x + h ≤ length w.old) }
        ensures filled { part w.new x h
            ≡ weighing k (part w.old (6 * length self.now.used) (2 * length self.now.used))
            (sky_column self.now.settings (sights_in self.now) term) ++ replicate (h - 2 * length self.now.used) #0 }
        ensures only { Only x h w.old w.new }
    {
        let rows = 2 * self.used.len();
        let below = h - rows;
        self.weighed_column(term, k, w, x);
        let z = x + rows;
        w[z..z + below].fill(0.0);
    }

    // The whole design, from c on in columns of h numbers: term by term, in the order of the free terms.
    // names and free come apart, as it asks less than a run, and h, as in jacobi.
    #[tactic(auto, using(crate::proofs::Matrix::column_room))]
    pub fn build_design_matrix(
        &self,
        names: &[u8],
        free: &[u16],
        k: f64,
        w: &mut [f64],
        c: usize,
        h: usize,
    )
        requires { Named names.now free.now × (2 * length self.now.used ≤ h) × (8 * length self.now.used ≤ c)
            × (c + length free.now * h ≤ length w.old) }
        ensures { FilledUpTo (matrix_in names.now free.now self.now k w.old) c h (length free.now) w.old w.new }
    {
        for (j, &u) in free.iter().enumerate() {
            let x = c + j * h;
            self.design_column(term_at(names, usize::from(u)), k, w, x, h);
        }
    }
}
