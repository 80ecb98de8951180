// Passes over lent slices that several files share. The lists that loops read and write are defined in
// specs/Sequence.antt, with their laws in proofs/.
#![tactic(auto)]

ghost use Rattle.std.specs.Prelude.{◌≡◌, length, replicate};
ghost use Rattle.float.specs.Float.{is_finite};
ghost use Rattle.sequence.specs.Sequence.{every, dot};

// Whether every number of s is finite. It goes on to the end, so that the compiler can test two at once.
pub fn all_finite(s: &[f64]) -> bool
    ensures { result ≡ every is_finite s.now }
{
    s.iter().fold(true, |all, x| all & float::is_finite(*x))
}

// Every number of s becomes x. The library's fill, with the one clause that callers cite.
pub fn fill(s: &mut [f64], x: f64)
    ensures { s.new ≡ replicate (length s.old) x }
{
    s.fill(x);
}

// The sum of the squares of r.
pub fn sum_squares(r: &[f64]) -> f64
    ensures { result ≡ dot r.now r.now }
{
    r.iter().fold(0.0, |t, x| t + x * x)
}
