// The solver's own calls in C for the benchmark, which ask what their callees ask. They begin with `bench_`: `pointing_` is the interface's alone.
#![tactic(auto)]

ghost use Rattle.std.specs.Prelude.{◌≡◌, ◌+◌, ◌*◌, ◌≤◌, ◌<◌, length};
ghost use Rattle.limits.specs.Limits.{max_terms};
ghost use Rattle.sequence.specs.Sequence.{part, Only};
ghost use Rattle.jacobi.specs.Jacobi.{factorised};
ghost use Rattle.linalg.specs.Linalg.{Placed, leverage_of, solved_damped};

use limits::MAX_TERMS;

#[unsafe(no_mangle)]
pub extern "C" fn bench_factorise(w: &mut [f64], h: usize, rows: usize, m: usize) -> jacobi::Sweeps
    requires { (rows + m ≤ h) × (m * h ≤ length w.old) }
    ensures { record { w = w.new; made = result.made; settled = result.settled } ≡ factorised h rows m w.old }
{
    jacobi::factorise(w, h, rows, m)
}

#[unsafe(no_mangle)]
pub extern "C" fn bench_solve_damped(
    w: &mut [f64],
    c: usize,
    h: usize,
    rows: usize,
    m: usize,
    b: usize,
    lambda: f64,
    fit_tol: f64,
) -> linalg::SolveOutcome
    requires { (0 < m) × (m ≤ max_terms) × (rows + m + m ≤ h) × (c + m * h ≤ length w.old) × (b + rows ≤ c) }
    ensures solution { record { outcome = result; w = part w.new c (m * h) }
        ≡ solved_damped h rows m (part w.old c (m * h)) (part w.old b rows) lambda fit_tol }
    ensures only { Only c (m * h) w.old w.new }
{
    linalg::solve_damped(w, c, h, rows, m, b, lambda, fit_tol)
}

// The leverage of row r, from the columns that a solve left and its order and inverses.
#[unsafe(no_mangle)]
pub extern "C" fn bench_leverage(
    w: &[f64],
    h: usize,
    order: &[usize],
    r: usize,
    inv_s: &[f64; MAX_TERMS],
) -> f64
    requires { Placed h w.now order.now × (r < h) }
    ensures { result ≡ leverage_of h w.now order.now inv_s.now r }
{
    linalg::leverage(w, h, order, r, inv_s)
}
