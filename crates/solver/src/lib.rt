// The records of a fit. After solver/mod.rs.
#![tactic(auto)]

ghost use Rattle.std.specs.Prelude.{◌≡◌};
ghost use Rattle.solver.specs.Records.{deficient, condition_number, defaults};

pub mod input;

// What a fit is given as numbers: sine and cosine of the latitude, and the tolerance of the solver.
#[derive(Clone, Copy, Debug, PartialEq)]
pub struct Settings {
    pub sin_lat: f64,
    pub cos_lat: f64,
    pub fit_tol: f64,
}

// What sigma's sum of squares is counted over: the stars, as in the Rust, or the rows, two a star.
#[derive(Clone, Copy, Debug, PartialEq, Eq)]
pub enum SigmaBy {
    Stars,
    Rows,
}

// How many numbers the buffers of a fit have room for: their lengths alone, so that no question can touch one.
#[derive(Clone, Copy, Debug, PartialEq, Eq)]
pub struct Sizes {
    pub coefficients: usize,
    pub change: usize,
    pub sigma: usize,
    pub diagnostics: usize,
    pub scratch: usize,
}

// What the solver found of the free terms' columns.
#[derive(Clone, Copy, Debug, PartialEq)]
pub struct RankInfo {
    pub n_free: usize,
    pub rank: usize,
    pub sigma_max: f64,
    pub sigma_min: f64,
    pub tol: f64,
}

impl RankInfo {
    pub fn is_deficient(self) -> bool
        ensures { result ≡ deficient self }
    {
        self.rank < self.n_free
    }

    pub fn condition_number(self) -> f64
        ensures { result ≡ condition_number self }
    {
        if self.sigma_min > 0.0 {
            self.sigma_max / self.sigma_min
        } else {
            f64::INFINITY
        }
    }
}

#[derive(Clone, Copy, Debug, PartialEq)]
pub struct IterReport {
    pub iterations: usize,
    pub converged: bool,
    pub final_lambda: f64,
    pub final_step_norm: f64,
}

#[repr(C)]
#[derive(Clone, Copy, Debug, PartialEq)]
pub struct IterOptions {
    pub max_iter: usize,
    pub tol_rad: f64,
    pub initial_lambda: f64,
    pub lambda_up: f64,
    pub lambda_down: f64,
    pub robust: bool,
    pub huber_k: f64,
}

impl Default for IterOptions {
    ghost is_default = { λ o. o ≡ defaults };

    fn default() -> IterOptions
        ensures { result ≡ defaults }
    {
        IterOptions {
            max_iter: 50,
            tol_rad: 1.0e-6,
            initial_lambda: 1.0e-3,
            lambda_up: 10.0,
            lambda_down: 10.0,
            robust: false,
            huber_k: 1.345,
        }
    }
}

// Of one star: the size of its residual on the sky, its leverage, and the residual in units of its own uncertainty.
#[derive(Clone, Copy, Debug, PartialEq)]
pub struct ObsDiagnostic {
    pub residual_sky: f64,
    pub leverage: f64,
    pub studentized: f64,
}

// What a fit answers beside the coefficients, their change and sigma, and the diagnostics, which lie in lent buffers. Beside the Rust's record: how many
// sweeps the last undamped solve made, the one without a turn included, and whether the last of them had none.
#[derive(Clone, Copy, Debug, PartialEq)]
pub struct FitResult {
    pub sky_rms: f64,
    pub popn_sd: f64,
    pub rank_info: RankInfo,
    pub iter_report: IterReport,
    pub sweeps: usize,
    pub settled: bool,
}
