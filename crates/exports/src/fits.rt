// The answer of a fit as a C struct, and what sigma is by as a code.

ghost use Rattle.std.specs.Prelude.{◌≡◌};
ghost use Rattle.exports.specs.Fits.{given_answer, refused_answer, fit_answer, chosen as chosen_of, unknown_no};

use refusal::Refusal;
use solver::input::FitInput;
use solver::{FitResult, IterOptions, SigmaBy, Sizes};

// 0 and the fields of a fit's result, or the number of the question that refused the fit and zeros.
#[repr(C)]
#[derive(Clone, Copy)]
pub struct FitAnswer {
    pub refusal: u8,
    pub sky_rms: f64,
    pub popn_sd: f64,
    pub n_free: usize,
    pub rank: usize,
    pub sigma_max: f64,
    pub sigma_min: f64,
    pub tol: f64,
    pub iterations: usize,
    pub converged: bool,
    pub final_lambda: f64,
    pub final_step_norm: f64,
    pub sweeps: usize,
    pub settled: bool,
}

fn given(r: FitResult) -> FitAnswer
    ensures { result ≡ given_answer r }
{
    let rank_info = r.rank_info;
    let iter_report = r.iter_report;
    FitAnswer {
        refusal: 0,
        sky_rms: r.sky_rms,
        popn_sd: r.popn_sd,
        n_free: rank_info.n_free,
        rank: rank_info.rank,
        sigma_max: rank_info.sigma_max,
        sigma_min: rank_info.sigma_min,
        tol: rank_info.tol,
        iterations: iter_report.iterations,
        converged: iter_report.converged,
        final_lambda: iter_report.final_lambda,
        final_step_norm: iter_report.final_step_norm,
        sweeps: r.sweeps,
        settled: r.settled,
    }
}

fn refused(refusal: u8) -> FitAnswer
    ensures { result ≡ refused_answer refusal }
{
    FitAnswer {
        refusal,
        sky_rms: 0.0,
        popn_sd: 0.0,
        n_free: 0,
        rank: 0,
        sigma_max: 0.0,
        sigma_min: 0.0,
        tol: 0.0,
        iterations: 0,
        converged: false,
        final_lambda: 0.0,
        final_step_norm: 0.0,
        sweeps: 0,
        settled: false,
    }
}

impl From<Result<FitResult, Refusal>> for FitAnswer {
    ghost from_gives = { λ r a. a ≡ fit_answer r };

    fn from(fit: Result<FitResult, Refusal>) -> FitAnswer
        ensures { result ≡ fit_answer fit }
    {
        match fit {
            Ok(r) => given(r),
            Err(why) => refused(why.number()),
        }
    }
}

// What sigma is by, of a known code.
// No TryFrom: SigmaBy is solver's, and C's codes are this crate's.
pub fn chosen(code: u8) -> Option<SigmaBy>
    ensures { result ≡ chosen_of code }
{
    match code {
        0 => Some(SigmaBy::Stars),
        1 => Some(SigmaBy::Rows),
        _ => None,
    }
}

// Why a call is refused whose code of what sigma is by is unknown: a no to question 5, after questions 1 to 4.
pub fn unknown_code(input: &FitInput, options: IterOptions, room: Sizes) -> Refusal
    ensures { result ≡ unknown_no input.now options room }
{
    match validate::ask_numbers(input, options, room) {
        Err(why) => why,
        Ok(()) => Refusal::Code,
    }
}
