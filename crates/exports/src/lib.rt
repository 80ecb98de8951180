// The C interface of the library: a slice is a pointer and a count, a struct is the C struct of its fields. No call asks anything of
// its caller.
#![tactic(auto)]

ghost use Rattle.std.specs.Prelude.{◌≡◌, length};
ghost use Rattle.std.specs.Float.{binary64};
ghost use Rattle.sqrt.specs.Sqrt as Root;
ghost use Rattle.terms.specs.Names.{read_term};
ghost use Rattle.terms.specs.Jacobian.{jacobian_of};
ghost use Rattle.model.specs.Correction.{correction_at, breakdown_at};
ghost use Rattle.solver.specs.Call.{settings_of, inputs, buffers};
ghost use Rattle.exports.specs.Scratch.{scratch_length};
ghost use Rattle.exports.specs.Term.{term_answer};
ghost use Rattle.exports.specs.Point.{pair_answer, breakdown_answer};
ghost use Rattle.exports.specs.Fits.{exported, exported_of, single_step_by, iterated_by, BestWhereGiven};

mod fits;
mod point;
mod term;

use crate::fits::{FitAnswer, chosen, unknown_code};
use crate::point::{BreakdownAnswer, PairAnswer};
use crate::term::{TermAnswer, term_answer};
use limits::{MAX_STARS, MAX_TERMS};
use model::point::{breakdown_at, correction_at};
use refusal::Refusal;
use solver::input::FitInput;
use solver::{IterOptions, Settings, Sizes};

// The square root, correctly rounded.
#[unsafe(no_mangle)]
pub extern "C" fn pointing_sqrt(x: f64) -> f64
    ensures { result ≡ Root.sqrt binary64 x }
{
    sqrt::sqrt(x)
}

// 0 and how many numbers of scratch a fit needs, or 1 and 0.
#[repr(C)]
#[derive(Clone, Copy)]
pub struct ScratchLength {
    pub refusal: u8,
    pub length: usize,
}

// The scratch that a fit of m terms and n stars needs.
#[tactic(auto, unfolding(crate::specs::Scratch::scratch_length, validate::specs::Questions::in_limits))]
#[unsafe(no_mangle)]
pub extern "C" fn pointing_scratch_length(m: usize, n: usize) -> ScratchLength
    ensures { result ≡ scratch_length m n }
{
    if MAX_TERMS < m || MAX_STARS < n {
        return ScratchLength {
            refusal: Refusal::Limits.number(),
            length: 0,
        };
    }
    ScratchLength {
        refusal: 0,
        length: validate::scratch_needed(m, n),
    }
}

// The term that the name in a slot of 16 bytes names.
#[unsafe(no_mangle)]
pub extern "C" fn pointing_read_term(slot: &[u8]) -> TermAnswer
    ensures { result ≡ term_answer (read_term slot.now) }
{
    term_answer(terms::read_term(slot))
}

// The Jacobian of a name at the observation of one sheet.
#[unsafe(no_mangle)]
pub extern "C" fn pointing_jacobian(
    name: &[u8],
    sheet: &[f64],
    sin_lat: f64,
    cos_lat: f64,
    pier: u8,
) -> PairAnswer
    ensures { result ≡ pair_answer (jacobian_of name.now sheet.now sin_lat cos_lat pier) }
{
    PairAnswer::from(terms::jacobian(name, sheet, sin_lat, cos_lat, pier))
}

// The correction at one point of the model with these names and coefficients.
#[unsafe(no_mangle)]
pub extern "C" fn pointing_apply_equatorial(
    names: &[u8],
    coefficients: &[f64],
    sheet: &[f64],
    sin_lat: f64,
    cos_lat: f64,
    pier: u8,
) -> PairAnswer
    ensures { result ≡ pair_answer (correction_at (length coefficients.now) names.now coefficients.now
        sheet.now sin_lat cos_lat pier) }
{
    PairAnswer::from(correction_at(names, coefficients, sheet, sin_lat, cos_lat, pier))
}

// What each term contributes to the correction at one point, and whether it is pier sensitive.
#[unsafe(no_mangle)]
pub extern "C" fn pointing_predict_breakdown(
    names: &[u8],
    coefficients: &[f64],
    sheet: &[f64],
    sin_lat: f64,
    cos_lat: f64,
    pier: u8,
) -> BreakdownAnswer
    ensures { result ≡ breakdown_answer (breakdown_at (length coefficients.now) names.now coefficients.now
        sheet.now sin_lat cos_lat pier) }
{
    BreakdownAnswer::from(breakdown_at(names, coefficients, sheet, sin_lat, cos_lat, pier))
}

// The single-step fit. Both fits write out what C lends: one function for it would take the same slices, and each call list them again.
#[unsafe(no_mangle)]
pub extern "C" fn pointing_fit_model(
    names: &[u8],
    fixed: &[u8],
    coefficients: &[f64],
    dh: &[f64],
    dd: &[f64],
    pier: &[u8],
    sheets: &[f64],
    sin_lat: f64,
    cos_lat: f64,
    fit_tol: f64,
    sigma_by: u8,
    out: &mut [f64],
    change: &mut [f64],
    sigma: &mut [f64],
    diagnostics: &mut [f64],
    scratch: &mut [f64],
) -> FitAnswer
    ensures { exported result (buffers out.new change.new sigma.new diagnostics.new scratch.new)
        ≡ exported_of (single_step_by sigma_by (inputs names.now fixed.now coefficients.now dh.now dd.now
        pier.now sheets.now (settings_of sin_lat cos_lat fit_tol))
        (buffers out.old change.old sigma.old diagnostics.old scratch.old)) }
{
    let input = FitInput {
        names,
        fixed,
        coefficients,
        dh,
        dd,
        pier,
        sheets,
        settings: Settings {
            sin_lat,
            cos_lat,
            fit_tol,
        },
    };
    let Some(by) = chosen(sigma_by) else {
        let room = Sizes {
            coefficients: out.len(),
            change: change.len(),
            sigma: sigma.len(),
            diagnostics: diagnostics.len(),
            scratch: scratch.len(),
        };
        let why = unknown_code(&input, validate::no_options(), room);
        return FitAnswer::from(Err(why));
    };
    FitAnswer::from(single_step::fit_model(&input, by, out, change, sigma, diagnostics, scratch))
}

// The iterated fit, robust or not.
#[unsafe(no_mangle)]
pub extern "C" fn pointing_fit_model_iterated(
    names: &[u8],
    fixed: &[u8],
    coefficients: &[f64],
    dh: &[f64],
    dd: &[f64],
    pier: &[u8],
    sheets: &[f64],
    sin_lat: f64,
    cos_lat: f64,
    fit_tol: f64,
    sigma_by: u8,
    options: IterOptions,
    out: &mut [f64],
    change: &mut [f64],
    sigma: &mut [f64],
    diagnostics: &mut [f64],
    scratch: &mut [f64],
) -> FitAnswer
    ensures whole { exported result (buffers out.new change.new sigma.new diagnostics.new scratch.new)
        ≡ exported_of (iterated_by sigma_by (inputs names.now fixed.now coefficients.now dh.now dd.now
        pier.now sheets.now (settings_of sin_lat cos_lat fit_tol))
        options (buffers out.old change.old sigma.old diagnostics.old scratch.old)) }
    ensures best { BestWhereGiven (inputs names.now fixed.now coefficients.now dh.now dd.now
        pier.now sheets.now (settings_of sin_lat cos_lat fit_tol))
        options result out.new }
{
    let input = FitInput {
        names,
        fixed,
        coefficients,
        dh,
        dd,
        pier,
        sheets,
        settings: Settings {
            sin_lat,
            cos_lat,
            fit_tol,
        },
    };
    let Some(by) = chosen(sigma_by) else {
        let room = Sizes {
            coefficients: out.len(),
            change: change.len(),
            sigma: sigma.len(),
            diagnostics: diagnostics.len(),
            scratch: scratch.len(),
        };
        let why = unknown_code(&input, options, room);
        return FitAnswer::from(Err(why));
    };
    FitAnswer::from(iterated::fit_model_iterated(
        &input,
        by,
        options,
        out,
        change,
        sigma,
        diagnostics,
        scratch,
    ))
}
