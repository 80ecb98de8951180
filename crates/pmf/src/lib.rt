// The file program as a library call: from the bytes of a file to its listing. After docs/SCOPE.md, section 11.
#![tactic(auto)]

ghost use Rattle.std.specs.Prelude.{◌≡◌, ◌*◌, ◌≤◌, length, replicate};
ghost use Rattle.float.specs.Float.{#0};
ghost use Rattle.listing.specs.Text.{listing_room, Wrote};
ghost use Rattle.solver.specs.Call.{buffers, sizes_of};
ghost use Rattle.validate.specs.Questions.{Ready};
ghost use Rattle.outcome.specs.Outcome.{outcome};
ghost use Rattle.pmf.specs.File.{file_terms};
ghost use Rattle.pmf.specs.Pmf.{header_of, WellFormed, fit_of, room, outcome_of, outcome_text, header_text, listed_in};

mod file;

use crate::file::{FILE_STARS, FILE_TERMS, NAMES, STAR, TERM};
use limits::{SHEET, SLOT};
use listing::LISTING;
use refusal::Refusal;
use solver::input::FitInput;
use solver::{FitResult, IterOptions, SigmaBy, Sizes};

// One byte more than the longest file has: what lies behind it changes no listing.
pub const FILE_ROOM: usize = 31776;

// The diagnostics and the scratch that the fit of the largest file needs: arrays of this size, since there is no heap.
const FILE_DIAGNOSTICS: usize = 300;

const FILE_SCRATCH: usize = 4896;

// Which fit a file asks for: the single step, the iterated fit, or that with Huber weights.
#[derive(Clone, Copy, Debug, PartialEq, Eq)]
enum Mode {
    SingleStep,
    Iterated,
    Robust,
}

impl TryFrom<u8> for Mode {
    ghost use Rattle.std.specs.Prelude.{◌≡◌};
    ghost use Rattle.pmf.specs.Pmf.{mode_from};

    type Error = Refusal;

    ghost try_from_gives = { λ code r. r ≡ mode_from code };

    fn try_from(code: u8) -> Result<Mode, Refusal> {
        match code {
            0 => Ok(Mode::SingleStep),
            1 => Ok(Mode::Iterated),
            3 => Ok(Mode::Robust),
            _ => Err(Refusal::NotAFile),
        }
    }
}

// What the first nine bytes say beside the mark and the version.
#[derive(Clone, Copy, Debug, PartialEq, Eq)]
struct Header {
    mode: Mode,
    terms: usize,
    stars: usize,
}

// Question 15 of the header, question 1, and question 15 of the length.
#[tactic(auto, unfolding(crate::specs::Pmf::header_of))]
fn read_header(s: &[u8]) -> Result<Header, Refusal>
    ensures { result ≡ header_of s.now }
{
    if s.len() < 9 || !s.starts_with(b"PMF") || little_endian::u16_at(s, 3) != 1 {
        return Err(Refusal::NotAFile);
    }
    let mode = Mode::try_from(s[6])?;
    let terms = usize::from(s[5]);
    // `as`: a u64 below 65,536, from which usize has no From
    let stars = little_endian::u16_at(s, 7) as usize;
    if terms > FILE_TERMS || stars > FILE_STARS {
        return Err(Refusal::Limits);
    }
    if s.len() != NAMES + TERM * terms + STAR * stars {
        return Err(Refusal::NotAFile);
    }
    Ok(Header { mode, terms, stars })
}

// The fit of a mode, once the questions are passed. The buffers come one by one, as in both fits.
#[tactic(auto, unfolding(crate::specs::Pmf::fit_of))]
fn fit(
    mode: Mode,
    input: &FitInput,
    options: IterOptions,
    out: &mut [f64],
    change: &mut [f64],
    sigma: &mut [f64],
    diagnostics: &mut [f64],
    scratch: &mut [f64],
) -> FitResult
    requires { Ready input.now (sizes_of (buffers out.old change.old sigma.old diagnostics.old scratch.old)) }
    ensures { outcome (Ok result) (buffers out.new change.new sigma.new diagnostics.new scratch.new)
        ≡ fit_of mode input.now options (buffers out.old change.old sigma.old diagnostics.old scratch.old) }
{
    let sigma_by = SigmaBy::Stars;
    match mode {
        Mode::SingleStep => single_step::fit(
            input,
            sigma_by,
            out,
            change,
            sigma,
            diagnostics,
            scratch,
        ),
        Mode::Iterated | Mode::Robust => iterated::fit(
            input,
            sigma_by,
            options,
            out,
            change,
            sigma,
            diagnostics,
            scratch,
        ),
    }
}

// A buffer of zeros. The proof of `list_fit` sees it by this clause, and not as a literal of thousands of numbers.
fn zeros<const N: usize>() -> [f64; N]
    ensures { result ≡ replicate N #0 }
{
    [0.0; N]
}

// The listing of a fit whose questions are all passed.
fn list_fit(mode: Mode, input: &FitInput, options: IterOptions, text: &mut [u8]) -> usize
    requires { (listing_room ≤ length text.old) × (length input.now.coefficients ≤ file_terms) × Ready input.now (sizes_of room) }
    ensures { Wrote (outcome_text input.now (fit_of mode input.now options room)) 0 text.old text.new result }
{
    let mut out = zeros::<FILE_TERMS>();
    let mut change = zeros::<FILE_TERMS>();
    let mut sigma = zeros::<FILE_TERMS>();
    let mut diagnostics = zeros::<FILE_DIAGNOSTICS>();
    let mut scratch = zeros::<FILE_SCRATCH>();
    let r = fit(
        mode,
        input,
        options,
        &mut out,
        &mut change,
        &mut sigma,
        &mut diagnostics,
        &mut scratch,
    );
    listing::put_fit(text, input.names, input.coefficients.len(), &out, &sigma, r)
}

// The listing of what a file holds: the questions, put to every field in every mode, and the fit.
fn list_input(mode: Mode, input: &FitInput, options: IterOptions, text: &mut [u8]) -> usize
    requires { (listing_room ≤ length text.old) × (length input.now.coefficients ≤ file_terms) }
    ensures { Wrote (outcome_text input.now (outcome_of mode input.now options)) 0 text.old text.new result }
{
    let room = Sizes {
        coefficients: FILE_TERMS,
        change: FILE_TERMS,
        sigma: FILE_TERMS,
        diagnostics: FILE_DIAGNOSTICS,
        scratch: FILE_SCRATCH,
    };
    match validate::questions(input, options, room) {
        Ok(()) => list_fit(mode, input, options, text),
        Err(why) => listing::put_refusal(text, why.number()),
    }
}

// The listing of a well-formed file.
fn list_file(s: &[u8], header: Header, text: &mut [u8]) -> usize
    requires { (listing_room ≤ length text.old) × WellFormed s.now header }
    ensures { Wrote (header_text s.now (Ok header)) 0 text.old text.new result }
{
    let m = header.terms;
    let n = header.stars;
    let coefficients = file::coefficients(s, m);
    let dh = file::differences(s, 1 + NAMES + TERM * m, n);
    let dd = file::differences(s, 9 + NAMES + TERM * m, n);
    let pier = file::piers(s, m, n);
    let sheets = file::sheets(s, m, n);
    let flags = NAMES + SLOT * m;
    let input = FitInput {
        names: &s[NAMES..flags],
        fixed: &s[flags..flags + m],
        coefficients: &coefficients[..m],
        dh: &dh[..n],
        dd: &dd[..n],
        pier: &pier[..n],
        sheets: &sheets[..SHEET * n],
        settings: file::settings(s),
    };
    list_input(header.mode, &input, file::options(s), text)
}

// Writes the listing of the file s into text and hands back how many bytes it has. A text of fewer than LISTING bytes is left as it
// was, and the answer is 0.
#[tactic(auto, unfolding(crate::specs::Pmf::listed_in, crate::specs::Pmf::listed))]
pub fn list(s: &[u8], text: &mut [u8]) -> usize
    ensures { record { count = result; buffer = text.new } ≡ listed_in s.now text.old }
{
    if text.len() < LISTING {
        return 0;
    }
    match read_header(s) {
        Ok(header) => list_file(s, header, text),
        Err(why) => listing::put_refusal(text, why.number()),
    }
}
