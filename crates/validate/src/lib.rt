// The questions that a fit is put before any work is done, in the order of docs/SCOPE.md 10.2. After solver/validate.rs, whose refusals are
// questions 11 to 13.
#![tactic(auto)]

ghost use Rattle.std.specs.Prelude.{◌≡◌, ◌++◌, ◌*◌, ◌≤◌, ltb, length, drop, [], ◌∷◌};
ghost use Rattle.limits.specs.Limits.{max_terms, max_stars, slot_bytes};
ghost use Rattle.refusal.specs.Questions.{ask};
ghost use Rattle.sequence.specs.Sequence.{every};
ghost use Rattle.design.specs.Design.{up_to, collect_indices};
ghost use Rattle.design.specs.Counted.{Counted};
ghost use Rattle.validate.specs.Questions.{in_limits, counts_in, scratch_needed, enough_room, finite_settings, finite_input, finite_options, codes_known};
ghost use Rattle.validate.specs.Questions.{free_count, answered, sizes_asked, numbers_asked, codes_asked, terms_asked, asked_of, run_with, no_options};

use design::run::{RunInput, SightInput};
use limits::{MAX_STARS, MAX_TERMS, SHEET, SLOT};
use refusal::Refusal;
use solver::input::FitInput;
use solver::{IterOptions, Settings, Sizes};

// One question, answered.
fn ask(yes: bool, why: Refusal) -> Result<(), Refusal>
    ensures { result ≡ answered (ask yes why ∷ []) }
{
    if yes { Ok(()) } else { Err(why) }
}

// Question 1.
#[tactic(auto, unfolding(crate::specs::Questions::in_limits))]
fn within_limits(m: usize, n: usize) -> bool
    ensures { result ≡ in_limits m n }
{
    m <= MAX_TERMS && n <= MAX_STARS
}

// Question 2.
#[tactic(auto, unfolding(crate::specs::Questions::counts))]
fn counts_match(input: &FitInput) -> bool
    requires { (length input.now.coefficients ≤ max_terms) × (length input.now.dh ≤ max_stars) }
    ensures { result ≡ counts_in input.now }
{
    let m = input.coefficients.len();
    let n = input.dh.len();
    input.names.len() == SLOT * m
        && input.fixed.len() == m
        && input.dd.len() == n
        && input.pier.len() == n
        && input.sheets.len() == SHEET * n
}

// How many numbers of scratch a fit needs.
#[tactic(auto, unfolding(crate::specs::Questions::scratch_needed))]
pub fn scratch_needed(m: usize, n: usize) -> usize
    requires { (m ≤ max_terms) × (n ≤ max_stars) }
    ensures { result ≡ scratch_needed m n }
{
    (2 * n + 3 * m) * m + 8 * n + 8 * m
}

// Question 3.
#[tactic(auto, unfolding(crate::specs::Questions::enough_room))]
fn has_room(s: Sizes, m: usize, n: usize) -> bool
    requires { (m ≤ max_terms) × (n ≤ max_stars) }
    ensures { result ≡ enough_room s m n }
{
    m <= s.coefficients
        && m <= s.change
        && m <= s.sigma
        && 3 * n <= s.diagnostics
        && scratch_needed(m, n) <= s.scratch
}

// Question 4 of the settings.
#[tactic(auto, unfolding(crate::specs::Questions::finite_settings))]
fn finite_settings(s: Settings) -> bool
    ensures { result ≡ finite_settings s }
{
    sequence::all_finite(&[s.sin_lat, s.cos_lat, s.fit_tol])
}

// Question 4 of the slices and the settings.
#[tactic(auto, unfolding(crate::specs::Questions::finite_input))]
fn finite_input(input: &FitInput) -> bool
    ensures { result ≡ finite_input input.now }
{
    sequence::all_finite(input.coefficients)
        && sequence::all_finite(input.dh)
        && sequence::all_finite(input.dd)
        && sequence::all_finite(input.sheets)
        && finite_settings(input.settings)
}

// Question 4 of the options.
#[tactic(auto, unfolding(crate::specs::Questions::finite_options))]
fn finite_options(o: IterOptions) -> bool
    ensures { result ≡ finite_options o }
{
    sequence::all_finite(&[
        o.tol_rad,
        o.initial_lambda,
        o.lambda_up,
        o.lambda_down,
        o.huber_k,
    ])
}

// Whether every code of s is below k.
fn codes_below(s: &[u8], k: u8) -> bool
    ensures { result ≡ every (λ c. ltb c k) s.now }
{
    s.iter().all(|c| *c < k)
}

// Question 5.
#[tactic(auto, unfolding(crate::specs::Questions::codes_known))]
fn codes_known(pier: &[u8], fixed: &[u8]) -> bool
    ensures { result ≡ codes_known pier.now fixed.now }
{
    codes_below(pier, 3) && codes_below(fixed, 2)
}

// Questions 1 to 3, of lengths alone.
fn ask_sizes(input: &FitInput, room: Sizes) -> Result<(), Refusal>
    ensures { result ≡ answered (sizes_asked input.now room) }
{
    let m = input.coefficients.len();
    let n = input.dh.len();
    ask(within_limits(m, n), Refusal::Limits)?;
    ask(counts_match(input), Refusal::Lengths)?;
    ask(has_room(room, m, n), Refusal::Room)
}

// Questions 1 to 4, of lengths and numbers.
pub fn ask_numbers(input: &FitInput, options: IterOptions, room: Sizes) -> Result<(), Refusal>
    ensures { result ≡ answered (numbers_asked input.now options room) }
{
    ask_sizes(input, room)?;
    ask(
        finite_input(input) && finite_options(options),
        Refusal::NotFinite,
    )
}

// Questions 5 and 6, of codes and the limit.
fn ask_codes(pier: &[u8], fixed: &[u8], max_iter: usize) -> Result<(), Refusal>
    ensures { result ≡ answered (codes_asked pier.now fixed.now max_iter) }
{
    ask(codes_known(pier, fixed), Refusal::Code)?;
    ask(max_iter <= 1000, Refusal::IterationLimit)
}

// How many flags are 0.
fn free_count(fixed: &[u8]) -> usize
    ensures { result ≡ free_count fixed.now }
{
    fixed.iter().filter(|f| **f == 0).count()
}

// Questions 7 to 13, of m terms and n stars.
fn ask_terms(names: &[u8], fixed: &[u8], m: usize, n: usize) -> Result<(), Refusal>
    requires { slot_bytes * m ≤ length names.now }
    ensures { result ≡ terms_asked names.now fixed.now m n }
{
    terms::names_read(names, m)?;
    let free = free_count(fixed);
    ask(m > 0, Refusal::NoTerm)?;
    ask(free > 0, Refusal::NoFreeTerm)?;
    ask(free <= n, Refusal::TooFewStars)
}

// The questions in order. The buffers come in as their lengths alone, so that a refusal can't touch them.
#[tactic(auto, unfolding(crate::specs::Questions::asked_of))]
pub fn questions(input: &FitInput, options: IterOptions, room: Sizes) -> Result<(), Refusal>
    ensures { result ≡ asked_of input.now options room }
{
    ask_numbers(input, options, room)?;
    ask_codes(input.pier, input.fixed, options.max_iter)?;
    ask_terms(
        input.names,
        input.fixed,
        input.coefficients.len(),
        input.dh.len(),
    )
}

// The indices of the flags that are 0, from the front of `out` on; and how many they are.
// k counts by hand: of what a zip with a filter lends to write, a proof knows the length alone.
// `as`, here and below: an index is below 1,024, and try_from would have an error that can't come.
pub fn collect_indices(flags: &[u8], out: &mut [u16]) -> usize
    requires { (length flags.now ≤ max_stars) × (length flags.now ≤ length out.old) }
    ensures count { result ≡ length (collect_indices flags.now) }
    ensures listed { out.new ≡ collect_indices flags.now ++ drop result out.old }
{
    let mut k = 0;
    for (i, flag) in flags.iter().enumerate() {
        if *flag == 0 {
            out[k] = i as u16;
            k += 1;
        }
    }
    k
}

// 0 to n - 1, from the front of `out` on: every star counts.
pub fn all_indices(n: usize, out: &mut [u16])
    requires { (n ≤ max_stars) × (n ≤ length out.old) }
    ensures { out.new ≡ up_to n ++ drop n out.old }
{
    for (i, x) in out[..n].iter_mut().enumerate() {
        *x = i as u16;
    }
}

// What a fit of the free terms and the stars that count is lent of a call.
pub fn run_input<'a>(input: &'a FitInput, free: &'a [u16], used: &'a [u16]) -> RunInput<'a>
    requires { Counted (run_with input.now free.now used.now) }
    ensures { result ≡ run_with input.now free.now used.now }
{
    RunInput {
        m: input.coefficients.len(),
        names: input.names,
        free,
        dh: input.dh,
        dd: input.dd,
        sights: SightInput {
            pier: input.pier,
            sheets: input.sheets,
            used,
            settings: input.settings,
        },
    }
}

// What the single step puts in the place of the options that it doesn't take.
pub fn no_options() -> IterOptions
    ensures { result ≡ no_options }
{
    IterOptions {
        max_iter: 0,
        tol_rad: 0.0,
        initial_lambda: 0.0,
        lambda_up: 0.0,
        lambda_down: 0.0,
        robust: false,
        huber_k: 0.0,
    }
}
