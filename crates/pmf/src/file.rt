// The fields of a file, read from its bytes. Each asks for its own bytes alone, which is less than a well-formed file.

ghost use Rattle.std.specs.Prelude.{◌≡◌, ℕ, ◌+◌, ◌*◌, ◌≤◌, ◌<◌, length, take};
ghost use Rattle.sequence.specs.Sequence.{table};
ghost use Rattle.limits.specs.Limits.{sheet_numbers};
ghost use Rattle.pmf.specs.File.{file_terms, file_stars, names_place, term_bytes, star_bytes};
ghost use Rattle.pmf.specs.File.{double, coefficients_of, piers_of, sheets_of, file_size, settings_in, options_of};

use limits::SHEET;
use solver::{IterOptions, Settings};

// The largest file: terms and stars. What is read lies in arrays for so many, since there is no heap.
pub const FILE_TERMS: usize = 16;

pub const FILE_STARS: usize = 100;

// Where the names begin, and how many bytes a term and a star have.
pub const NAMES: usize = 75;

pub const TERM: usize = 25;

pub const STAR: usize = 313;

// The double in eight bytes, or infinity where they are no finite number's.
#[tactic(auto, unfolding(crate::specs::File::double))]
pub fn double_at(s: &[u8], i: usize) -> f64
    requires { i + 8 ≤ length s.now }
    ensures { result ≡ double s.now i }
{
    let bits = little_endian::u64_at(s, i);
    if bits % 0x8000_0000_0000_0000 < 0x7ff0_0000_0000_0000 {
        float::from_bits(bits)
    } else {
        f64::INFINITY
    }
}

// Doubles that lie so many bytes apart.
fn read_doubles(s: &[u8], start: usize, stride: usize, out: &mut [f64])
    requires { (i : ℕ) → i < length out.old → start + stride * i + 8 ≤ length s.now }
    ensures { out.new ≡ table (length out.old) (λ i. double s.now (start + stride * i)) }
{
    for (i, x) in out.iter_mut().enumerate() {
        *x = double_at(s, start + stride * i);
    }
}

// The coefficients of m terms.
pub fn coefficients(s: &[u8], m: usize) -> [f64; FILE_TERMS]
    requires { (m ≤ file_terms) × (names_place + term_bytes * m ≤ length s.now) }
    ensures { take m result ≡ coefficients_of s.now m }
{
    let mut out = [0.0; FILE_TERMS];
    read_doubles(s, NAMES + 17 * m, 8, &mut out[..m]);
    out
}

// One difference of each of n stars.
pub fn differences(s: &[u8], start: usize, n: usize) -> [f64; FILE_STARS]
    requires { (n ≤ file_stars) × (start + star_bytes * n ≤ length s.now + 305) }
    ensures { take n result ≡ table n (λ i. double s.now (start + star_bytes * i)) }
{
    let mut out = [0.0; FILE_STARS];
    read_doubles(s, start, STAR, &mut out[..n]);
    out
}

// The pier codes of n stars.
pub fn piers(s: &[u8], m: usize, n: usize) -> [u8; FILE_STARS]
    requires { (m ≤ file_terms) × (n ≤ file_stars) × (file_size m n ≤ length s.now) }
    ensures { take n result ≡ piers_of s.now m n }
{
    let mut out = [0u8; FILE_STARS];
    for (i, code) in out[..n].iter_mut().enumerate() {
        *code = s[NAMES + TERM * m + STAR * i];
    }
    out
}

// The latitude and the tolerance.
pub fn settings(s: &[u8]) -> Settings
    requires { names_place ≤ length s.now }
    ensures { result ≡ settings_in s.now }
{
    Settings {
        sin_lat: double_at(s, 9),
        cos_lat: double_at(s, 17),
        fit_tol: double_at(s, 25),
    }
}

// The sheets of n stars.
// Number by number: of what chunks_exact_mut lends to write, a proof knows the length alone.
pub fn sheets(s: &[u8], m: usize, n: usize) -> [f64; 3700]
    requires { (m ≤ file_terms) × (n ≤ file_stars) × (file_size m n ≤ length s.now) }
    ensures { take (sheet_numbers * n) result ≡ sheets_of s.now m n }
{
    let mut out = [0.0; 3700];
    for (k, x) in out[..SHEET * n].iter_mut().enumerate() {
        let sheet = 17 + NAMES + TERM * m + STAR * (k / SHEET);
        *x = double_at(s, sheet + 8 * (k % SHEET));
    }
    out
}

// The options, of the bytes alone as `options_of` has them: a mode of 3 is robust.
#[tactic(auto, unfolding(crate::specs::File::options_of))]
pub fn options(s: &[u8]) -> IterOptions
    requires { names_place ≤ length s.now }
    ensures { result ≡ options_of s.now }
{
    IterOptions {
        // `as`: a u64 below 65,536, from which usize has no From
        max_iter: little_endian::u16_at(s, 73) as usize,
        tol_rad: double_at(s, 33),
        initial_lambda: double_at(s, 41),
        lambda_up: double_at(s, 49),
        lambda_down: double_at(s, 57),
        robust: s[6] == 3,
        huber_k: double_at(s, 65),
    }
}
