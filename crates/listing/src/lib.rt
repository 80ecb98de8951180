// The lines that the file program prints, written one after the other into a text, and the text put into a lent buffer.
#![tactic(auto)]

ghost use Rattle.std.specs.Prelude.{◌≡◌, ◌+◌, ◌*◌, ◌≤◌, length};
ghost use Rattle.limits.specs.Limits.{slot_bytes};
ghost use Rattle.listing.specs.Text.{Wrote, listing_room};
ghost use Rattle.listing.specs.Listing.{fit_text, refusal_text};

mod text;

use crate::text::Text;
use solver::FitResult;

// Room for any listing of 16 terms.
pub const LISTING: usize = 1030;

// The listing of an accepted fit.
pub fn put_fit(
    out: &mut [u8],
    names: &[u8],
    m: usize,
    coefficients: &[f64],
    sigma: &[f64],
    r: FitResult,
) -> usize
    requires { (listing_room ≤ length out.old) × (m ≤ 16) × (slot_bytes * m ≤ length names.now) × (m ≤ length coefficients.now)
        × (m ≤ length sigma.now) }
    ensures { Wrote (fit_text names.now m coefficients.now sigma.now r) 0 out.old out.new result }
{
    let mut text = Text::new();
    text.put_counts(r);
    text.put_terms(names, m, coefficients, sigma);
    text.put(b"sky");
    text.put_floats(r.sky_rms, r.popn_sd);
    text.put(b"\n");
    text.lend_to(out)
}

// The listing of a refusal.
pub fn put_refusal(out: &mut [u8], number: u8) -> usize
    requires { listing_room ≤ length out.old }
    ensures { Wrote (refusal_text number) 0 out.old out.new result }
{
    let mut text = Text::new();
    text.put(b"no");
    text.put_count(usize::from(number));
    text.put(b"\n");
    text.lend_to(out)
}
