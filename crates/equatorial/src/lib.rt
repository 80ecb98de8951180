// The Jacobians of the equatorial terms, from what is known of one observation. After terms/equatorial.rs.
#![tactic(auto)]

ghost use Rattle.std.specs.Prelude.{◌≡◌};
ghost use Rattle.observation.specs.Observation.{pair_of};
ghost use Rattle.equatorial.specs.Equatorial.{code_of, txn_number, kind_of, equatorial_jacobian};
ghost use Rattle.equatorial.specs.Equatorial.{sin_alt, flexure_h, flexure_d, tf_of, tx_of, txn_of, daf_of, power, at_least_zero};

use observation::{Pair, Point};

#[derive(Clone, Copy, PartialEq, Eq, Debug)]
pub enum EquatorialTerm {
    IH,
    ID,
    CH,
    NP,
    MA,
    ME,
    TF,
    TX,
    TXN(u8),
    DAF,
    FO,
    HCES,
    HCEC,
    DCES,
    DCEC,
}

impl EquatorialTerm {
    // Its number, from 0 in the order above, by which C has it.
    pub fn code(self) -> u8
        ensures { result ≡ code_of self }
    {
        match self {
            EquatorialTerm::IH => 0,
            EquatorialTerm::ID => 1,
            EquatorialTerm::CH => 2,
            EquatorialTerm::NP => 3,
            EquatorialTerm::MA => 4,
            EquatorialTerm::ME => 5,
            EquatorialTerm::TF => 6,
            EquatorialTerm::TX => 7,
            EquatorialTerm::TXN(_) => 8,
            EquatorialTerm::DAF => 9,
            EquatorialTerm::FO => 10,
            EquatorialTerm::HCES => 11,
            EquatorialTerm::HCEC => 12,
            EquatorialTerm::DCES => 13,
            EquatorialTerm::DCEC => 14,
        }
    }

    // TXN's own number, which C has beside it; 0 of any other.
    pub fn txn_number(self) -> u8
        ensures { result ≡ txn_number self }
    {
        match self {
            EquatorialTerm::TXN(n) => n,
            _ => 0,
        }
    }

    // The term with a code, where n is TXN's own number; from 14 on DCEC.
    pub fn from_code(code: u8, n: u8) -> EquatorialTerm
        ensures { result ≡ kind_of code n }
    {
        match code {
            0 => EquatorialTerm::IH,
            1 => EquatorialTerm::ID,
            2 => EquatorialTerm::CH,
            3 => EquatorialTerm::NP,
            4 => EquatorialTerm::MA,
            5 => EquatorialTerm::ME,
            6 => EquatorialTerm::TF,
            7 => EquatorialTerm::TX,
            8 => EquatorialTerm::TXN(n),
            9 => EquatorialTerm::DAF,
            10 => EquatorialTerm::FO,
            11 => EquatorialTerm::HCES,
            12 => EquatorialTerm::HCEC,
            13 => EquatorialTerm::DCES,
            _ => EquatorialTerm::DCEC,
        }
    }

    // Where the term is a constant in the call, the compiler keeps its arm alone.
    pub fn jacobian_equatorial(self, p: Point) -> Pair
        ensures { result ≡ equatorial_jacobian self p }
    {
        match self {
            EquatorialTerm::IH => pair(-1.0, 0.0),
            EquatorialTerm::ID => pair(0.0, -p.pier),
            EquatorialTerm::CH => pair(-p.pier / p.cos_dec, 0.0),
            EquatorialTerm::NP => pair(-p.pier * p.tan_dec, 0.0),
            EquatorialTerm::MA => pair(p.cos_h * p.tan_dec, -p.sin_h),
            EquatorialTerm::ME => pair(-p.sin_h * p.tan_dec, -p.cos_h),
            EquatorialTerm::TF => tf(p),
            EquatorialTerm::TX => tx(p),
            EquatorialTerm::TXN(n) => txn(p, n),
            EquatorialTerm::DAF => daf(p),
            EquatorialTerm::FO => pair(0.0, p.cos_h),
            EquatorialTerm::HCES => pair(p.sin_h, 0.0),
            EquatorialTerm::HCEC => pair(p.cos_h, 0.0),
            EquatorialTerm::DCES => pair(0.0, p.sin_dec),
            EquatorialTerm::DCEC => pair(0.0, p.cos_dec),
        }
    }
}

fn pair(dh: f64, dd: f64) -> Pair
    ensures { result ≡ pair_of dh dd }
{
    Pair { dh, dd }
}

// The sine of the altitude, which is the cosine of the zenith distance.
fn sin_altitude(p: Point) -> f64
    ensures { result ≡ sin_alt p }
{
    p.sin_lat * p.sin_dec + p.cos_lat * p.cos_dec * p.cos_h
}

fn flexure(p: Point) -> Pair
    ensures { result ≡ pair_of (flexure_h p) (flexure_d p) }
{
    Pair {
        dh: p.cos_lat * p.sin_h / p.cos_dec,
        dd: p.cos_lat * p.cos_h * p.sin_dec - p.sin_lat * p.cos_dec,
    }
}

// Its dh stays apart from the flexure's: `tf_of` negates the first factor, and not the quotient.
fn tf(p: Point) -> Pair
    ensures { result ≡ tf_of p }
{
    Pair {
        dh: -p.cos_lat * p.sin_h / p.cos_dec,
        dd: -flexure(p).dd,
    }
}

fn tx(p: Point) -> Pair
    ensures { result ≡ tx_of p }
{
    let sin_a = sin_altitude(p);
    if float::abs(sin_a) < 1e-10 {
        return pair(0.0, 0.0);
    }
    let f = flexure(p);
    Pair {
        dh: f.dh / sin_a,
        dd: f.dd / sin_a,
    }
}

// The product of n factors x, from the left, starting at 1.
fn pow(x: f64, n: usize) -> f64
    ensures { result ≡ power x n }
{
    (0..n).fold(1.0, |product, _| product * x)
}

// As `x.max(0.0)`, 0 for a NaN, but never -0, which `max` may give.
fn at_least_zero(x: f64) -> f64
    ensures { result ≡ at_least_zero x }
{
    if 0.0 < x { x } else { 0.0 }
}

// Apart from `tx`, which multiplies by no scale: to share its lines, it would have to multiply by 1.
fn txn(p: Point, n: u8) -> Pair
    ensures { result ≡ txn_of p n }
{
    let cos_z = sin_altitude(p);
    if float::abs(cos_z) < 1e-10 {
        return pair(0.0, 0.0);
    }
    let sin_z = sqrt::sqrt(at_least_zero(1.0 - cos_z * cos_z));
    let scale = pow(sin_z / cos_z, usize::from(n.saturating_sub(1)));
    let f = flexure(p);
    Pair {
        dh: scale * f.dh / cos_z,
        dd: scale * f.dd / cos_z,
    }
}

fn daf(p: Point) -> Pair
    ensures { result ≡ daf_of p }
{
    Pair {
        dh: -(p.sin_lat * p.tan_dec + p.cos_lat * p.cos_h),
        dd: 0.0,
    }
}
