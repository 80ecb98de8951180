// What the terms read of one observation: the side of the pier, and the lent sheet of sines and cosines.
// After observation.rs.
#![tactic(auto)]

ghost use Rattle.std.specs.Prelude.{◌≡◌};
ghost use Rattle.sequence.specs.Sequence.{at};
ghost use Rattle.observation.specs.Observation.{sign_of, side_of};
ghost use Rattle.observation.specs.Sheet.{point_of};

#[derive(Clone, Copy, PartialEq, Eq, Debug)]
pub enum PierSide {
    East,
    West,
    Unknown,
}

impl PierSide {
    pub fn sign(self) -> f64
        ensures { result ≡ sign_of self }
    {
        match self {
            PierSide::East | PierSide::Unknown => 1.0,
            PierSide::West => -1.0,
        }
    }
}

impl From<u8> for PierSide {
    ghost from_gives = { λ code r. r ≡ side_of code };

    // Every code above 2 is that of an unknown side too.
    fn from(code: u8) -> PierSide
        ensures { result ≡ side_of code }
    {
        match code {
            1 => PierSide::East,
            2 => PierSide::West,
            _ => PierSide::Unknown,
        }
    }
}

// A term's contributions to the hour angle and to the declination.
#[derive(Clone, Copy)]
pub struct Pair {
    pub dh: f64,
    pub dd: f64,
}

// What the equatorial terms read of an observation. The pier is the sign of its side.
#[derive(Clone, Copy)]
pub struct Point {
    pub sin_h: f64,
    pub cos_h: f64,
    pub sin_dec: f64,
    pub cos_dec: f64,
    pub tan_dec: f64,
    pub sin_lat: f64,
    pub cos_lat: f64,
    pub pier: f64,
}

// The number at a place of a sheet; past its end a NaN.
pub fn number_at(sheet: &[f64], i: usize) -> f64
    ensures { result ≡ at sheet.now i }
{
    sheet.get(i).copied().unwrap_or(0.0 / 0.0)
}

impl Point {
    #[tactic(auto, unfolding(crate::specs::Sheet::point_of))]
    pub fn from_sheet(sheet: &[f64], sin_lat: f64, cos_lat: f64, pier: f64) -> Point
        ensures { result ≡ point_of sheet.now sin_lat cos_lat pier }
    {
        Point {
            sin_h: number_at(sheet, 0),
            cos_h: number_at(sheet, 1),
            sin_dec: number_at(sheet, 18),
            cos_dec: number_at(sheet, 19),
            tan_dec: number_at(sheet, 36),
            sin_lat,
            cos_lat,
            pier,
        }
    }
}
