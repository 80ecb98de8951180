// Functions of one `f64`, after those of the same names in Rust: std's, by the definitions that the theorems speak of.
#![tactic(auto)]

ghost use Rattle.std.specs.Prelude.{◌≡◌};
ghost use Rattle.std.specs.Float.{binary64};
ghost use Rattle.std.specs.Float.Ieee.{of_bits, to_bits};
ghost use Rattle.float.specs.Float as Def;

pub fn abs(x: f64) -> f64
    ensures { result ≡ Def.abs x }
{
    x.abs()
}

pub fn is_finite(x: f64) -> bool
    ensures { result ≡ Def.is_finite x }
{
    x.is_finite()
}

// The value that a pattern stands for. Every NaN's pattern is the one NaN; std's call asks that it is none.
pub fn from_bits(bits: u64) -> f64
    ensures { result ≡ of_bits binary64 bits }
{
    if 0x7ff0_0000_0000_0000 < bits % 0x8000_0000_0000_0000 {
        return f64::NAN;
    }
    f64::from_bits(bits)
}

// The pattern of a value: 0x7ff8_0000_0000_0000 for a NaN; std's call asks that it is none.
pub fn to_bits(x: f64) -> u64
    ensures { result ≡ to_bits binary64 x }
{
    if x.is_nan() {
        return 0x7ff8_0000_0000_0000;
    }
    f64::to_bits(x)
}
