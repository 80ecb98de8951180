// Numbers and floats read from bytes, the lowest byte first.
#![tactic(auto)]

ghost use Rattle.std.specs.Prelude.{◌≡◌, ◌+◌, ◌≤◌, ◌<◌, length};
ghost use Rattle.little_endian.specs.LittleEndian.{number_at, float_at};

// Two bytes. A function for each width, as the library's `from_le_bytes` is.
pub fn u16_at(s: &[u8], i: usize) -> u64
    requires { i + 2 ≤ length s.now }
    ensures value { result ≡ number_at s.now i 2 }
    ensures bound { result < 65536 }
{
    u64::from(u16::from_le_bytes(s[i..i + 2].try_into().unwrap()))
}

// Eight bytes.
pub fn u64_at(s: &[u8], i: usize) -> u64
    requires { i + 8 ≤ length s.now }
    ensures { result ≡ number_at s.now i 8 }
{
    u64::from_le_bytes(s[i..i + 8].try_into().unwrap())
}

// A double. A NaN's pattern gives a NaN.
pub fn f64_at(s: &[u8], i: usize) -> f64
    requires { i + 8 ≤ length s.now }
    ensures { result ≡ float_at s.now i }
{
    float::from_bits(u64_at(s, i))
}
