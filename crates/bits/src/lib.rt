// Numbers and doubles read from little-endian bytes, and whole numbers worked out from a double's bits.

#![tactic(auto)]

ghost use Rattle.std.specs.Prelude.{◌≡◌, true, ◌+◌, ◌*◌, ◌/◌, ◌^◌, ◌≤◌, ◌<◌, length};
ghost use Rattle.std.specs.Float.Ieee.{to_unsigned};
ghost use Rattle.bits.specs.Bytes.{le32, le64, signed32, double_of, double_at};
ghost use Rattle.bits.specs.Record.{record_of, reach_of, is_stretched};
ghost use Rattle.bits.specs.Same.{same};
ghost use Rattle.bits.specs.F64.{finite, whole};

// Where a quotient falls beside the records of a segment: before the first, inside, or after the last.
#[derive(Clone, Copy)]
pub enum Reach {
    Before,
    Inside,
    After,
}

impl Reach {
    // The quotient falls in none of the records: the first or the last is stretched to it.
    pub fn is_stretched(self) -> bool
        ensures { result ≡ is_stretched self }
    {
        !matches!(self, Reach::Inside)
    }
}

// The 32-bit number at byte `at`.
pub fn le_u32(s: &[u8], at: usize) -> u32
    requires { at + 4 ≤ length s.now }
    ensures { result ≡ le32 s.now at }
{
    u32::from_le_bytes([s[at], s[at + 1], s[at + 2], s[at + 3]])
}

// A 32-bit pattern as a signed number.
pub fn signed(n: u32) -> i32
    ensures { result ≡ signed32 n }
{
    n.cast_signed()
}

// The signed 32-bit number at byte `at`.
pub fn le_i32(s: &[u8], at: usize) -> i32
    requires { at + 4 ≤ length s.now }
    ensures { result ≡ signed32 (le32 s.now at) }
{
    signed(le_u32(s, at))
}

// The 64-bit number at byte `at`.
pub fn le_u64(s: &[u8], at: usize) -> u64
    requires { at + 8 ≤ length s.now }
    ensures { result ≡ le64 s.now at }
{
    // from a part of the slice, so that all places are constants: the compiler then makes one load of it
    let t = &s[at..];
    u64::from_le_bytes([t[0], t[1], t[2], t[3], t[4], t[5], t[6], t[7]])
}

// The double of a bit pattern. Every NaN pattern gives the one NaN.
pub fn double_of(bits: u64) -> f64
    ensures { result ≡ double_of bits }
{
    if bits % 0x8000_0000_0000_0000 > 0x7ff0_0000_0000_0000 {
        f64::NAN
    } else {
        f64::from_bits(bits)
    }
}

// The double at byte `at`.
pub fn double_at(s: &[u8], at: usize) -> f64
    requires { at + 8 ≤ length s.now }
    ensures { result ≡ double_at s.now at }
{
    double_of(le_u64(s, at))
}

// The double of a bit pattern without its fraction: 0 for a NaN and for what is negative, the
// largest u64 for what is too large. The double is `digits` * 2 ^ (`exponent` - 1075).
pub fn cut_bits(bits: u64) -> u64
    ensures { result ≡ to_unsigned 64 (double_of bits) }
{
    let exponent = bits >> 52;
    let digits = (bits & 0xf_ffff_ffff_ffff) | 0x10_0000_0000_0000;
    if exponent < 1023 {
        return 0;
    }
    if exponent < 1075 {
        return digits >> (1075 - exponent);
    }
    // above the pattern of infinity: the sign bit is set, or it is a NaN
    if bits > 0x7ff0_0000_0000_0000 {
        return 0;
    }
    if exponent < 1087 {
        return digits << (exponent - 1075);
    }
    0xffff_ffff_ffff_ffff
}

// x without its fraction, at 64 bits.
pub fn cut_u64(x: f64) -> u64
    ensures { result ≡ to_unsigned 64 x }
{
    if x.is_nan() {
        return 0;
    }
    cut_bits(x.to_bits())
}

// x without its fraction, at 32 bits.
pub fn cut_u32(x: f64) -> u32
    ensures { result ≡ to_unsigned 32 x }
{
    u32::try_from(cut_u64(x)).unwrap_or(u32::MAX)
}

// The record that q falls in, of n: the whole number at or below q, brought into 0 .. n - 1.
pub fn record_index(q: f64, n: u64) -> u64
    requires { 1 ≤ n }
    ensures { result ≡ record_of q n }
{
    cut_u64(q).min(n - 1)
}

// Where q falls beside the n records. Only what is below 0 has its whole number below it: -0 has not.
pub fn reach_of(q: f64, n: u64) -> Reach
    requires { 1 ≤ n }
    ensures { result ≡ reach_of q n }
{
    if q < 0.0 {
        return Reach::Before;
    }
    if cut_u64(q) < n {
        return Reach::Inside;
    }
    Reach::After
}

// The double that is n.
fn whole_double(n: u64) -> f64
    requires { n < 2 ^ 31 }
    ensures { result ≡ whole n }
{
    (n as i32) as f64
}

// The double of a bit pattern without its fraction, where it is at least 1 and under 2 ^ 53.
fn cut_whole(bits: u64) -> u64
    requires { (bits ≤ 0x7ff0_0000_0000_0000) × (1023 ≤ bits / 2 ^ 52) × (bits / 2 ^ 52 ≤ 1075) }
    ensures { result ≡ to_unsigned 64 (double_of bits) }
{
    ((bits & 0xf_ffff_ffff_ffff) | 0x10_0000_0000_0000) >> (1075 - (bits >> 52))
}

// The record that q falls in, of n that a signed number of 32 bits holds: comparisons of doubles leave one way through the bits.
pub fn record_of_few(q: f64, n: u64) -> u64
    requires { (1 ≤ n) × (n < 2 ^ 31) }
    ensures { result ≡ record_of q n }
{
    if 1.0 <= q {
        if q < whole_double(n) {
            cut_whole(q.to_bits())
        } else {
            n - 1
        }
    } else {
        0
    }
}

// Where q falls beside so few records: comparisons of doubles alone, and a NaN passes neither.
pub fn reach_of_few(q: f64, n: u64) -> Reach
    requires { (1 ≤ n) × (n < 2 ^ 31) }
    ensures { result ≡ reach_of q n }
{
    if q < 0.0 {
        return Reach::Before;
    }
    if whole_double(n) <= q {
        return Reach::After;
    }
    Reach::Inside
}

// Whether a and b have the same bits, and neither is a NaN.
pub fn same_bits(a: f64, b: f64) -> bool
    ensures { result ≡ same a b }
{
    !a.is_nan() && !b.is_nan() && a.to_bits() == b.to_bits()
}

// Whether the pattern is that of x.
pub fn has_bits(bits: u64, x: f64) -> bool
    requires { finite x ≡ true }
    ensures { result ≡ same (double_of bits) x }
{
    bits == x.to_bits()
}

// Whether the pattern is that of the double that is n.
pub fn has_whole(bits: u64, n: u64) -> bool
    requires { n < 2 ^ 31 }
    ensures { result ≡ same (double_of bits) (whole n) }
{
    has_bits(bits, whole_double(n))
}
