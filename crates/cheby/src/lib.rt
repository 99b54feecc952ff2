// Chebyshev records of types 2 and 3, evaluated straight from the lent kernel's bytes: three series at once, which share the polynomials.
// Operations and their order are those of `cheby3_val_and_deriv` and `cheby3_val_only` of the Rust. There are two ways to the same state: the plain
// one tests each double for a NaN, and the quick one makes one pass over a record first and then takes its doubles as they are.

#![tactic(auto)]

ghost use Rattle.std.specs.Prelude.{◌≡◌, Bool, true, false, ℕ, ◌+◌, ◌-◌, ◌*◌, ◌%◌, ◌^◌, ◌≤◌, ◌<◌, Float, length, Some};
ghost use Rattle.std.specs.Float.Ieee.{is_nan, eq};
ghost use Rattle.bits.specs.F64.{finite, +0};
ghost use Rattle.bits.specs.Bytes.{double_of, double_at, every};
ghost use Rattle.cheby.specs.Cheby.{quotient, chosen_for, series_at, type2_of, type3_of};
ghost use Rattle.cheby.specs.Steps.{all_numbers, all_finite, each, values, slopes, none, scaled, added, joined, begun, turned, six_turned, Summed, SixSummed};

use bits::Reach;
use frame::State;

// The record for an epoch, and where the epoch falls beside the records.
#[derive(Clone, Copy)]
pub struct Chosen {
    pub number: u64,
    pub reach: Reach,
}

// A number for each of three series.
#[derive(Clone, Copy)]
struct Triple {
    x: f64,
    y: f64,
    z: f64,
}

// The values of three series, and their derivatives by s.
#[derive(Clone, Copy)]
struct Both {
    value: Triple,
    slope: Triple,
}

// The sums over the first terms of three series, values and derivatives, with the last two polynomials and their derivatives.
#[derive(Clone, Copy)]
struct Run {
    t0: f64,
    t1: f64,
    d0: f64,
    d1: f64,
    value: Triple,
    slope: Triple,
}

// The same of twice three series, without the derivatives.
#[derive(Clone, Copy)]
struct SixRun {
    t0: f64,
    t1: f64,
    first: Triple,
    second: Triple,
}

// The values of twice three series.
#[derive(Clone, Copy)]
struct Six {
    first: Triple,
    second: Triple,
}

// Four sums, for a pass over doubles four at a time. They need no more than f32, of which a register holds four.
#[derive(Clone, Copy)]
struct Sums {
    a: f32,
    b: f32,
    c: f32,
    d: f32,
}

// A power of two that grows with a pattern's double: the upper eight bits of its exponent are read as those of an f32. It is infinity for a NaN, and
// for an infinity.
fn power_of(bits: u64) -> f32
    ensures { finite result ≡ true → is_nan (double_of bits) ≡ false }
{
    f32::from_bits(((bits >> 32) as u32) % 0x8000_0000 / 0x80_0000 * 0x80_0000)
}

// A sum less the power of the double at byte `at`: finite only where the sum was, and where the double is no NaN.
fn less_power(kept: f32, kernel: &[u8], at: usize) -> f32
    requires { at + 8 ≤ length kernel.now }
    ensures { finite result ≡ true → (finite kept ≡ true) × (is_nan (double_at kernel.now at) ≡ false) }
{
    kept - power_of(bits::le_u64(kernel, at))
}

// The same of four doubles, a sum for each.
fn less_four(z: Sums, kernel: &[u8], at: usize) -> Sums
    requires { at + 32 ≤ length kernel.now }
    ensures { all_finite result ≡ true → (all_finite z ≡ true) × (all_numbers (every 8 kernel.now at) 4 ≡ true) }
{
    Sums {
        a: less_power(z.a, kernel, at),
        b: less_power(z.b, kernel, at + 8),
        c: less_power(z.c, kernel, at + 16),
        d: less_power(z.d, kernel, at + 24),
    }
}

// The same of eight doubles, two from each sum.
fn less_eight(z: Sums, kernel: &[u8], at: usize) -> Sums
    requires { at + 64 ≤ length kernel.now }
    ensures { all_finite result ≡ true → (all_finite z ≡ true) × (all_numbers (every 8 kernel.now at) 8 ≡ true) }
{
    less_four(less_four(z, kernel, at), kernel, at + 32)
}

// All four sums are finite: a finite number less itself is 0, any other a NaN. `&` makes no branch, so that the four are one step.
fn all_finite(z: Sums) -> bool
    ensures { result ≡ true → all_finite z ≡ true }
{
    (0.0 <= z.a - z.a) & (0.0 <= z.b - z.b) & (0.0 <= z.c - z.c) & (0.0 <= z.d - z.d)
}

// None of the m doubles from byte p on is a NaN: one pass without a branch, eight at a time, the last eight once more. Where a power or a sum is
// infinity without one, it says no as well; the plain way is then gone. Each type of record has its own copy of the pass: it is no call.
#[inline(always)]
fn all_clear(kernel: &[u8], p: usize, m: usize) -> bool
    requires { (8 ≤ m) × (p + 8 * m ≤ length kernel.now) }
    ensures { result ≡ true → all_numbers (every 8 kernel.now p) m ≡ true }
{
    let mut z = Sums {
        a: 0.0,
        b: 0.0,
        c: 0.0,
        d: 0.0,
    };
    for i in 0..(m - 1) / 8 {
        z = less_eight(z, kernel, p + 64 * i);
    }
    all_finite(less_eight(z, kernel, p + 8 * m - 64))
}

// The double at byte `at`, which is known to be no NaN.
fn clear_at(kernel: &[u8], at: usize) -> f64
    requires { (at + 8 ≤ length kernel.now) × (is_nan (double_at kernel.now at) ≡ false) }
    ensures { result ≡ double_at kernel.now at }
{
    f64::from_bits(bits::le_u64(kernel, at))
}

// The coefficients of order k of the three series of n coefficients from byte p on.
fn row_at(kernel: &[u8], p: usize, n: usize, k: usize) -> Triple
    requires { (k < n) × (p + 24 * n ≤ length kernel.now) }
    ensures { result ≡ each (λ f. f k) kernel.now p n }
{
    Triple {
        x: bits::double_at(kernel, p + 8 * k),
        y: bits::double_at(kernel, p + 8 * n + 8 * k),
        z: bits::double_at(kernel, p + 16 * n + 8 * k),
    }
}

// Three series of n coefficients each, one after the other from byte `at` of the kernel on, of which none is a NaN. There are two or more in each.
#[derive(Clone, Copy)]
struct ClearSeries<'a> {
    kernel: &'a [u8],
    at: usize,
    n: usize,
    ghost fits: { at + 24 * n ≤ length kernel.now },
    ghost two: { 2 ≤ n },
    ghost clear: { all_numbers (every 8 kernel.now at) (3 * n) ≡ true },
}

// Six such series, one after the other.
#[derive(Clone, Copy)]
struct SixSeries<'a> {
    kernel: &'a [u8],
    at: usize,
    n: usize,
    ghost fits: { at + 48 * n ≤ length kernel.now },
    ghost two: { 2 ≤ n },
    ghost clear: { all_numbers (every 8 kernel.now at) (6 * n) ≡ true },
}

// Three times +0.
fn zeros() -> Triple
    ensures { result ≡ none }
{
    Triple {
        x: 0.0,
        y: 0.0,
        z: 0.0,
    }
}

// Three coefficients times a polynomial.
fn times(c: Triple, t: f64) -> Triple
    ensures { result ≡ scaled c t }
{
    Triple {
        x: c.x * t,
        y: c.y * t,
        z: c.z * t,
    }
}

// Three sums with one term more.
fn plus(sum: Triple, c: Triple, t: f64) -> Triple
    ensures { result ≡ added sum c t }
{
    Triple {
        x: sum.x + c.x * t,
        y: sum.y + c.y * t,
        z: sum.z + c.z * t,
    }
}

// The values of fewer than two coefficients, the same at every s: the one coefficient, or +0.
fn val_of_few(kernel: &[u8], p: usize, n: usize) -> Triple
    requires { (n < 2) × (p + 24 * n ≤ length kernel.now) }
    ensures { (s : Float) → result ≡ values kernel.now p n s }
{
    if n == 0 {
        zeros()
    } else {
        row_at(kernel, p, n, 0)
    }
}

// The first two terms.
fn begun(c0: Triple, c1: Triple, s: f64) -> Run
    ensures { result ≡ begun c0 c1 s }
{
    Run {
        t0: 1.0,
        t1: s,
        d0: 0.0,
        d1: 1.0,
        value: plus(times(c0, 1.0), c1, s),
        slope: times(c1, 1.0),
    }
}

// One term more, with these coefficients; `twice` is 2s.
fn turned(z: Run, c: Triple, twice: f64) -> Run
    ensures { result ≡ turned z c twice }
{
    let t = twice * z.t1 - z.t0;
    let d = 2.0 * z.t1 + twice * z.d1 - z.d0;
    Run {
        t0: z.t1,
        t1: t,
        d0: z.d1,
        d1: d,
        value: plus(z.value, c, t),
        slope: plus(z.slope, c, d),
    }
}

// The three series of n coefficients from byte p on, with their derivatives by s.
fn val_and_deriv(kernel: &[u8], p: usize, n: usize, s: f64) -> Both
    requires { p + 24 * n ≤ length kernel.now }
    ensures { (result.value ≡ values kernel.now p n s) × (result.slope ≡ slopes kernel.now p n s) }
{
    if n < 2 {
        return Both {
            value: val_of_few(kernel, p, n),
            slope: zeros(),
        };
    }
    let mut z = begun(row_at(kernel, p, n, 0), row_at(kernel, p, n, 1), s);
    let twice = 2.0 * s;
    for k in 2..n {
        z = turned(z, row_at(kernel, p, n, k), twice);
    }
    Both {
        value: z.value,
        slope: z.slope,
    }
}

impl ClearSeries<'_> {
    // The coefficients of order k.
    fn row(self, k: usize) -> Triple
        requires { k < self.n }
        ensures { result ≡ each (λ f. f k) self.entry.kernel.now self.entry.at self.entry.n }
    {
        Triple {
            x: clear_at(self.kernel, self.at + 8 * k),
            y: clear_at(self.kernel, self.at + 8 * self.n + 8 * k),
            z: clear_at(self.kernel, self.at + 16 * self.n + 8 * k),
        }
    }

    // The first terms: so many that those left are a multiple of four.
    fn first_terms(self, s: f64) -> Run
        ensures { Summed self.entry.kernel.now self.entry.at self.entry.n s ((self.entry.n - 2) % 4) result }
    {
        let mut z = begun(self.row(0), self.row(1), s);
        let twice = 2.0 * s;
        for k in 2..2 + (self.n - 2) % 4 {
            z = turned(z, self.row(k), twice);
        }
        z
    }

    // The values at s, with their derivatives by s, four terms at a time: the last two polynomials then change places in no register.
    fn val_and_deriv(self, s: f64) -> Both
        ensures { (result.value ≡ values self.entry.kernel.now self.entry.at self.entry.n s) × (result.slope ≡ slopes self.entry.kernel.now self.entry.at self.entry.n s) }
    {
        let mut z = self.first_terms(s);
        let twice = 2.0 * s;
        for i in 0..(self.n - 2) / 4 {
            let k = 2 + (self.n - 2) % 4 + 4 * i;
            z = turned(z, self.row(k), twice);
            z = turned(z, self.row(k + 1), twice);
            z = turned(z, self.row(k + 2), twice);
            z = turned(z, self.row(k + 3), twice);
        }
        Both {
            value: z.value,
            slope: z.slope,
        }
    }

    // The first two terms, without the derivatives.
    fn two_terms(self, s: f64) -> Triple
        ensures { result ≡ each (λ f. series_at f 2 s) self.entry.kernel.now self.entry.at self.entry.n }
    {
        plus(times(self.row(0), 1.0), self.row(1), s)
    }
}

// One term more of six series.
fn six_turned(z: SixRun, c: Triple, e: Triple, twice: f64) -> SixRun
    ensures { result ≡ six_turned z c e twice }
{
    let t = twice * z.t1 - z.t0;
    SixRun {
        t0: z.t1,
        t1: t,
        first: plus(z.first, c, t),
        second: plus(z.second, e, t),
    }
}

impl<'a> SixSeries<'a> {
    // The first three of them.
    fn first(self) -> ClearSeries<'a>
        ensures { (result.kernel.now ≡ self.entry.kernel.now) × (result.at ≡ self.entry.at) × (result.n ≡ self.entry.n) }
    {
        ClearSeries {
            kernel: self.kernel,
            at: self.at,
            n: self.n,
        }
    }

    // The last three.
    fn second(self) -> ClearSeries<'a>
        ensures { (result.kernel.now ≡ self.entry.kernel.now) × (result.at ≡ self.entry.at + 24 * self.entry.n) × (result.n ≡ self.entry.n) }
    {
        ClearSeries {
            kernel: self.kernel,
            at: self.at + 24 * self.n,
            n: self.n,
        }
    }

    // The coefficients of order k, as one term more.
    fn turned(self, z: SixRun, k: usize, twice: f64) -> SixRun
        requires { k < self.n }
        ensures { result ≡ six_turned z (each (λ f. f k) self.entry.kernel.now self.entry.at self.entry.n) (each (λ f. f k) self.entry.kernel.now (self.entry.at + 24 * self.entry.n) self.entry.n) twice }
    {
        six_turned(z, self.first().row(k), self.second().row(k), twice)
    }

    // The first terms: so many that those left are a multiple of four.
    fn first_terms(self, s: f64) -> SixRun
        ensures { SixSummed self.entry.kernel.now self.entry.at (self.entry.at + 24 * self.entry.n) self.entry.n s ((self.entry.n - 2) % 4) result }
    {
        let mut z = SixRun {
            t0: 1.0,
            t1: s,
            first: self.first().two_terms(s),
            second: self.second().two_terms(s),
        };
        let twice = 2.0 * s;
        for k in 2..2 + (self.n - 2) % 4 {
            z = self.turned(z, k, twice);
        }
        z
    }

    // The values at s, without the derivatives: four terms at a time.
    fn val(self, s: f64) -> Six
        ensures { (result.first ≡ values self.entry.kernel.now self.entry.at self.entry.n s) × (result.second ≡ values self.entry.kernel.now (self.entry.at + 24 * self.entry.n) self.entry.n s) }
    {
        let mut z = self.first_terms(s);
        let twice = 2.0 * s;
        for i in 0..(self.n - 2) / 4 {
            let k = 2 + (self.n - 2) % 4 + 4 * i;
            z = self.turned(z, k, twice);
            z = self.turned(z, k + 1, twice);
            z = self.turned(z, k + 2, twice);
            z = self.turned(z, k + 3, twice);
        }
        Six {
            first: z.first,
            second: z.second,
        }
    }
}

// How many intervals et lies after init.
fn quotient(init: f64, intlen: f64, et: f64) -> f64
    ensures { result ≡ quotient init intlen et }
{
    (et - init) / intlen
}

// The record for et, of n that begin at init and are intlen long each; one division says where et falls too.
pub fn record_at(init: f64, intlen: f64, et: f64, n: u64) -> Chosen
    requires { 1 ≤ n }
    ensures { result ≡ chosen_for init intlen et n }
{
    let q = quotient(init, intlen, et);
    Chosen {
        number: bits::record_index(q, n),
        reach: bits::reach_of(q, n),
    }
}

// The same where a signed number of 32 bits holds n.
pub fn record_of_few(init: f64, intlen: f64, et: f64, n: u64) -> Chosen
    requires { (1 ≤ n) × (n < 2 ^ 31) }
    ensures { result ≡ chosen_for init intlen et n }
{
    let q = quotient(init, intlen, et);
    Chosen {
        number: bits::record_of_few(q, n),
        reach: bits::reach_of_few(q, n),
    }
}

// A state of a position and a velocity.
fn joined(p: Triple, v: Triple) -> State
    ensures { result ≡ joined p v }
{
    State {
        x: p.x,
        y: p.y,
        z: p.z,
        vx: v.x,
        vy: v.y,
        vz: v.z,
    }
}

// RADIUS of the record at byte p is +0 or -0.
pub fn no_radius(kernel: &[u8], p: usize) -> bool
    requires { p + 16 ≤ length kernel.now }
    ensures { result ≡ eq (double_at kernel.now (p + 8)) +0 }
{
    bits::double_at(kernel, p + 8) == 0.0
}

// The state of the type 2 record at byte p, with n coefficients in each series, whose RADIUS isn't zero.
fn state2_any(kernel: &[u8], p: usize, n: usize, et: f64) -> State
    requires { (p + 8 * (2 + 3 * n) ≤ length kernel.now) × (eq (double_at kernel.now (p + 8)) +0 ≡ false) }
    ensures { Some result ≡ type2_of kernel.now p n et }
{
    let mid = bits::double_at(kernel, p);
    let radius = bits::double_at(kernel, p + 8);
    let r = val_and_deriv(kernel, p + 16, n, (et - mid) / radius);
    joined(r.value, times(r.slope, 1.0 / radius))
}

// The same where none of the record's doubles is a NaN.
fn state2_clear(kernel: &[u8], p: usize, n: usize, et: f64) -> State
    requires { (2 ≤ n) × (p + 8 * (2 + 3 * n) ≤ length kernel.now) × (eq (double_at kernel.now (p + 8)) +0 ≡ false) × (all_numbers (every 8 kernel.now p) (2 + 3 * n) ≡ true) }
    ensures { Some result ≡ type2_of kernel.now p n et }
{
    let mid = clear_at(kernel, p);
    let radius = clear_at(kernel, p + 8);
    let series = ClearSeries {
        kernel,
        at: p + 16,
        n,
    };
    let v = series.val_and_deriv((et - mid) / radius);
    joined(v.value, times(v.slope, 1.0 / radius))
}

// The same, by the quick way where that is open.
pub fn state2_at(kernel: &[u8], p: usize, n: usize, et: f64) -> State
    requires { (p + 8 * (2 + 3 * n) ≤ length kernel.now) × (eq (double_at kernel.now (p + 8)) +0 ≡ false) }
    ensures { Some result ≡ type2_of kernel.now p n et }
{
    if n < 2 {
        return state2_any(kernel, p, n, et);
    }
    if all_clear(kernel, p, 2 + 3 * n) {
        return state2_clear(kernel, p, n, et);
    }
    state2_any(kernel, p, n, et)
}

// The type 2 record at byte p, of SPK or PCK, with n coefficients in each series: no state where RADIUS is +0 or -0.
pub fn type2_at(kernel: &[u8], p: usize, n: usize, et: f64) -> Option<State>
    requires { p + 8 * (2 + 3 * n) ≤ length kernel.now }
    ensures { result ≡ type2_of kernel.now p n et }
{
    if no_radius(kernel, p) {
        return None;
    }
    Some(state2_any(kernel, p, n, et))
}

// The type 3 record at byte p: the velocity has series of its own, after those of the position.
pub fn type3_at(kernel: &[u8], p: usize, n: usize, et: f64) -> State
    requires { p + 8 * (2 + 6 * n) ≤ length kernel.now }
    ensures { result ≡ type3_of kernel.now p n et }
{
    let mid = bits::double_at(kernel, p);
    let radius = bits::double_at(kernel, p + 8);
    let s = (et - mid) / radius;
    let pos = val_and_deriv(kernel, p + 16, n, s);
    let vel = val_and_deriv(kernel, p + 16 + 24 * n, n, s);
    joined(pos.value, vel.value)
}

// The same where none of the record's doubles is a NaN.
fn state3_clear(kernel: &[u8], p: usize, n: usize, et: f64) -> State
    requires { (2 ≤ n) × (p + 8 * (2 + 6 * n) ≤ length kernel.now) × (all_numbers (every 8 kernel.now p) (2 + 6 * n) ≡ true) }
    ensures { result ≡ type3_of kernel.now p n et }
{
    let mid = clear_at(kernel, p);
    let radius = clear_at(kernel, p + 8);
    let series = SixSeries {
        kernel,
        at: p + 16,
        n,
    };
    let r = series.val((et - mid) / radius);
    joined(r.first, r.second)
}

// The same, by the quick way where that is open.
pub fn state3_at(kernel: &[u8], p: usize, n: usize, et: f64) -> State
    requires { p + 8 * (2 + 6 * n) ≤ length kernel.now }
    ensures { result ≡ type3_of kernel.now p n et }
{
    if n < 2 {
        return type3_at(kernel, p, n, et);
    }
    if all_clear(kernel, p, 2 + 6 * n) {
        return state3_clear(kernel, p, n, et);
    }
    type3_at(kernel, p, n, et)
}
