// Hermite, straight from the kernel: `hermite_eval` of the Rust. There are two arrays of 64, made once and shared by the three axes: the doubled nodes,
// and a column of divided differences, which the next one overwrites. The coefficient of order k is the first number of column k, so the Newton form is
// summed as the columns are made.

#![tactic(auto)]

ghost use Rattle.std.specs.Prelude.{◌≡◌, ℕ, ◌+◌, ◌*◌, ◌/◌, ◌≤◌, ◌<◌, length};
ghost use Rattle.bits.specs.F64.{at};
ghost use Rattle.bits.specs.Bytes.{every};
ghost use Rattle.hermite.specs.Hermite.{doubled, quotient};
ghost use Rattle.hermite.specs.Steps.{advanced};
ghost use Rattle.hermite.specs.Axes.{hermite_at};
ghost use Rattle.hermite.specs.Steps.{axis_column, axis_table};

use frame::State;

// A value and a derivative.
#[derive(Clone, Copy)]
pub struct Point {
    pub value: f64,
    pub slope: f64,
}

// The Newton form so far: its value and derivative, and the product of the factors with its derivative.
#[derive(Clone, Copy)]
pub struct Newton {
    pub val: f64,
    pub der: f64,
    pub prod: f64,
    pub dprod: f64,
}

// One term more: its coefficient is c, and its new factor u.
fn with_term(s: Newton, c: f64, u: f64) -> Newton
    ensures { result ≡ advanced s c u }
{
    let d = s.prod + u * s.dprod;
    let p = u * s.prod;
    Newton {
        val: s.val + c * p,
        der: s.der + c * d,
        prod: p,
        dprod: d,
    }
}

// The first c epochs from byte e on, each twice, in z.
fn nodes_at(kernel: &[u8], e: usize, c: usize, z: &mut [f64; 64])
    requires { (c ≤ 32) × (e + 8 * c ≤ length kernel.now) × (length z.old ≡ 64) }
    ensures { (length z.new ≡ 64) × ((j : ℕ) → j < c + c → at z.new j ≡ doubled (every 8 kernel.now e) j) }
{
    for i in 0..c {
        let epoch = bits::double_at(kernel, e + 8 * i);
        z[2 * i] = epoch;
        z[2 * i + 1] = epoch;
    }
}

// The first difference at place i, of the values at byte q of each state and the slopes 24 bytes after:
// within a doubled node it is the slope.
fn first_at(kernel: &[u8], q: usize, z: &[f64; 64], i: usize) -> f64
    requires { (i < 63) × (q + 48 * ((i + 1) / 2) + 32 ≤ length kernel.now) }
    ensures { result ≡ axis_column kernel.now q z.now 1 i }
{
    if i % 2 == 0 {
        return bits::double_at(kernel, q + 24 + 48 * (i / 2));
    }
    (bits::double_at(kernel, q + 48 * ((i + 1) / 2)) - bits::double_at(kernel, q + 48 * (i / 2)))
        / (z[i + 1] - z[i])
}

// The column of order 1, in col.
fn first_column(kernel: &[u8], q: usize, z: &[f64; 64], c: usize, col: &mut [f64; 64])
    requires { (c ≤ 32) × (q + 48 * c ≤ length kernel.now + 16) × (length col.old ≡ 64) }
    ensures { (length col.new ≡ 64) × ((i : ℕ) → i + 1 < c + c → at col.new i ≡ axis_column kernel.now q z.now 1 i) }
{
    for i in 0..(c + c).saturating_sub(1) {
        col[i] = first_at(kernel, q, z, i);
    }
}

// The column of order k in place of the one before, from the low end up: place i is the last that reads number i of the old column.
fn next_column(col: &mut [f64; 64], z: &[f64; 64], m: usize, k: usize)
    requires { (1 ≤ k) × (k ≤ m) × (m ≤ 64) × (length col.old ≡ 64) }
    ensures { (length col.new ≡ 64) × ((i : ℕ) → i + k < m → at col.new i ≡ quotient (at col.old) (at z.now) k i) }
{
    for i in 0..m - k {
        col[i] = (col[i + 1] - col[i]) / (z[i + k] - z[i]);
    }
}

// One axis over c doubled nodes z: values at byte q of each state, slopes 24 bytes after. Its columns are made in col, one over the other. Where the arrays
// are made, the compiler knows that they are two.
#[inline(always)]
fn axis_at(kernel: &[u8], q: usize, z: &[f64; 64], c: usize, x: f64, col: &mut [f64; 64]) -> Point
    requires { (1 ≤ c) × (c ≤ 32) × (q + 48 * c ≤ length kernel.now + 16) × (length col.old ≡ 64) }
    ensures { (length col.new ≡ 64) × (result ≡ axis_table kernel.now q z.now c x) }
{
    let m = c + c;
    first_column(kernel, q, z, c, col);
    let first = Newton {
        val: bits::double_at(kernel, q),
        der: 0.0,
        prod: 1.0,
        dprod: 0.0,
    };
    let mut s = with_term(first, col[0], x - z[0]);
    // the orders come in pairs, so that the compiler can tell the columns of an even number of places from those of an odd one
    for j in 1..c {
        next_column(col, z, m, 2 * j);
        s = with_term(s, col[0], x - z[2 * j - 1]);
        next_column(col, z, m, 2 * j + 1);
        s = with_term(s, col[0], x - z[2 * j]);
    }
    Point {
        value: s.val,
        slope: s.der,
    }
}

// Hermite at x over c states from byte q on and their epochs from byte e on.
pub fn hermite_at(kernel: &[u8], q: usize, e: usize, c: usize, x: f64) -> State
    requires { (1 ≤ c) × (c ≤ 32) × (q + 48 * c ≤ length kernel.now) × (e + 8 * c ≤ length kernel.now) }
    ensures { result ≡ hermite_at kernel.now q e c x }
{
    let mut z = [0.0; 64];
    nodes_at(kernel, e, c, &mut z);
    let mut col = [0.0; 64];
    let a = axis_at(kernel, q, &z, c, x, &mut col);
    let b = axis_at(kernel, q + 8, &z, c, x, &mut col);
    let d = axis_at(kernel, q + 16, &z, c, x, &mut col);
    State {
        x: a.value,
        y: b.value,
        z: d.value,
        vx: a.slope,
        vy: b.slope,
        vz: d.slope,
    }
}
