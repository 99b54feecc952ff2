// Lagrange, straight from the kernel: `lagrange_eval` of the Rust, for six numbers at once. The weights depend on the epochs alone, so they are
// worked out once for the six.

ghost use Rattle.std.specs.Prelude.{◌≡◌, ℕ, ◌+◌, ◌*◌, ◌≤◌, ◌<◌, length, position, take};
ghost use Rattle.std.specs.Float.Ieee.{eq};
ghost use Rattle.bits.specs.F64.{at};
ghost use Rattle.bits.specs.Bytes.{every};
ghost use Rattle.interp.specs.Lagrange.{weight_of, blend_of};
ghost use Rattle.interp.specs.Discrete.{six, lagrange_at};
ghost use Rattle.interp.specs.Steps.{with_share, over_all};

use frame::State;

// The first c epochs from byte e on.
fn epochs_at(kernel: &[u8], e: usize, c: usize) -> [f64; 32]
    requires { (c ≤ 32) × (e + 8 * c ≤ length kernel.now) }
    ensures { (j : ℕ) → j < c → at result j ≡ every 8 kernel.now e j }
{
    let mut xs = [0.0; 32];
    for i in 0..c {
        xs[i] = bits::double_at(kernel, e + 8 * i);
    }
    xs
}

// The first of c nodes that equals x.
fn node_at(xs: &[f64; 32], c: usize, x: f64) -> Option<usize>
    requires { c ≤ 32 }
    ensures { result ≡ position (λ v. eq v x) (take c xs.now) }
{
    xs[..c].iter().position(|v| *v == x)
}

// The weight of node i among c.
fn weight(xs: &[f64; 32], c: usize, i: usize) -> f64
    requires { (c ≤ 32) × (i < 32) }
    ensures { result ≡ weight_of (at xs.now) c i }
{
    let own = xs[i];
    let mut w = 1.0;
    for j in 0..c {
        if i != j {
            w *= own - xs[j];
        }
    }
    1.0 / w
}

// State i of those from byte q on.
fn state_at(kernel: &[u8], q: usize, i: usize) -> State
    requires { q + 48 * i + 48 ≤ length kernel.now }
    ensures { result ≡ six (λ b. every 48 kernel.now b i) q }
{
    let at = 48 * i;
    State {
        x: bits::double_at(kernel, q + at),
        y: bits::double_at(kernel, q + 8 + at),
        z: bits::double_at(kernel, q + 16 + at),
        vx: bits::double_at(kernel, q + 24 + at),
        vy: bits::double_at(kernel, q + 32 + at),
        vz: bits::double_at(kernel, q + 40 + at),
    }
}

// A node's share of its state, added to each sum.
fn with_share(sum: State, share: f64, y: State) -> State
    ensures { result ≡ with_share sum share y }
{
    State {
        x: sum.x + share * y.x,
        y: sum.y + share * y.y,
        z: sum.z + share * y.z,
        vx: sum.vx + share * y.vx,
        vy: sum.vy + share * y.vy,
        vz: sum.vz + share * y.vz,
    }
}

// Each of six sums over the shares' sum.
fn over_all(sum: State, all: f64) -> State
    ensures { result ≡ over_all sum all }
{
    State {
        x: sum.x / all,
        y: sum.y / all,
        z: sum.z / all,
        vx: sum.vx / all,
        vy: sum.vy / all,
        vz: sum.vz / all,
    }
}

// The barycentric sums at x over c nodes and the states from byte q on.
fn blend(kernel: &[u8], q: usize, xs: &[f64; 32], c: usize, x: f64) -> State
    requires { (c ≤ 32) × (q + 48 * c ≤ length kernel.now) }
    ensures { result ≡ six (λ b. blend_of (at xs.now) (every 48 kernel.now b) c x) q }
{
    let mut sum = State::zero();
    let mut all = 0.0;
    for i in 0..c {
        let share = weight(xs, c, i) / (x - xs[i]);
        sum = with_share(sum, share, state_at(kernel, q, i));
        all += share;
    }
    over_all(sum, all)
}

// Lagrange at x over c states from byte q on and their epochs from byte e on: the stored state where x is an epoch.
pub fn lagrange_at(kernel: &[u8], q: usize, e: usize, c: usize, x: f64) -> State
    requires { (c ≤ 32) × (q + 48 * c ≤ length kernel.now) × (e + 8 * c ≤ length kernel.now) }
    ensures { result ≡ lagrange_at kernel.now q e c x }
{
    let xs = epochs_at(kernel, e, c);
    match node_at(&xs, c, x) {
        Some(i) => state_at(kernel, q, i),
        None => blend(kernel, q, &xs, c, x),
    }
}
