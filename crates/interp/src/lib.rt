// Types 9 and 13: the search for an epoch, the window around it, Lagrange, and Hermite of the crate `hermite`.

#![tactic(auto)]

mod lagrange;

ghost use Rattle.std.specs.Prelude.{◌≡◌, ◌+◌, ◌*◌, ◌-◌, ◌≤◌, ◌<◌, min, length};
ghost use Rattle.interp.specs.Window.{left_at, window_size, window_start};
ghost use Rattle.interp.specs.Discrete.{window_at, reach_at, type9_of, type13_of};
ghost use Rattle.interp.specs.Steps.{records_of};

use bits::Reach;
use frame::State;
use hermite::hermite_at;
use lagrange::lagrange_at;

// The records of a window: the bytes where their states and their epochs start, and how many there are.
#[derive(Clone, Copy)]
struct Records {
    states: usize,
    epochs: usize,
    count: usize,
}

// How many records a window has: degree + 1, or n where there are no more.
#[tactic(auto, unfolding(crate::specs::Window::window_size))]
pub fn window_size(degree: u64, n: u64) -> u64
    ensures { result ≡ window_size degree n }
{
    degree.saturating_add(1).min(n)
}

// Where the window of c records around the place l starts, of n.
#[tactic(auto, unfolding(crate::specs::Window::window_start))]
pub fn window_start(l: usize, c: usize, n: usize) -> usize
    requires { (1 ≤ c) × (c ≤ n) }
    ensures { result ≡ window_start l c n }
{
    l.saturating_sub((c - 1) / 2).min(n - c)
}

// The place that the search for et finds among n epochs from byte p on, whatever they are.
pub fn left_at(kernel: &[u8], p: usize, n: usize, et: f64) -> usize
    requires { p + 8 * n ≤ length kernel.now }
    ensures { result ≡ left_at kernel.now p n et }
{
    let mut lo: usize = 0;
    let mut hi = n;
    while lo < hi {
        let mid = (lo + hi) / 2;
        if bits::double_at(kernel, p + 8 * mid) <= et {
            lo = mid + 1;
        } else {
            hi = mid;
        }
    }
    // lo is the first place whose epoch is above et, where they rise
    lo.saturating_sub(1)
}

// Where the window for et starts, in a segment of n states from byte p on and their epochs after them.
pub fn window_at(kernel: &[u8], p: usize, n: usize, degree: u64, et: f64) -> usize
    requires { (1 ≤ n) × (p + 56 * n ≤ length kernel.now) }
    ensures { result ≡ window_at kernel.now p n degree et }
{
    let l = left_at(kernel, p + 48 * n, n, et);
    window_start(l, window_size(degree, n as u64) as usize, n)
}

// Where et falls beside the epochs of such a segment.
pub fn reach_at(kernel: &[u8], p: usize, n: usize, et: f64) -> Reach
    requires { (1 ≤ n) × (p + 56 * n ≤ length kernel.now) }
    ensures { result ≡ reach_at kernel.now p n et }
{
    if !(bits::double_at(kernel, p + 48 * n) <= et) {
        return Reach::Before;
    }
    if bits::double_at(kernel, p + 48 * n + 8 * (n - 1)) < et {
        return Reach::After;
    }
    Reach::Inside
}

// The window for et in such a segment.
#[tactic(auto, using(crate::proofs::Window::window_inside, crate::proofs::Window::size_some))]
fn records_at(kernel: &[u8], p: usize, n: usize, degree: u64, et: f64) -> Records
    requires { (1 ≤ n) × (p + 56 * n ≤ length kernel.now) }
    ensures value { result ≡ records_of kernel.now p n degree et }
    ensures inside { (1 ≤ result.count) × (result.count ≡ window_size degree n) × (result.states + 48 * result.count ≤ length kernel.now) × (result.epochs + 8 * result.count ≤ length kernel.now) }
{
    let first = window_at(kernel, p, n, degree, et);
    Records {
        states: p + 48 * first,
        epochs: p + 48 * n + 8 * first,
        count: window_size(degree, n as u64) as usize,
    }
}

// A type 9 segment at et: Lagrange over the window.
pub fn type9_at(kernel: &[u8], p: usize, n: usize, degree: u64, et: f64) -> State
    requires { (1 ≤ n) × (window_size degree n ≤ 32) × (p + 56 * n ≤ length kernel.now) }
    ensures { result ≡ type9_of kernel.now p n degree et }
{
    let w = records_at(kernel, p, n, degree, et);
    lagrange_at(kernel, w.states, w.epochs, w.count, et)
}

// A type 13 segment at et: Hermite over the window.
pub fn type13_at(kernel: &[u8], p: usize, n: usize, degree: u64, et: f64) -> State
    requires { (1 ≤ n) × (window_size degree n ≤ 32) × (p + 56 * n ≤ length kernel.now) }
    ensures { result ≡ type13_of kernel.now p n degree et }
{
    let w = records_at(kernel, p, n, degree, et);
    hermite_at(kernel, w.states, w.epochs, w.count, et)
}
