// Runs types 9 and 13 on blocks from standard input and writes, for each, where the window starts and the bits of the six numbers. The blocks and
// the answers of the given Rust to them, the files `stdin` and `stdout`, are made by tests/vectors/interp.py.

#![tactic(auto)]

ghost use Rattle.std.specs.Prelude.{◌*◌, ◌≤◌, length};

// The bits of x in 16 hexadecimal digits, after a space. A NaN has no bits of its own.
fn show(rt: &HostRuntime, x: f64) {
    if x != x {
        let _ = rt.print(" nan");
        return;
    }
    let n = f64::to_bits(x);
    let _ = print!(rt; " {n:016x}");
}

// A line for a window and a state.
fn line(rt: &HostRuntime, start: usize, s: frame::State) {
    let _ = print!(rt; "{start}");
    for x in [s.x, s.y, s.z, s.vx, s.vy, s.vz] {
        show(rt, x);
    }
    let _ = rt.print("\n");
}

// A block of n states: its head has the count, the type, from byte 8 the degree and from 16 the epoch; then come the states and their epochs.
fn block(rt: &HostRuntime, head: &[u8; 24], states: &[u8], n: usize)
    requires { 56 * n ≤ length states.now }
{
    let degree = bits::le_u64(head, 8);
    let et = bits::double_at(head, 16);
    if n == 0 || interp::window_size(degree, n as u64) > 32 {
        return;
    }
    let start = interp::window_at(states, 0, n, degree, et);
    let s = if head[1] == 9 {
        interp::type9_at(states, 0, n, degree, et)
    } else {
        interp::type13_at(states, 0, n, degree, et)
    };
    line(rt, start, s);
}

// The blocks of the input. A last one that is cut short is not answered.
fn replay(rt: &HostRuntime, s: &[u8]) {
    let mut rest = s;
    while let Some((head, after)) = rest.split_first_chunk::<24>() {
        let n = head[0] as usize;
        let Some((states, next)) = after.split_at_checked(56 * n) else {
            return;
        };
        block(rt, head, states, n);
        rest = next;
    }
}

fn main(rt: HostRuntime) {
    let mut buf = [0u8; 131072];
    if let Some(n) = streams::read_standard(&rt, &mut buf) {
        replay(&rt, &buf[..n]);
    }
}
