// For each 8 bytes of its input writes a line of hexadecimal numbers: what each function of `bits` makes of them.

#![tactic(auto)]

ghost use Rattle.std.specs.Prelude.{◌+◌, ◌≤◌, ◌<◌, length};

// One hexadecimal digit.
fn digit(n: u8) -> u8
    requires { n < 16 }
{
    if n < 10 { 48 + n } else { 87 + n }
}

// Writes n as 16 digits and a space.
fn put(rt: &HostRuntime, n: u64) {
    let mut line = [32u8; 17];
    let mut left = n;
    for i in (0..16).rev() {
        line[i] = digit((left % 16) as u8);
        left /= 16;
    }
    streams::write(rt, &line, 17);
}

// A signed number, or 0 where it is negative.
fn lifted(n: i32) -> u64 {
    if n < 0 { 0 } else { n as u64 }
}

// Whether x has the bits of 1.0.
fn is_one(x: f64) -> u64 {
    if bits::same_bits(x, 1.0) { 1 } else { 0 }
}

// The line of 8 bytes.
fn line(rt: &HostRuntime, s: &[u8])
    requires { 8 ≤ length s.now }
{
    let x = bits::double_at(s, 0);
    put(rt, bits::le_u64(s, 0));
    put(rt, lifted(bits::le_i32(s, 0)));
    put(rt, bits::cut_u64(x));
    put(rt, bits::cut_u32(x) as u64);
    put(rt, bits::record_index(x, 7));
    put(rt, is_one(x));
    streams::write(rt, b"\n", 1);
}

// The lines of what was read, 8 bytes each; a rest of fewer has none.
fn replay(rt: &HostRuntime, s: &[u8]) {
    for part in s.chunks_exact(8) {
        line(rt, part);
    }
}

fn main(rt: HostRuntime) {
    let mut buf = [0u8; 4096];
    if let Some(n) = streams::read_standard(&rt, &mut buf) {
        replay(&rt, &buf[..n]);
    }
}
