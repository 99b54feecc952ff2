// Chooses and evaluates Chebyshev records, and writes six numbers for each question. A block of the input is a segment: 48 bytes of head, then its records.
// tests/vectors/cheby.py makes the blocks and has the Rust answer them.

#![tactic(auto)]

ghost use Rattle.std.specs.Prelude.{◌≤◌, ◌<◌};

use frame::State;

// Writes the bits of x in 16 hexadecimal digits, or `nan`, and a space.
fn put(rt: &HostRuntime, x: f64) {
    if x != x {
        let _ = rt.print("nan ");
        return;
    }
    let n = f64::to_bits(x);
    let _ = print!(rt; "{n:016x} ");
}

// Writes the six numbers of a line.
fn put_state(rt: &HostRuntime, a: State) {
    for x in [a.x, a.y, a.z, a.vx, a.vy, a.vz] {
        put(rt, x);
    }
    let _ = rt.print("\n");
}

// Writes what a type 2 record gives.
fn put_cheby(rt: &HostRuntime, r: Option<State>) {
    match r {
        Some(a) => put_state(rt, a),
        None => {
            let _ = rt.print("no radius\n");
        }
    }
}

// How many coefficients a record has.
fn coefficients(head: &[u8; 48]) -> usize
    ensures { result < 15 }
{
    (head[1] % 15) as usize
}

// How many records there are.
fn count(head: &[u8; 48]) -> u64
    ensures { (1 ≤ result) × (result ≤ 3) }
{
    (1 + head[2] % 3) as u64
}

// The bytes of a record.
fn size(head: &[u8; 48]) -> usize
    ensures { result ≤ 688 }
{
    let n = coefficients(head);
    if head[0] == 2 {
        16 + 24 * n
    } else {
        16 + 48 * n
    }
}

// Writes the line of an epoch, if all of its record is there.
fn answer(rt: &HostRuntime, head: &[u8; 48], records: &[u8], et: f64) {
    let n = coefficients(head);
    let init = bits::double_at(head, 8);
    let intlen = bits::double_at(head, 16);
    let r = cheby::record_at(init, intlen, et, count(head)).number as usize;
    if head[0] == 2 {
        if let Some(record) = records.chunks_exact(16 + 24 * n).nth(r) {
            put_cheby(rt, cheby::type2_at(record, 0, n, et));
        }
    } else if let Some(record) = records.chunks_exact(16 + 48 * n).nth(r) {
        put_state(rt, cheby::type3_at(record, 0, n, et));
    }
}

// The blocks of the input: a head of type, coefficients and records less one in a byte each, INIT and INTLEN from byte 8 and three epochs from byte 24; then
// the records. A last block whose head is cut short is not answered.
fn replay(rt: &HostRuntime, s: &[u8]) {
    let mut rest = s;
    while let Some((head, records)) = rest.split_first_chunk::<48>() {
        for et in head[24..].chunks_exact(8) {
            answer(rt, head, records, bits::double_at(et, 0));
        }
        let Some((_, next)) = records.split_at_checked(count(head) as usize * size(head)) else {
            return;
        };
        rest = next;
    }
}

fn main(rt: HostRuntime) {
    let mut buf = [0u8; 65536];
    if let Some(n) = streams::read_standard(&rt, &mut buf) {
        replay(&rt, &buf[..n]);
    }
}
