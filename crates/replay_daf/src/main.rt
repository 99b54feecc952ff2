// Opens each kernel of its input as an SPK and as a PCK, and writes what that results in, and the name after the first summary record.
// The input is kernel after kernel, each after its length in four bytes.

#![tactic(auto)]

use daf::{Daf, Family};
use refusal::Refusal;

// A number and a space.
fn put(rt: &HostRuntime, n: u64) {
    let _ = print!(rt; "{n} ");
}

// The name after record r.
fn put_name(rt: &HostRuntime, kernel: &[u8], r: u32) {
    let name = daf::name(kernel, Daf::RECORD * (r as usize));
    let _ = rt.print("[");
    let _ = rt.write_all(name);
    let _ = rt.println("]");
}

fn put_refusal(rt: &HostRuntime, refusal: Refusal) {
    let n = refusal.number();
    let _ = println!(rt; "refused {n}");
}

fn put_opened(rt: &HostRuntime, kernel: &[u8], family: Family) {
    let opened = daf::open(kernel, family, 256);
    match opened {
        Err(refusal) => put_refusal(rt, refusal),
        Ok(d) => {
            let first = d.first;
            put(rt, first as u64);
            put(rt, d.records as u64);
            put(rt, d.summaries as u64);
            put_name(rt, kernel, first);
        }
    }
}

// The kernels of the input. A last one that is cut short is not opened.
fn replay(rt: &HostRuntime, s: &[u8]) {
    let mut rest = s;
    while let Some((len, after)) = rest.split_first_chunk::<4>() {
        let Some((kernel, next)) = after.split_at_checked(u32::from_le_bytes(*len) as usize) else {
            return;
        };
        put_opened(rt, kernel, Family::Spk);
        put_opened(rt, kernel, Family::Pck);
        rest = next;
    }
}

fn main(rt: HostRuntime) {
    let mut buf = [0u8; 196608];
    if let Some(n) = streams::read_standard(&rt, &mut buf) {
        replay(&rt, &buf[..n]);
    }
}
