// Lists the segments of the SPK kernel on standard input: how many, then a line each; or the refusal.

#![tactic(auto)]

// Writes the listing of a kernel, or its refusal, at once.
fn print(rt: &HostRuntime, kernel: &[u8]) {
    let mut out = [0u8; listing_text::ROOM];
    let end = listing_text::put_output(&mut out, kernel);
    streams::write(rt, &out, end);
}

fn main(rt: HostRuntime) {
    if streams::argument_count(&rt) != 1 {
        streams::complain(
            &rt,
            b"usage: listing < KERNEL\nKERNEL is an SPK kernel of at most 65536 bytes.\nPrints how many segments it has and a line for each, or the refusal.\n",
        );
        return;
    }
    streams::with_standard(&rt, |kernel| print(&rt, kernel));
}
