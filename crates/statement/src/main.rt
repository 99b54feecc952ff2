// Prints the statement of the usage file on standard input: a line for each supplier, then the total; or the refusal.

#![tactic(auto)]

// Writes the statement of a usage file, or its refusal, at once.
fn print(rt: &HostRuntime, usage: &[u8]) {
    let mut out = [0u8; statement_text::ROOM];
    let end = statement_text::put_output(&mut out, usage);
    streams::write(rt, &out, end);
}

fn main(rt: HostRuntime) {
    if streams::argument_count(&rt) != 1 {
        streams::complain(
            &rt,
            b"usage: statement < USAGE\nUSAGE is a usage file of at most 65536 bytes, in records of 8 bytes.\nPrints a line for each supplier and the total, or the refusal.\n",
        );
        return;
    }
    streams::with_standard(&rt, |usage| print(&rt, usage));
}
