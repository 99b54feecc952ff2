// replay_statement FILES: replays stored usage files, and writes of each what `statement` writes. FILES is a run of blocks: four bytes with a length,
// unsigned, little-endian, then a usage file of that length. tests/vectors/usage.py makes them, and tests/second their lines.

#![tactic(auto)]

ghost use Rattle.std.specs.Prelude.{◌<◌, length, IfSome};

// Writes the output for one usage file.
fn write_output(rt: &HostRuntime, usage: &[u8]) {
    let mut out = [0u8; statement_text::ROOM];
    let end = statement_text::put_output(&mut out, usage);
    streams::write(rt, &out, end);
}

// The usage file of the first block, and what follows the block; none where it is cut short.
fn first_block(s: &[u8]) -> Option<(&[u8], &[u8])>
    ensures { IfSome result (λ p. length p.1.now < length s.now) }
{
    let (len, after) = s.split_first_chunk::<4>()?;
    after.split_at_checked(u32::from_le_bytes(*len) as usize)
}

// Replays the blocks of a file.
fn replay(rt: &HostRuntime, s: &[u8]) {
    let mut rest = s;
    while !rest.is_empty() {
        let Some((usage, next)) = first_block(rest) else {
            streams::complain(rt, b"a block is cut short\n");
            return;
        };
        write_output(rt, usage);
        rest = next;
    }
}

fn main(rt: HostRuntime) {
    streams::with_argument(&rt, 1, b"FILES", |s| replay(&rt, s));
}
