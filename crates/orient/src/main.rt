// orient KERNEL QUESTIONS: puts the questions of a file to a PCK kernel and writes a line for each orientation, or the refusal.
// Both files are read before anything is written.

#![tactic(auto)]

ghost use Rattle.std.specs.Prelude.{◌≤◌, ◌+◌, length};
ghost use Rattle.streams.specs.Input.{input_limit};

// What the program takes, on the error output.
fn explain(rt: &HostRuntime) {
    streams::complain(rt, b"usage: orient KERNEL QUESTIONS\n");
    streams::complain(
        rt,
        b"KERNEL a binary PCK file, QUESTIONS records of 14 bytes (A5 5C, body frame, epoch)\n",
    );
    streams::complain(
        rt,
        b"writes a line for each question: its number, the reference frame, six numbers in radians and radians/s as bits; or the refusal\n",
    );
}

// Writes the whole output, at once.
fn print(rt: &HostRuntime, kernel: &[u8], asked: &[u8])
    requires { length asked.now ≤ input_limit + 1 }
{
    let mut out = [0u8; orient_text::ROOM];
    let end = orient_text::put_output(&mut out, kernel, asked);
    streams::write(rt, &out, end);
}

// Reads the kernel, then the questions.
fn orient(rt: &HostRuntime) {
    streams::with_argument(rt, 1, b"KERNEL", |kernel| {
        streams::with_argument(rt, 2, b"QUESTIONS", |asked| print(rt, kernel, asked))
    });
}

fn main(rt: HostRuntime) {
    if streams::argument_count(&rt) == 3 {
        orient(&rt);
    } else {
        explain(&rt);
    }
}
