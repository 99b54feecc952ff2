// replay_wide KERNEL QUESTIONS: what `ask` writes, of a kernel of up to 200,000 bytes. It stands for a host with large kernels: the comparison with the
// Rust puts kernels of up to 4,096 segments through it.

#![tactic(auto)]

ghost use Rattle.std.specs.Prelude.{◌≤◌, ◌+◌, length};
ghost use Rattle.streams.specs.Input.{input_limit};

const ROOM: usize = 200000;

// Writes the reply of a kernel of any length, at once.
fn print(rt: &HostRuntime, kernel: &[u8], asked: &[u8])
    requires { length asked.now ≤ input_limit + 1 }
{
    let mut out = [0u8; ask_text::ROOM];
    let end = ask_text::put_text(&mut out, kernel, asked, b"", frame::ECLIPJ2000);
    streams::write(rt, &out, end);
}

// Reads the kernel, which may be longer than a program takes, then the questions.
fn reply(rt: &HostRuntime) {
    let mut buf = [0u8; ROOM];
    if let Some(n) = streams::read_argument(rt, 1, b"KERNEL", &mut buf) {
        let kernel = &buf[..n];
        streams::with_argument(rt, 2, b"QUESTIONS", |asked| print(rt, kernel, asked));
    }
}

fn main(rt: HostRuntime) {
    if streams::argument_count(&rt) == 3 {
        reply(&rt);
    } else {
        streams::complain(&rt, b"usage: replay_wide KERNEL QUESTIONS\n");
    }
}
