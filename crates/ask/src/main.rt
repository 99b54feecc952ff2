// ask KERNEL QUESTIONS [MATRIX [FRAME]]: puts the questions of a file to an SPK kernel and writes a line for each answer, or the refusal.
// Every file is read before anything is written. A matrix file is none unless it has 72 bytes.

#![tactic(auto)]

ghost use Rattle.std.specs.Prelude.{◌≤◌, ◌+◌, length};
ghost use Rattle.streams.specs.Input.{input_limit};

use admission::MatrixFault;

// What the program takes, on the error output.
fn explain(rt: &HostRuntime) {
    streams::complain(rt, b"usage: ask KERNEL QUESTIONS [MATRIX [FRAME]]\n");
    streams::complain(
        rt,
        b"KERNEL an SPK file, QUESTIONS records of 18 bytes (A5 5B, target, center, epoch), MATRIX nine doubles: J2000 to ECLIPJ2000, FRAME a number (17)\n",
    );
    streams::complain(
        rt,
        b"writes a line for each question: its number, the way, six numbers in km and km/s as bits; or the refusal\n",
    );
}

// Writes the whole output, at once.
fn print(rt: &HostRuntime, kernel: &[u8], asked: &[u8], turned: bool, matrix: &[u8], frame: &[u8])
    requires { length asked.now ≤ input_limit + 1 }
{
    let mut out = [0u8; ask_text::ROOM];
    let end = ask_text::put_output(&mut out, kernel, asked, turned, matrix, frame);
    streams::write(rt, &out, end);
}

// The argument FRAME is no number: that is told on the error output.
fn tell_frame(rt: &HostRuntime, frame: &[u8]) {
    if ask_text::frame_named(frame).is_none() {
        streams::complain(rt, b"FRAME: not a whole number of 32 bits\n");
    }
}

// The same with a matrix file and FRAME. Where one of them is none the output is empty, and why is told on the error output.
fn print_turned(rt: &HostRuntime, kernel: &[u8], asked: &[u8], matrix: &[u8], frame: &[u8])
    requires { length asked.now ≤ input_limit + 1 }
{
    print(rt, kernel, asked, true, matrix, frame);
    match admission::matrix_for(kernel, asked, matrix) {
        Ok(()) => tell_frame(rt, frame),
        Err(MatrixFault::Unfit) => streams::complain(rt, b"MATRIX: not 72 bytes long\n"),
        Err(MatrixFault::TooLong) => {}
    }
}

// Reads FRAME. One that is longer than the buffer is taken for the empty text, which is no number either.
fn with_frame(rt: &HostRuntime, kernel: &[u8], asked: &[u8], matrix: &[u8])
    requires { length asked.now ≤ input_limit + 1 }
{
    let mut text = [0u8; streams::ARGUMENT];
    let n = streams::argument(rt, 4, &mut text).unwrap_or(0);
    print_turned(rt, kernel, asked, matrix, &text[..n]);
}

// The same with FRAME as it is given, or 17 without it.
fn with_matrix(rt: &HostRuntime, kernel: &[u8], asked: &[u8], matrix: &[u8], framed: bool)
    requires { length asked.now ≤ input_limit + 1 }
{
    if framed {
        with_frame(rt, kernel, asked, matrix);
    } else {
        print_turned(rt, kernel, asked, matrix, b"17");
    }
}

// Reads the matrix, if one is given.
fn with_questions(rt: &HostRuntime, kernel: &[u8], asked: &[u8], turned: bool, framed: bool)
    requires { length asked.now ≤ input_limit + 1 }
{
    if turned {
        streams::with_argument(rt, 3, b"MATRIX", |matrix| {
            with_matrix(rt, kernel, asked, matrix, framed)
        });
    } else {
        print(rt, kernel, asked, false, b"", b"17");
    }
}

// Reads the kernel, then the questions.
fn ask(rt: &HostRuntime, turned: bool, framed: bool) {
    streams::with_argument(rt, 1, b"KERNEL", |kernel| {
        streams::with_argument(rt, 2, b"QUESTIONS", |asked| {
            with_questions(rt, kernel, asked, turned, framed)
        })
    });
}

fn main(rt: HostRuntime) {
    let given = streams::argument_count(&rt);
    if 3 <= given && given <= 5 {
        ask(&rt, 4 <= given, given == 5);
    } else {
        explain(&rt);
    }
}
