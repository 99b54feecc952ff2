// What a program reads and writes: the files that its arguments name, standard input and output, and the error output.
// No contract can speak of the bytes that come in or go out: these say only how much of a buffer was filled.

#![tactic(auto)]

ghost use Rattle.std.specs.Prelude.{◌≡◌, ◌≤◌, ltb, length, IfSome, IfOk};
ghost use Rattle.io.specs.Counts.{IsPrefixLen};
ghost use Rattle.streams.specs.Input.{input_limit, TakesInput, GaveOfInput};

use lines::Page;
use refusal::Refusal;
use std::env::{Env, FillError};
use std::fs::File;
use std::io;
use std::io::{Print, Read};

// The most bytes of a program's input.
pub const LIMIT: usize = 65536;

// A buffer for one file: one byte more than a program takes, so that a longer file shows.
pub const ROOM: usize = LIMIT + 1;

// The most bytes of an argument, which is as long as any path.
pub const ARGUMENT: usize = 4096;

// The system's numbers for an argument that isn't there, and for one that is longer than that.
const MISSING: i32 = 22;

const TOO_LONG: i32 = 36;

// A program's input of this length is over the limit (18).
pub fn too_long(n: usize) -> bool
    ensures { result ≡ ltb input_limit n }
{
    LIMIT < n
}

// Reads until the buffer is full or the input ends.
fn fill<R: Read>(source: &mut R, buf: &mut [u8]) -> io::Result<usize>
    ensures { IfOk result (λ n. IsPrefixLen n buf.new) }
{
    let mut n: usize = 0;
    while n < buf.len() {
        let more = source.read(&mut buf[n..])?;
        if more == 0 {
            return Ok(n);
        }
        n += more;
    }
    Ok(n)
}

// Writes a line to the error output: what failed, a colon and the system's reason.
fn tell(rt: &HostRuntime, what: &[u8], error: io::Error) {
    complain(rt, what);
    let _ = rt.stderr().print(": ");
    let _ = rt.stderr().println(error);
}

// How many bytes were read; none where it failed, which a line on the error output says.
fn input_of(rt: &HostRuntime, what: &[u8], buf: &[u8], read: io::Result<usize>) -> Option<usize>
    requires { IfOk read (λ n. IsPrefixLen n buf.now) }
    ensures { IfSome result (λ n. IsPrefixLen n buf.now) }
{
    match read {
        Ok(n) => Some(n),
        Err(error) => {
            tell(rt, what, error);
            None
        }
    }
}

// Reads standard input, and answers how many bytes there were; none where it failed, which a line on the error output says.
pub fn read_standard(rt: &HostRuntime, buf: &mut [u8]) -> Option<usize>
    ensures { IfSome result (λ n. IsPrefixLen n buf.new) }
{
    let read = fill(&mut rt.stdin(), buf);
    input_of(rt, b"standard input", buf, read)
}

// Opens the file of this name and reads it.
fn load(rt: &HostRuntime, name: &str, buf: &mut [u8]) -> io::Result<usize>
    ensures { IfOk result (λ n. IsPrefixLen n buf.new) }
{
    let mut file = File::open(rt, name)?;
    fill(&mut file, buf)
}

// Reads the file of this name, which is text in UTF-8.
fn read_file(rt: &HostRuntime, name: &[u8], buf: &mut [u8]) -> Option<usize>
    ensures { IfSome result (λ n. IsPrefixLen n buf.new) }
{
    match str::from_utf8(name) {
        Ok(text) => {
            let read = load(rt, text, buf);
            input_of(rt, name, buf, read)
        }
        Err(_) => {
            complain(rt, name);
            complain(rt, b": a file name that is no text in UTF-8\n");
            None
        }
    }
}

// How many arguments the program was started with, its own name among them.
pub fn argument_count(rt: &HostRuntime) -> usize {
    for i in 0..usize::MAX {
        // without room: one that is there is too long, or empty
        if let Err(FillError::NotPresent) = rt.arg(i, &mut []) {
            return i;
        }
    }
    usize::MAX
}

// Puts argument i at the start of the buffer and answers its length.
pub fn argument(rt: &HostRuntime, i: usize, buf: &mut [u8]) -> io::Result<usize>
    ensures { IfOk result (λ n. IsPrefixLen n buf.new) }
{
    match rt.arg(i, buf) {
        Ok(n) => Ok(n),
        Err(FillError::NotPresent) => Err(io::Error::from_raw_os_error(MISSING)),
        Err(FillError::TooLong) => Err(io::Error::from_raw_os_error(TOO_LONG)),
    }
}

// Reads the file that argument i names, as `read_standard` does; `what` stands for it where the argument itself is at fault.
pub fn read_argument(rt: &HostRuntime, i: usize, what: &[u8], buf: &mut [u8]) -> Option<usize>
    ensures { IfSome result (λ n. IsPrefixLen n buf.new) }
{
    let mut name = [0u8; ARGUMENT];
    match argument(rt, i, &mut name) {
        Ok(0) => {
            complain(rt, b"an empty file name\n");
            None
        }
        Ok(n) => read_file(rt, &name[..n], buf),
        Err(error) => {
            tell(rt, what, error);
            None
        }
    }
}

// Reads standard input and answers what is made of its bytes; where it can't be read nothing is, and a line on the error output says so.
pub fn with_standard<R, F: FnOnce(&[u8]) -> R>(rt: &HostRuntime, then: F) -> Option<R>
    requires { TakesInput F.FnOnce then }
    ensures { IfSome result (λ r. GaveOfInput F.FnOnce then r) }
{
    let mut buf = [0u8; ROOM];
    let n = read_standard(rt, &mut buf)?;
    Some(then(&buf[..n]))
}

// The same of the file that argument i names.
pub fn with_argument<R, F: FnOnce(&[u8]) -> R>(
    rt: &HostRuntime,
    i: usize,
    what: &[u8],
    then: F,
) -> Option<R>
    requires { TakesInput F.FnOnce then }
    ensures { IfSome result (λ r. GaveOfInput F.FnOnce then r) }
{
    let mut buf = [0u8; ROOM];
    let n = read_argument(rt, i, what, &mut buf)?;
    Some(then(&buf[..n]))
}

// Writes the first n bytes of a buffer to standard output; where that fails, a line on the error output says so.
pub fn write(rt: &HostRuntime, buf: &[u8], n: usize) -> bool
    requires { n ≤ length buf.now }
{
    match rt.stdout().write_all(&buf[..n]) {
        Ok(()) => true,
        Err(error) => {
            tell(rt, b"standard output", error);
            false
        }
    }
}

// Writes the line of a refusal to standard output.
pub fn write_refusal(rt: &HostRuntime, r: Refusal) -> bool {
    let mut line = [0u8; lines::REFUSAL];
    let mut page = Page {
        out: &mut line,
        at: 0,
    };
    page.put_refusal(r);
    let n = page.at;
    write(rt, &line, n)
}

// Writes a line to the error output.
pub fn complain(rt: &HostRuntime, line: &[u8]) {
    let _ = rt.stderr().write_all(line);
}
