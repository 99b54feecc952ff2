// replay_cases FILE..: replays cases, and writes of each what `ask` or `orient` writes. A file is a run of blocks: four words (0 asked as it stands, 1 asked
// in a frame, 2 a PCK kernel, 3 segments by their numbers, 4 those of a PCK kernel; the lengths of the kernel that the table is made from, none if
// it is the kernel itself, of the kernel and of the questions), 72 bytes of matrix and the frame's number in four if in a frame, and the three parts.
// tests/oracle/stored.py makes the stored files and their lines, which are the given Rust's, but for alone.cases and frames.cases, which
// tests/vectors/alone.py and frames.py make with the second program's lines. It stands for a small host: the table goes by value, 256 places.

#![tactic(auto)]

ghost use Rattle.std.specs.Prelude.{◌+◌, ◌*◌, ◌<◌, ◌≤◌, length, IfSome};

use daf::Family;
use opening::Opened;
use records::Mark;
use table::Table;

// A segment asked by its number: records as long as those of `orient`, after the mark A5 5D.
const SIZE: usize = 14;

const MARK: Mark = Mark {
    first: 0xa5,
    second: 0x5d,
};

// A matrix, then the number of the frame that is asked for.
const TURN: usize = admission::MATRIX + 4;

// The block has so many bytes of these.
fn turn_len(kind: u32) -> usize
    ensures { result ≤ 76 }
{
    if kind == 1 { TURN } else { 0 }
}

// A block of a file: what it asks, the matrix and the frame where it has them, what the table is made from, the kernel and the questions.
#[derive(Clone, Copy)]
struct Block<'a> {
    kind: u32,
    turn: &'a [u8],
    origin: &'a [u8],
    kernel: &'a [u8],
    asked: &'a [u8],
}

// Writes a line for each question to an SPK. The memory goes from question to question.
fn write_answers(
    rt: &HostRuntime,
    kernel: &[u8],
    table: Table,
    asked: &[u8],
    wanted: Option<i32>,
    rot: [[f64; 3]; 3],
) {
    let mut memory = None;
    for i in 0..asked.len() / 18 {
        let q = ask_text::question_at(asked, i);
        let r = owned::state_in(kernel, table, memory, q, wanted, rot);
        memory = r.memory;
        if !ask_text::write_answer(rt, i, r.answer) {
            return;
        }
    }
}

// Writes a line for each question to an SPK, asked in a frame where there are a matrix and a frame.
fn write_states(rt: &HostRuntime, kernel: &[u8], table: Table, asked: &[u8], turn: &[u8]) {
    if turn.len() == TURN {
        let to = Some(bits::le_i32(turn, admission::MATRIX));
        write_answers(rt, kernel, table, asked, to, ask_text::rows(turn));
    } else {
        let none = [[0.0; 3]; 3];
        write_answers(rt, kernel, table, asked, None, none);
    }
}

// Writes a line for each question to a PCK.
fn write_oriented(rt: &HostRuntime, kernel: &[u8], table: Table, asked: &[u8]) {
    for i in 0..asked.len() / 14 {
        let q = orient_text::question_at(asked, i);
        if !orient_text::write_oriented(rt, i, owned::orient(kernel, table, q)) {
            return;
        }
    }
}

// The number of a segment that is asked for, behind the mark of its record.
fn number_of(asked: &[u8]) -> usize
    requires { 6 ≤ length asked.now }
{
    bits::le_u32(asked, 2) as usize
}

// Its epoch.
fn epoch_of(asked: &[u8]) -> f64
    requires { 14 ≤ length asked.now }
{
    bits::double_at(asked, 6)
}

// Writes a line for each segment asked by its number.
fn write_each(rt: &HostRuntime, kernel: &[u8], table: Table, asked: &[u8]) {
    for (i, record) in asked.chunks_exact(SIZE).enumerate() {
        let answer = owned::alone(kernel, table, number_of(record), epoch_of(record));
        if !ask_text::write_answer(rt, i, answer) {
            return;
        }
    }
}

// Writes a line for each segment of a PCK asked by its number.
fn write_turned(rt: &HostRuntime, kernel: &[u8], table: Table, asked: &[u8]) {
    for (i, record) in asked.chunks_exact(SIZE).enumerate() {
        let turned = owned::orient_alone(kernel, table, number_of(record), epoch_of(record));
        if !orient_text::write_oriented(rt, i, turned) {
            return;
        }
    }
}

// Hands on the table of an opening, or writes the line of its refusal.
fn with_table<F: FnOnce(Table)>(rt: &HostRuntime, opened: Opened, then: F)
    requires { F.IsAlwaysCallable then }
{
    match opened.outcome {
        Ok(()) => then(opened.table),
        Err(refusal) => {
            streams::write_refusal(rt, refusal);
        }
    }
}

// Puts the questions of a block to its kernel.
fn tell(rt: &HostRuntime, block: Block) {
    let Block {
        kind,
        turn,
        origin,
        kernel,
        asked,
    } = block;
    match kind {
        0 | 1 => with_table(rt, ask_text::open(origin, asked), |t| {
            write_states(rt, kernel, t, asked, turn)
        }),
        2 => with_table(rt, orient_text::open(origin, asked), |t| {
            write_oriented(rt, kernel, t, asked)
        }),
        3 => with_table(
            rt,
            admission::open(origin, Family::Spk, asked, SIZE, MARK),
            |t| write_each(rt, kernel, t, asked),
        ),
        4 => with_table(
            rt,
            admission::open(origin, Family::Pck, asked, SIZE, MARK),
            |t| write_turned(rt, kernel, t, asked),
        ),
        _ => streams::complain(rt, b"a block of another kind\n"),
    }
}

// The first block, and what follows it; none where it is cut short.
fn first_block(s: &[u8]) -> Option<(Block, &[u8])>
    ensures { IfSome result (λ p. length p.1.now < length s.now) }
{
    let (head, s) = s.split_first_chunk::<16>()?;
    let kind = bits::le_u32(head, 0);
    let (turn, s) = s.split_at_checked(turn_len(kind))?;
    let (origin, s) = s.split_at_checked(bits::le_u32(head, 4) as usize)?;
    let (kernel, s) = s.split_at_checked(bits::le_u32(head, 8) as usize)?;
    let (asked, s) = s.split_at_checked(bits::le_u32(head, 12) as usize)?;
    let origin = if origin.is_empty() { kernel } else { origin };
    let block = Block {
        kind,
        turn,
        origin,
        kernel,
        asked,
    };
    Some((block, s))
}

// Replays the blocks of a file.
fn replay(rt: &HostRuntime, s: &[u8]) {
    let mut rest = s;
    while !rest.is_empty() {
        let Some((block, next)) = first_block(rest) else {
            streams::complain(rt, b"a block is cut short\n");
            return;
        };
        tell(rt, block);
        rest = next;
    }
}

fn main(rt: HostRuntime) {
    for i in 1..streams::argument_count(&rt) {
        streams::with_argument(&rt, i, b"CASES", |s| replay(&rt, s));
    }
}
