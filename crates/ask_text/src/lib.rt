// A file of questions put to an SPK kernel: its records, a line for each answer, and the whole text, put into a buffer that the caller lends.

#![tactic(auto)]

ghost use Rattle.std.specs.Prelude.{◌≡◌, ◌+◌, ◌*◌, ◌≤◌, ◌<◌, length, None};
ghost use Rattle.daf.specs.declared.Family.TheVariants.{Spk};
ghost use Rattle.lines.specs.Written.{Written, Put};
ghost use Rattle.table.specs.Places.{lent_limit};
ghost use Rattle.table.specs.Places.{limit_of};
ghost use Rattle.segment.specs.Evaluating.{evaluated};
ghost use Rattle.opening.specs.Steps.{count_in, Fits};
ghost use Rattle.indexed.specs.Asking.{run_with};
ghost use Rattle.lines.specs.Room.{capped};
ghost use Rattle.admission.specs.Order.{run_plan, opened_for};
ghost use Rattle.ask_text.specs.Records.{question_size, question_mark, question_at, rows_of};
ghost use Rattle.ask_text.specs.Lines.{word_line, named_line, answer_text, word_room, answer_room};
ghost use Rattle.ask_text.specs.FrameText.{digits_in, above, below, frame_named};
ghost use Rattle.ask_text.specs.Text.{answers_text, ask_text, unfit, ask_output, ask_room};
ghost use Rattle.ask_text.specs.Steps.{turned_from, answers_by, planned_text};

use daf::Family;
use frame::Given;
use lines::Page;
use opening::{Opened, Plan};
use records::Mark;
use refusal::Refusal;
use segment::Segment;
use spk::{Answer, Question, Way};
use table::Table;

// A question record has 18 bytes and begins with the mark A5 5B.
const SIZE: usize = 18;

const MARK: Mark = Mark {
    first: 0xa5,
    second: 0x5b,
};

// The longest word of a line.
const WORD: usize = 10;

// The most bytes of a line.
pub const LINE: usize = lines::DECIMAL + WORD + lines::DECIMAL + lines::TAIL;

// Room for the reply to every file of questions that a program takes, of at most 65,536 bytes.
pub const ROOM: usize = LINE * (streams::LIMIT / SIZE) + lines::REFUSAL;

// The numbers of an index that has room for 4,096 segments.
const INDEX: usize = 16384;

// Question i of a file.
pub fn question_at(asked: &[u8], i: usize) -> Question
    requires { question_size * i + question_size ≤ length asked.now }
    ensures { result ≡ question_at asked.now i }
{
    let p = SIZE * i;
    Question {
        target: bits::le_i32(asked, p + 2),
        center: bits::le_i32(asked, p + 6),
        et: bits::double_at(asked, p + 10),
    }
}

// The nine doubles of a matrix file, row by row.
pub fn rows(matrix: &[u8]) -> [[f64; 3]; 3]
    requires { 72 ≤ length matrix.now }
    ensures { result ≡ rows_of matrix.now }
{
    [
        [
            bits::double_at(matrix, 0),
            bits::double_at(matrix, 8),
            bits::double_at(matrix, 16),
        ],
        [
            bits::double_at(matrix, 24),
            bits::double_at(matrix, 32),
            bits::double_at(matrix, 40),
        ],
        [
            bits::double_at(matrix, 48),
            bits::double_at(matrix, 56),
            bits::double_at(matrix, 64),
        ],
    ]
}

// The plan for a file of questions: the opening's refusals, then 19, or what is to be filled into the places that are lent.
pub fn plan(kernel: &[u8], asked: &[u8]) -> Plan
    ensures { result ≡ run_plan Spk lent_limit question_size question_mark kernel.now asked.now }
{
    admission::plan(kernel, Family::Spk, asked, SIZE, MARK, Table::LENT)
}

// The table by value, 18 first.
pub fn open(kernel: &[u8], asked: &[u8]) -> Opened
    ensures { result ≡ opened_for Spk question_size question_mark kernel.now asked.now }
{
    admission::open(kernel, Family::Spk, asked, SIZE, MARK)
}

// Puts the line of an answer that names no segment: its number, a word, whether a record was stretched, its state.
fn put_word_line(page: &mut Page, i: usize, word: &[u8], given: Given)
    requires { (length word.now ≤ word_room) × (page.old.at + answer_room ≤ length page.old.out.now) }
    ensures written { Put page.old (word_line i word.now given) page.new }
    ensures upper_bound { page.new.at ≤ page.old.at + answer_room }
{
    page.put_decimal(i as u64);
    page.put(word);
    page.put_tail(given.stretched, given.state);
}

// Puts the line of an answer that names one: its number, a word, the segment's number, whether a record was stretched, its state.
fn put_named_line(page: &mut Page, i: usize, word: &[u8], segment: u32, given: Given)
    requires { (length word.now ≤ word_room) × (page.old.at + answer_room ≤ length page.old.out.now) }
    ensures written { Put page.old (named_line i word.now segment given) page.new }
    ensures upper_bound { page.new.at ≤ page.old.at + answer_room }
{
    page.put_decimal(i as u64);
    page.put(word);
    page.put_decimal(segment as u64);
    page.put_tail(given.stretched, given.state);
}

// Puts the line of answer i.
pub fn put_answer(page: &mut Page, i: usize, answer: Answer)
    requires { page.old.at + answer_room ≤ length page.old.out.now }
    ensures written { Put page.old (answer_text i answer) page.new }
    ensures upper_bound { page.new.at ≤ page.old.at + answer_room }
{
    let way = answer.way;
    let given = answer.given;
    match way {
        Way::Same => put_word_line(page, i, b" same", given),
        Way::Forward(segment) => put_named_line(page, i, b" forward ", segment, given),
        Way::Reversed(segment) => put_named_line(page, i, b" reversed ", segment, given),
        Way::Chained => put_word_line(page, i, b" chained", given),
        Way::Refused(refusal) => page.put_numbered_refusal(i, refusal),
    }
}

// Writes the line of answer i to standard output. No contract can speak of what is written.
pub fn write_answer(rt: &HostRuntime, i: usize, answer: Answer) -> bool {
    let mut line = [0u8; LINE];
    let mut page = Page {
        out: &mut line,
        at: 0,
    };
    put_answer(&mut page, i, answer);
    let n = page.at;
    streams::write(rt, &line, n)
}

// Puts a line for each of the first m questions, over the first n of the lent segments, through their index. The memory goes from question to question.
fn put_answers(
    page: &mut Page,
    kernel: &[u8],
    table: &[Segment],
    ix: &[u16],
    asked: &[u8],
    n: usize,
    m: usize,
    wanted: Option<i32>,
    rot: [[f64; 3]; 3],
)
    requires { (question_size * m ≤ length asked.now) × (page.old.at + answer_room * m ≤ length page.old.out.now) }
    ensures written { Put page.old (answers_text 0 (run_with (limit_of (length table.now)) (evaluated Spk kernel.now) table.now n ix.now None (turned_from wanted rot asked.now 0 m))) page.new }
    ensures upper_bound { page.new.at ≤ page.old.at + answer_room * m }
{
    let mut memory = None;
    for i in 0..m {
        let q = question_at(asked, i);
        let r = indexed::state_in(kernel, table, ix, n, memory, q, wanted, rot);
        memory = r.memory;
        put_answer(page, i, r.answer);
    }
}

// Puts what a plan replies to a file of questions: its refusal, or a line each, with a table of 4,096 places and an index that it lends.
fn put_planned(
    page: &mut Page,
    kernel: &[u8],
    asked: &[u8],
    p: Plan,
    wanted: Option<i32>,
    rot: [[f64; 3]; 3],
)
    requires { Fits lent_limit kernel.now p × (page.old.at + ask_room (length asked.now) ≤ length page.old.out.now) }
    ensures written { Put page.old (planned_text kernel.now asked.now p wanted rot) page.new }
    ensures upper_bound { page.new.at ≤ page.old.at + ask_room (length asked.now) }
{
    match p {
        Err(refusal) => page.put_refusal(refusal),
        Ok(_) => {
            let mut ix = [0u16; INDEX];
            let e = table::no_segment();
            let mut t = [e; Table::LENT];
            indexed::carry_out(&mut t, &mut ix, kernel, Family::Spk, p);
            let n = opening::count_in(p);
            let m = asked.len() / SIZE;
            put_answers(page, kernel, &t, &ix, asked, n, m, wanted, rot);
        }
    }
}

// Puts what a kernel replies to a file of questions: a refusal, or a line each. With a matrix of 72 bytes each state is asked in the frame of this number.
fn put_reply(page: &mut Page, kernel: &[u8], asked: &[u8], matrix: &[u8], frame: i32)
    requires { page.old.at + ask_room (length asked.now) ≤ length page.old.out.now }
    ensures written { Put page.old (ask_text kernel.now asked.now matrix.now frame) page.new }
    ensures upper_bound { page.new.at ≤ page.old.at + ask_room (length asked.now) }
{
    let p = plan(kernel, asked);
    if matrix.len() == admission::MATRIX {
        let to = Some(frame);
        put_planned(page, kernel, asked, p, to, rows(matrix));
    } else {
        let none = [[0.0; 3]; 3];
        put_planned(page, kernel, asked, p, None, none);
    }
}

// The room of the reply to a file of so many bytes.
pub fn room(bytes: usize) -> usize
    ensures { result ≡ capped (ask_room bytes) }
{
    lines::room(LINE, bytes / SIZE)
}

// Puts what a kernel replies to a file of questions at the start of a buffer, whatever the length of the files: a refusal, or a line each. With a matrix
// of 72 bytes each state is asked in the frame of this number.
pub fn put_text(out: &mut [u8], kernel: &[u8], asked: &[u8], matrix: &[u8], frame: i32) -> usize
    requires { ask_room (length asked.now) ≤ length out.old }
    ensures written { Written out.old 0 (ask_text kernel.now asked.now matrix.now frame) out.new result }
    ensures upper_bound { result ≤ ask_room (length asked.now) }
{
    let mut page = Page { out, at: 0 };
    put_reply(&mut page, kernel, asked, matrix, frame);
    page.at
}

// The number that a run of digits stands for. Past 2^31 it ends, since no digit makes the number smaller.
fn digits_in(text: &[u8]) -> Option<u32>
    ensures { result ≡ digits_in text.now }
{
    if text.is_empty() {
        return None;
    }
    let mut v: u64 = 0;
    for c in text {
        if !c.is_ascii_digit() {
            return None;
        }
        v = 10 * v + (*c - b'0') as u64;
        if 2147483648 < v {
            return None;
        }
    }
    Some(v as u32)
}

// The frame of digits without a sign.
fn above(text: &[u8]) -> Option<i32>
    ensures { result ≡ above (digits_in text.now) }
{
    let v = digits_in(text)?;
    if v < 2147483648 { Some(v as i32) } else { None }
}

// The frame of digits after a minus sign.
fn below(text: &[u8]) -> Option<i32>
    ensures { result ≡ below (digits_in text.now) }
{
    0i32.checked_sub_unsigned(digits_in(text)?)
}

// The frame that the argument FRAME names, if it names one.
pub fn frame_named(text: &[u8]) -> Option<i32>
    ensures { result ≡ frame_named text.now }
{
    if !text.is_empty() && text[0] == b'-' {
        below(&text[1..])
    } else {
        above(text)
    }
}

// A matrix file is given, and it is none, or FRAME is no number.
fn is_unfit(turned: bool, matrix: &[u8], frame: Option<i32>) -> bool
    ensures { result ≡ unfit turned matrix.now frame }
{
    turned && (matrix.len() != admission::MATRIX || frame.is_none())
}

// Puts what the program prints, `frame` being the text of FRAME: 18 where a file is over its limit; nothing where a matrix file is given and it or FRAME is
// none; else that reply.
pub fn put_output(
    out: &mut [u8],
    kernel: &[u8],
    asked: &[u8],
    turned: bool,
    matrix: &[u8],
    frame: &[u8],
) -> usize
    requires { ask_room (length asked.now) ≤ length out.old }
    ensures written { Written out.old 0 (ask_output kernel.now asked.now turned matrix.now frame.now) out.new result }
    ensures upper_bound { result ≤ ask_room (length asked.now) }
{
    if admission::any_over(kernel, asked, matrix) {
        let mut page = Page { out, at: 0 };
        page.put_refusal(Refusal::InputTooLong);
        return page.at;
    }
    let f = frame_named(frame);
    if is_unfit(turned, matrix, f) {
        return 0;
    }
    put_text(out, kernel, asked, matrix, f.unwrap_or(frame::ECLIPJ2000))
}
