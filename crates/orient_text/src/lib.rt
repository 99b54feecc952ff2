// A file of questions put to a PCK kernel: its records, a line for each orientation, and the whole text, put into a buffer that the caller lends.

#![tactic(auto)]

ghost use Rattle.std.specs.Prelude.{◌≡◌, ◌+◌, ◌*◌, ◌≤◌, ◌<◌, length};
ghost use Rattle.daf.specs.declared.Family.TheVariants.{Pck};
ghost use Rattle.lines.specs.Written.{Written, Put};
ghost use Rattle.table.specs.Places.{lent_limit};
ghost use Rattle.table.specs.Places.{limit_of};
ghost use Rattle.opening.specs.Steps.{Fits};
ghost use Rattle.lines.specs.Room.{capped};
ghost use Rattle.admission.specs.Order.{run_plan, opened_for};
ghost use Rattle.orient_text.specs.Records.{question_size, question_mark, question_at};
ghost use Rattle.orient_text.specs.Lines.{turned_text, oriented_text, oriented_room};
ghost use Rattle.orient_text.specs.Text.{orient_text, orient_output, orient_room};
ghost use Rattle.orient_text.specs.Steps.{orientations_by, lines_by, planned_text};

use daf::Family;
use lines::Page;
use opening::{Opened, Plan};
use pck::{Oriented, Question};
use records::Mark;
use refusal::Refusal;
use segment::Segment;
use table::Table;

// A question record has 14 bytes and begins with the mark A5 5C.
const SIZE: usize = 14;

// The most bytes of a line.
pub const LINE: usize = lines::DECIMAL + lines::FIELD + lines::TAIL;

// Room for the reply to every file of questions that a program takes, of at most 65,536 bytes.
pub const ROOM: usize = LINE * (streams::LIMIT / SIZE) + lines::REFUSAL;

// The numbers of an index that has room for 4,096 segments.
const INDEX: usize = 16384;

const MARK: Mark = Mark {
    first: 0xa5,
    second: 0x5c,
};

// Question i of a file.
pub fn question_at(asked: &[u8], i: usize) -> Question
    requires { question_size * i + question_size ≤ length asked.now }
    ensures { result ≡ question_at asked.now i }
{
    let p = SIZE * i;
    Question {
        body: bits::le_i32(asked, p + 2),
        et: bits::double_at(asked, p + 6),
    }
}

// The plan for a file of questions: the opening's refusals, then 19, or what is to be filled into the places that are lent.
pub fn plan(kernel: &[u8], asked: &[u8]) -> Plan
    ensures { result ≡ run_plan Pck lent_limit question_size question_mark kernel.now asked.now }
{
    admission::plan(kernel, Family::Pck, asked, SIZE, MARK, Table::LENT)
}

// The table by value, 18 first.
pub fn open(kernel: &[u8], asked: &[u8]) -> Opened
    ensures { result ≡ opened_for Pck question_size question_mark kernel.now asked.now }
{
    admission::open(kernel, Family::Pck, asked, SIZE, MARK)
}

// Puts the line of an orientation that is no refusal.
fn put_turned(page: &mut Page, i: usize, a: Oriented)
    requires { page.old.at + oriented_room ≤ length page.old.out.now }
    ensures written { Put page.old (turned_text i a) page.new }
    ensures upper_bound { page.new.at ≤ page.old.at + oriented_room }
{
    page.put_decimal(i as u64);
    page.put_field(a.frame);
    page.put_tail(a.stretched, a.angles);
}

// Puts the line of orientation i.
pub fn put_oriented(page: &mut Page, i: usize, a: Oriented)
    requires { page.old.at + oriented_room ≤ length page.old.out.now }
    ensures written { Put page.old (oriented_text i a) page.new }
    ensures upper_bound { page.new.at ≤ page.old.at + oriented_room }
{
    let outcome = a.outcome;
    match outcome {
        Ok(()) => put_turned(page, i, a),
        Err(refusal) => page.put_numbered_refusal(i, refusal),
    }
}

// Writes the line of orientation i to standard output. No contract can speak of what is written.
pub fn write_oriented(rt: &HostRuntime, i: usize, a: Oriented) -> bool {
    let mut line = [0u8; LINE];
    let mut page = Page {
        out: &mut line,
        at: 0,
    };
    put_oriented(&mut page, i, a);
    let n = page.at;
    streams::write(rt, &line, n)
}

// Puts a line for each of the first m questions, over the first n of the lent segments, through their index.
fn put_orientations(
    page: &mut Page,
    kernel: &[u8],
    table: &[Segment],
    ix: &[u16],
    asked: &[u8],
    n: usize,
    m: usize,
)
    requires { (question_size * m ≤ length asked.now) × (page.old.at + oriented_room * m ≤ length page.old.out.now) }
    ensures written { Put page.old (orientations_by (limit_of (length table.now)) kernel.now table.now n ix.now asked.now 0 m) page.new }
    ensures upper_bound { page.new.at ≤ page.old.at + oriented_room * m }
{
    for i in 0..m {
        let q = question_at(asked, i);
        let a = indexed::orient(kernel, table, ix, n, q);
        put_oriented(page, i, a);
    }
}

// Puts what a plan replies to a file of questions: its refusal, or a line each, with a table of 4,096 places and an index that it lends.
fn put_planned(page: &mut Page, kernel: &[u8], asked: &[u8], p: Plan)
    requires { Fits lent_limit kernel.now p × (page.old.at + orient_room (length asked.now) ≤ length page.old.out.now) }
    ensures written { Put page.old (planned_text kernel.now asked.now p) page.new }
    ensures upper_bound { page.new.at ≤ page.old.at + orient_room (length asked.now) }
{
    match p {
        Err(refusal) => page.put_refusal(refusal),
        Ok(_) => {
            let mut ix = [0u16; INDEX];
            let e = table::no_segment();
            let mut t = [e; Table::LENT];
            indexed::carry_out(&mut t, &mut ix, kernel, Family::Pck, p);
            let n = opening::count_in(p);
            let m = asked.len() / SIZE;
            put_orientations(page, kernel, &t, &ix, asked, n, m);
        }
    }
}

// The room of the reply to a file of so many bytes.
pub fn room(bytes: usize) -> usize
    ensures { result ≡ capped (orient_room bytes) }
{
    lines::room(LINE, bytes / SIZE)
}

// Puts what a kernel replies to a file of questions at the start of a buffer, whatever the length of the files: a refusal, or a line each.
pub fn put_text(out: &mut [u8], kernel: &[u8], asked: &[u8]) -> usize
    requires { orient_room (length asked.now) ≤ length out.old }
    ensures written { Written out.old 0 (orient_text kernel.now asked.now) out.new result }
    ensures upper_bound { result ≤ orient_room (length asked.now) }
{
    let mut page = Page { out, at: 0 };
    let p = plan(kernel, asked);
    put_planned(&mut page, kernel, asked, p);
    page.at
}

// Puts what the program prints: 18 where a file is over its limit, else that reply.
pub fn put_output(out: &mut [u8], kernel: &[u8], asked: &[u8]) -> usize
    requires { orient_room (length asked.now) ≤ length out.old }
    ensures written { Written out.old 0 (orient_output kernel.now asked.now) out.new result }
    ensures upper_bound { result ≤ orient_room (length asked.now) }
{
    if admission::over(kernel, asked) {
        let mut page = Page { out, at: 0 };
        page.put_refusal(Refusal::InputTooLong);
        page.at
    } else {
        put_text(out, kernel, asked)
    }
}
