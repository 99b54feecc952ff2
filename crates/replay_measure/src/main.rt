// replay_measure MODE KERNEL QUESTIONS PASSES: our side of bench/, a loop to count instructions in. Each pass takes the next question, the first
// again after the last. MODE: `remember` lets the memory go from question to question, `forget` asks each with none; `orient` asks a PCK
// kernel; `open` opens the kernel and puts it the first question; these with a table of 4,096 places that is lent; `indexed-remember` and
// `indexed-forget` through its index too; `by-remember`, `by-forget`, `by-orient` and `by-open` (which asks nothing) with the table by value; `add`
// takes KERNEL for a usage file and adds it up once a pass; `nothing` only goes through the questions. It
// writes the sum of the answers, so that each has to be worked out, and ends at the first refusal. No contract can speak of what is written.

#![tactic(auto)]

ghost use Rattle.std.specs.Prelude.{◌≡◌, ◌+◌, ◌*◌, ◌<◌, ◌≤◌, length};
ghost use Rattle.io.specs.Counts.{IsPrefixLen};
ghost use Rattle.table.specs.Places.{lent_limit};
ghost use Rattle.opening.specs.Steps.{plan_of};

use daf::Family;
use frame::{Given, State};
use lines::Page;
use opening::Plan;
use pck::Oriented;
use refusal::Refusal;
use segment::Segment;
use spk::{Answer, Asked, Memory, Way};
use table::Table;

// The bytes of a kernel that are read: room for 4,096 segments.
const ROOM: usize = 200000;

// Question i of a file of 18-byte records.
fn spk_question(asked: &[u8], i: usize) -> spk::Question
    requires { 18 * i + 18 ≤ length asked.now }
{
    let p = 18 * i;
    spk::Question {
        target: bits::le_i32(asked, p + 2),
        center: bits::le_i32(asked, p + 6),
        et: bits::double_at(asked, p + 10),
    }
}

// Question i of a file of 14-byte records.
fn pck_question(asked: &[u8], i: usize) -> pck::Question
    requires { 14 * i + 14 ≤ length asked.now }
{
    let p = 14 * i;
    pck::Question {
        body: bits::le_i32(asked, p + 2),
        et: bits::double_at(asked, p + 6),
    }
}

// The number after i of so many, the first after the last.
fn next(i: usize, n: usize) -> usize
    requires { i < n }
    ensures { result < n }
{
    if i + 1 < n { i + 1 } else { 0 }
}

// The question was answered; where not, a line on the error output says so.
fn answered(rt: &HostRuntime, way: Way) -> bool {
    match way {
        Way::Same => true,
        Way::Forward(_) => true,
        Way::Reversed(_) => true,
        Way::Chained => true,
        Way::Refused(_) => {
            streams::complain(rt, b"measure: a question was refused\n");
            false
        }
    }
}

// The same of an orientation.
fn oriented(rt: &HostRuntime, outcome: Result<(), Refusal>) -> bool {
    match outcome {
        Ok(()) => true,
        Err(_) => {
            streams::complain(rt, b"measure: an orientation was refused\n");
            false
        }
    }
}

// Opens the kernel by value.
fn open(kernel: &[u8], passes: u64) -> State {
    let mut sum = State::zero();
    for _ in 0..passes {
        let opened = owned::open(kernel, Family::Spk);
        let t = opened.table;
        let s = t.segments[0];
        sum.x = sum.x + s.last;
    }
    sum
}

// Adds up a usage file. Where it is refused, a line on the error output says so.
fn add(rt: &HostRuntime, usage: &[u8], passes: u64) -> State {
    let mut sum = State::zero();
    for _ in 0..passes {
        let Ok(s) = tally::add_up(usage) else {
            streams::complain(rt, b"measure: the usage file was refused\n");
            return sum;
        };
        sum.x = sum.x + std::num::nearest_u64_to_f64(s.lines[0].count);
    }
    sum
}

// Asks an SPK.
fn ask(
    rt: &HostRuntime,
    kernel: &[u8],
    table: Table,
    asked: &[u8],
    forget: bool,
    passes: u64,
) -> State {
    let n = asked.len() / 18;
    let mut sum = State::zero();
    if n == 0 {
        return sum;
    }
    let mut memory = None;
    let mut at: usize = 0;
    for _ in 0..passes {
        let q = spk_question(asked, at);
        let r = owned::state(kernel, table, memory, q);
        let answer = r.answer;
        let way = answer.way;
        if !answered(rt, way) {
            return sum;
        }
        let given = answer.given;
        let state = given.state;
        sum = sum.plus(state);
        if !forget {
            memory = r.memory;
        }
        at = next(at, n);
    }
    sum
}

// Asks a PCK.
fn orient(rt: &HostRuntime, kernel: &[u8], table: Table, asked: &[u8], passes: u64) -> State {
    let n = asked.len() / 14;
    let mut sum = State::zero();
    if n == 0 {
        return sum;
    }
    let mut at: usize = 0;
    for _ in 0..passes {
        let q = pck_question(asked, at);
        let r = owned::orient(kernel, table, q);
        let outcome = r.outcome;
        if !oriented(rt, outcome) {
            return sum;
        }
        let angles = r.angles;
        sum = sum.plus(angles);
        at = next(at, n);
    }
    sum
}

// ---- with a lent table

// What was added up so far: the remembered segment's number, or one that no table has; 1 once a question was refused, else 0; the sum.
#[derive(Clone, Copy)]
struct Sums {
    kept: usize,
    refused: u64,
    sum: State,
}

fn begin() -> Sums {
    let sum = State::zero();
    Sums {
        kept: Table::LENT,
        refused: 0,
        sum: sum,
    }
}

// The memory made anew from its number: nothing of the last answer is then waited for but that.
fn memory_in(run: Sums) -> Memory {
    if run.kept < Table::LENT {
        Some(run.kept)
    } else {
        None
    }
}

// The sum; where a question was refused, a line on the error output says so.
fn sum_in(rt: &HostRuntime, run: Sums) -> State {
    if 0 < run.refused {
        streams::complain(rt, b"measure: a question was refused\n");
    }
    run.sum
}

// Question i of m, the first again after the last.
fn spk_asked(asked: &[u8], i: usize, m: usize) -> spk::Question
    requires { (0 < m) × (18 * m ≤ length asked.now) }
{
    let at = i % m;
    if at < m {
        return spk_question(asked, at);
    }
    spk_question(asked, 0)
}

fn pck_asked(asked: &[u8], i: usize, m: usize) -> pck::Question
    requires { (0 < m) × (14 * m ≤ length asked.now) }
{
    let at = i % m;
    if at < m {
        return pck_question(asked, at);
    }
    pck_question(asked, 0)
}

fn was_refused(way: Way) -> u64 {
    match way {
        Way::Same => 0,
        Way::Forward(_) => 0,
        Way::Reversed(_) => 0,
        Way::Chained => 0,
        Way::Refused(_) => 1,
    }
}

// The run with an answer more.
fn with_answer(run: Sums, r: Asked, forget: bool) -> Sums {
    let answer = r.answer;
    let way = answer.way;
    let refused = run.refused | was_refused(way);
    let memory = r.memory;
    let kept = if forget {
        Table::LENT
    } else {
        memory.unwrap_or(Table::LENT)
    };
    let given = answer.given;
    let state = given.state;
    let sum = run.sum;
    let total = sum.plus(state);
    Sums {
        kept: kept,
        refused: refused,
        sum: total,
    }
}

fn not_turned(outcome: Result<(), Refusal>) -> u64 {
    match outcome {
        Ok(()) => 0,
        Err(_) => 1,
    }
}

// The run with an orientation more.
fn with_angles(run: Sums, r: Oriented) -> Sums {
    let outcome = r.outcome;
    let refused = run.refused | not_turned(outcome);
    let angles = r.angles;
    let sum = run.sum;
    let total = sum.plus(angles);
    Sums {
        kept: Table::LENT,
        refused: refused,
        sum: total,
    }
}

// What stands for an answer where nothing is asked. Nobody can tell its way beforehand, so that the loop is that of a question.
fn unasked(q: spk::Question, kept: Memory) -> Asked {
    let mut state = State::zero();
    state.x = q.et;
    let way = if q.target == q.center {
        Way::Refused(Refusal::EpochNan)
    } else {
        Way::Same
    };
    let given = Given::of(state, frame::J2000, false);
    Asked {
        answer: Answer {
            way: way,
            given: given,
        },
        memory: kept,
    }
}

// Puts the next of p questions in each of m passes, with what is remembered.
fn put_each<F: Fn(Memory, spk::Question) -> Asked>(
    rt: &HostRuntime,
    asked: &[u8],
    p: usize,
    forget: bool,
    m: usize,
    ask: F,
) -> State
    requires questions { (0 < p) × (18 * p ≤ length asked.now) }
    requires callable { F.IsAlwaysCallable ask }
{
    let mut run = begin();
    for i in 0..m {
        let q = spk_asked(asked, i, p);
        let k = memory_in(run);
        let r = ask(k, q);
        run = with_answer(run, r, forget);
    }
    sum_in(rt, run)
}

// Goes through the questions as `ask_lent` does, and asks none.
fn nothing(rt: &HostRuntime, asked: &[u8], m: usize) -> State {
    let p = asked.len() / 18;
    if p == 0 {
        return State::zero();
    }
    put_each(rt, asked, p, false, m, |k, q| unasked(q, k))
}

// Asks an SPK. The loop is written out: through `put_each` the compiler clears the place of each answer first, which would count for the answers.
fn ask_lent(
    rt: &HostRuntime,
    kernel: &[u8],
    table: &[Segment],
    asked: &[u8],
    n: usize,
    p: usize,
    forget: bool,
    m: usize,
) -> State
    requires { (0 < p) × (18 * p ≤ length asked.now) }
{
    let mut run = begin();
    for i in 0..m {
        let q = spk_asked(asked, i, p);
        let k = memory_in(run);
        let r = lent::state(kernel, table, n, k, q);
        run = with_answer(run, r, forget);
    }
    sum_in(rt, run)
}

// Asks a PCK.
fn orient_lent(
    rt: &HostRuntime,
    kernel: &[u8],
    table: &[Segment],
    asked: &[u8],
    n: usize,
    p: usize,
    m: usize,
) -> State
    requires { (0 < p) × (14 * p ≤ length asked.now) }
{
    let mut run = begin();
    for i in 0..m {
        let q = pck_asked(asked, i, p);
        let r = lent::orient(kernel, table, n, q);
        run = with_angles(run, r);
    }
    sum_in(rt, run)
}

// The plan of the opening; a refusal is said on the error output.
fn planned(rt: &HostRuntime, kernel: &[u8], family: Family) -> Plan
    ensures { result ≡ plan_of family lent_limit kernel.now }
{
    let p = opening::plan_of(kernel, family, Table::LENT);
    if p.is_err() {
        streams::complain(rt, b"measure: the kernel was refused\n");
    }
    p
}

// Opens an SPK into a table of 4,096 places, and asks it.
fn lend_spk(
    rt: &HostRuntime,
    kernel: &[u8],
    asked: &[u8],
    p: usize,
    forget: bool,
    passes: usize,
) -> State
    requires { (0 < p) × (18 * p ≤ length asked.now) }
{
    let e = table::no_segment();
    let mut t = [e; Table::LENT];
    let y = planned(rt, kernel, Family::Spk);
    lent::carry_out(&mut t, kernel, Family::Spk, y);
    let n = opening::count_in(y);
    ask_lent(rt, kernel, &t, asked, n, p, forget, passes)
}

// Opens an SPK into a table of 4,096 places, fills its index, and asks through that.
fn lend_indexed(
    rt: &HostRuntime,
    kernel: &[u8],
    asked: &[u8],
    ix: &mut [u16],
    p: usize,
    forget: bool,
    passes: usize,
) -> State
    requires { (0 < p) × (18 * p ≤ length asked.now) }
{
    let e = table::no_segment();
    let mut t = [e; Table::LENT];
    let y = planned(rt, kernel, Family::Spk);
    indexed::carry_out(&mut t, ix, kernel, Family::Spk, y);
    let n = opening::count_in(y);
    let (table, ix) = (&t, &*ix);
    put_each(rt, asked, p, forget, passes, |k, q| {
        indexed::state(kernel, table, ix, n, k, q)
    })
}

// Opens a PCK into a table of 4,096 places, and asks it.
fn lend_pck(rt: &HostRuntime, kernel: &[u8], asked: &[u8], p: usize, passes: usize) -> State
    requires { (0 < p) × (14 * p ≤ length asked.now) }
{
    let e = table::no_segment();
    let mut t = [e; Table::LENT];
    let y = planned(rt, kernel, Family::Pck);
    lent::carry_out(&mut t, kernel, Family::Pck, y);
    let n = opening::count_in(y);
    orient_lent(rt, kernel, &t, asked, n, p, passes)
}

// Opens an SPK into a table of 4,096 places that is made anew, and puts it the first question: once a pass.
fn open_lent(rt: &HostRuntime, kernel: &[u8], asked: &[u8], passes: u64) -> State {
    let p = asked.len() / 18;
    let mut sum = State::zero();
    if p == 0 {
        return sum;
    }
    for _ in 0..passes {
        let s = lend_spk(rt, kernel, asked, p, true, 1);
        sum = sum.plus(s);
    }
    sum
}

// The same with its index.
fn open_indexed(rt: &HostRuntime, kernel: &[u8], asked: &[u8], passes: u64) -> State {
    let p = asked.len() / 18;
    let mut sum = State::zero();
    if p == 0 {
        return sum;
    }
    let mut ix = [0u16; 16384];
    for _ in 0..passes {
        let s = lend_indexed(rt, kernel, asked, &mut ix, p, true, 1);
        sum = sum.plus(s);
    }
    sum
}

// The passes over a kernel that is opened into a lent table.
fn over_lent(rt: &HostRuntime, kernel: &[u8], asked: &[u8], mode: &[u8], passes: u64) -> State {
    let count = (passes % 1000000000) as usize;
    if same(mode, b"orient") {
        let p = asked.len() / 14;
        if p == 0 {
            return State::zero();
        }
        return lend_pck(rt, kernel, asked, p, count);
    }
    let p = asked.len() / 18;
    if p == 0 {
        return State::zero();
    }
    lend_spk(rt, kernel, asked, p, same(mode, b"forget"), count)
}

// The passes through an index.
fn over_indexed(rt: &HostRuntime, kernel: &[u8], asked: &[u8], mode: &[u8], passes: u64) -> State {
    let count = (passes % 1000000000) as usize;
    let p = asked.len() / 18;
    if p == 0 {
        return State::zero();
    }
    let mut ix = [0u16; 16384];
    lend_indexed(
        rt,
        kernel,
        asked,
        &mut ix,
        p,
        same(mode, b"indexed-forget"),
        count,
    )
}

// The mode's name is this.
fn same(mode: &[u8], name: &[u8]) -> bool {
    mode == name
}

fn through_index(mode: &[u8]) -> bool {
    same(mode, b"indexed-remember") || same(mode, b"indexed-forget")
}

// The number that a text of at most nine digits writes.
fn number(text: &[u8]) -> u64 {
    let mut n = 0;
    for b in text.iter().take(9) {
        n = (10 * n + digit(*b)) % 1000000000;
    }
    n
}

// What a digit stands for.
fn digit(b: u8) -> u64
    ensures { result < 10 }
{
    if b < b'0' {
        return 0;
    }
    if b'9' < b {
        return 0;
    }
    (b - b'0') as u64
}

// The passes over a kernel that is opened by value.
fn over(rt: &HostRuntime, kernel: &[u8], asked: &[u8], mode: &[u8], passes: u64) -> State {
    let pck = same(mode, b"by-orient");
    let family = if pck { Family::Pck } else { Family::Spk };
    let opened = owned::open(kernel, family);
    let outcome = opened.outcome;
    let table = opened.table;
    if outcome.is_err() {
        streams::complain(rt, b"measure: the kernel was refused\n");
        return State::zero();
    }
    if pck {
        return orient(rt, kernel, table, asked, passes);
    }
    ask(rt, kernel, table, asked, same(mode, b"by-forget"), passes)
}

fn by_value(mode: &[u8]) -> bool {
    same(mode, b"by-remember") || same(mode, b"by-forget") || same(mode, b"by-orient")
}

// The passes in a mode.
fn run(rt: &HostRuntime, kernel: &[u8], asked: &[u8], mode: &[u8], passes: u64) -> State {
    if same(mode, b"nothing") {
        return nothing(rt, asked, (passes % 1000000000) as usize);
    }
    if same(mode, b"open") {
        return open_lent(rt, kernel, asked, passes);
    }
    if same(mode, b"indexed-open") {
        return open_indexed(rt, kernel, asked, passes);
    }
    if same(mode, b"by-open") {
        return open(kernel, passes);
    }
    if same(mode, b"add") {
        return add(rt, kernel, passes);
    }
    if through_index(mode) {
        return over_indexed(rt, kernel, asked, mode, passes);
    }
    if by_value(mode) {
        return over(rt, kernel, asked, mode, passes);
    }
    over_lent(rt, kernel, asked, mode, passes)
}

// Writes the sum.
fn write_sum(rt: &HostRuntime, sum: State) {
    let mut line = [0u8; 102];
    let mut page = Page {
        out: &mut line,
        at: 0,
    };
    page.put_state(sum);
    let n = page.at;
    streams::write(rt, &line, n);
    streams::write(rt, b"\n", 1);
}

// Reads the file that argument i names: nothing where it can't be read, which a line on the error output then says.
fn load(rt: &HostRuntime, i: usize, what: &[u8], buf: &mut [u8]) -> usize
    ensures { IsPrefixLen result buf.new }
{
    streams::read_argument(rt, i, what, buf).unwrap_or(0)
}

fn main(rt: HostRuntime) {
    if streams::argument_count(&rt) != 5 {
        streams::complain(&rt, b"usage: replay_measure MODE KERNEL QUESTIONS PASSES\n");
        return;
    }
    let mut mode = [0u8; 20];
    let m = streams::argument(&rt, 1, &mut mode).unwrap_or(0);
    let mut passes = [0u8; 16];
    let p = streams::argument(&rt, 4, &mut passes).unwrap_or(0);
    let mut kernel = [0u8; ROOM];
    let k = load(&rt, 2, b"KERNEL", &mut kernel);
    let mut asked = [0u8; 65536];
    let q = load(&rt, 3, b"QUESTIONS", &mut asked);
    write_sum(
        &rt,
        run(
            &rt,
            &kernel[..k],
            &asked[..q],
            &mode[..m],
            number(&passes[..p]),
        ),
    );
}
