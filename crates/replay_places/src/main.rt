// replay_places NONE ONE SOME MORE MOST MANY: opens SPK kernels of 0, 1, 256, 257, 4,096 and 4,097 summaries, two after one another, into tables of 0,
// 256, 257, 4,096 and 4,097 places that it lends. For each pair and table it writes: the places; what each opening resulted in, the number of segments
// or the refusal's; the sum of all places' last epochs, each times its place's number from 1, as bits, so that a place which was written or
// cleared shows; and what a question results in with the count, with one more than the places, and with 4,097: the refusal's number, or 0.
// Then, with the table by value, for each kernel that 256 places take and one that they don't: what its opening resulted in; what it remembers, 0 for
// nothing; and what a question results in with that memory.

#![tactic(auto)]

ghost use Rattle.std.specs.Prelude.{◌≡◌, ◌≤◌, length, None};
ghost use Rattle.daf.specs.declared.Family.TheVariants.{Spk};

use daf::Family;
use lines::Page;
use opening::{Opened, Plan};
use segment::Segment;
use spk::{Asked, Memory, Question, Way};

// ---- what the places hold

// The sum with the place of number x.
fn added(sum: f64, x: f64, s: Segment) -> f64 {
    sum + x * s.last
}

fn next(x: f64) -> f64 {
    x + 1.0
}

fn zero() -> f64 {
    0.0
}

// The sum over the first m places.
fn digest(table: &[Segment], m: usize) -> f64
    requires { m ≤ length table.now }
{
    let mut sum = zero();
    let mut x = zero();
    for s in &table[..m] {
        x = next(x);
        sum = added(sum, x, *s);
    }
    sum
}

// ---- the questions and the lines

fn family() -> Family
    ensures { result ≡ Spk }
{
    Family::Spk
}

fn no_memory() -> Memory
    ensures { result ≡ None }
{
    None
}

// Where the target of segment 0 is.
fn question() -> Question {
    Question {
        target: 1,
        center: 0,
        et: 0.5,
    }
}

// A count that is too large for the places, and one that is for any.
fn one_more(places: usize) -> usize {
    if places < 1000000 { places + 1 } else { places }
}

fn too_many() -> usize {
    4097
}

// The number of a plan's segments, or of its refusal.
fn came_to(p: Plan) -> usize {
    match p {
        Ok(f) => f.count,
        Err(refusal) => refusal.number() as usize,
    }
}

// The number of an answer's refusal, or 0.
fn refused_by(a: Asked) -> u32 {
    let answer = a.answer;
    let way = answer.way;
    match way {
        Way::Same => 0,
        Way::Forward(_) => 0,
        Way::Reversed(_) => 0,
        Way::Chained => 0,
        Way::Refused(refusal) => refusal.number(),
    }
}

// Writes a number.
fn write_decimal(rt: &HostRuntime, x: u64) {
    let mut line = [0u8; 21];
    let mut page = Page {
        out: &mut line,
        at: 0,
    };
    page.put_decimal(x);
    let n = page.at;
    streams::write(rt, &line, n);
}

// Writes a space and a number.
fn write_number(rt: &HostRuntime, x: u64) {
    streams::write(rt, b" ", 1);
    write_decimal(rt, x);
}

// Writes a space and the bits of a number.
fn write_bits(rt: &HostRuntime, x: f64) {
    let mut line = [0u8; 17];
    let mut page = Page {
        out: &mut line,
        at: 0,
    };
    page.put_number(x);
    let n = page.at;
    streams::write(rt, &line, n);
}

// Writes a line.
fn write_line(
    rt: &HostRuntime,
    places: usize,
    p: Plan,
    q: Plan,
    sum: f64,
    a: Asked,
    b: Asked,
    c: Asked,
) {
    write_decimal(rt, places as u64);
    write_number(rt, came_to(p) as u64);
    write_number(rt, came_to(q) as u64);
    write_bits(rt, sum);
    write_number(rt, refused_by(a) as u64);
    write_number(rt, refused_by(b) as u64);
    write_number(rt, refused_by(c) as u64);
    streams::write(rt, b"\n", 1);
}

// Writes what two openings left in a table, and what is asked of it with three counts.
fn tell(rt: &HostRuntime, kernel: &[u8], table: &[Segment], p: Plan, q: Plan) {
    let places = lent::table_len(table);
    let sum = digest(table, places);
    let x = question();
    let m = no_memory();
    let n = opening::count_in(q);
    let a = lent::state(kernel, table, n, m, x);
    let more = one_more(places);
    let b = lent::state(kernel, table, more, m, x);
    let most = too_many();
    let c = lent::state(kernel, table, most, m, x);
    write_line(rt, places, p, q, sum, a, b, c);
}

// ---- by value

// The number of segments, or of the refusal.
fn opened_to(o: Opened) -> usize {
    let outcome = o.outcome;
    match outcome {
        Ok(()) => o.table.count,
        Err(refusal) => refusal.number() as usize,
    }
}

// 0 where nothing is remembered.
fn remembered(m: Memory) -> u64 {
    match m {
        None => 0,
        Some(_) => 1,
    }
}

// Writes what an opening by value resulted in.
fn tell_owned(rt: &HostRuntime, kernel: &[u8]) {
    let o = owned::open_spk(kernel);
    let opened = o.opened;
    let memory = o.memory;
    let table = opened.table;
    let a = owned::state(kernel, table, memory, question());
    streams::write(rt, b"value", 5);
    write_number(rt, opened_to(opened) as u64);
    write_number(rt, remembered(memory));
    write_number(rt, refused_by(a) as u64);
    streams::write(rt, b"\n", 1);
}

// ---- the tables

fn lend_0(rt: &HostRuntime, first: &[u8], second: &[u8]) {
    let f = family();
    let e = table::no_segment();
    let mut t = [e; 0];
    let p = opening::plan_of(first, f, 0);
    lent::carry_out(&mut t, first, f, p);
    let q = opening::plan_of(second, f, 0);
    lent::carry_out(&mut t, second, f, q);
    tell(rt, second, &t, p, q);
}

fn lend_256(rt: &HostRuntime, first: &[u8], second: &[u8]) {
    let f = family();
    let e = table::no_segment();
    let mut t = [e; 256];
    let p = opening::plan_of(first, f, 256);
    lent::carry_out(&mut t, first, f, p);
    let q = opening::plan_of(second, f, 256);
    lent::carry_out(&mut t, second, f, q);
    tell(rt, second, &t, p, q);
}

fn lend_257(rt: &HostRuntime, first: &[u8], second: &[u8]) {
    let f = family();
    let e = table::no_segment();
    let mut t = [e; 257];
    let p = opening::plan_of(first, f, 257);
    lent::carry_out(&mut t, first, f, p);
    let q = opening::plan_of(second, f, 257);
    lent::carry_out(&mut t, second, f, q);
    tell(rt, second, &t, p, q);
}

fn lend_4096(rt: &HostRuntime, first: &[u8], second: &[u8]) {
    let f = family();
    let e = table::no_segment();
    let mut t = [e; 4096];
    let p = opening::plan_of(first, f, 4096);
    lent::carry_out(&mut t, first, f, p);
    let q = opening::plan_of(second, f, 4096);
    lent::carry_out(&mut t, second, f, q);
    tell(rt, second, &t, p, q);
}

fn lend_4097(rt: &HostRuntime, first: &[u8], second: &[u8]) {
    let f = family();
    let e = table::no_segment();
    let mut t = [e; 4097];
    let p = opening::plan_of(first, f, 4097);
    lent::carry_out(&mut t, first, f, p);
    let q = opening::plan_of(second, f, 4097);
    lent::carry_out(&mut t, second, f, q);
    tell(rt, second, &t, p, q);
}

// ---- the kernels

// Room for a kernel of 4,097 summaries.
const ROOM: usize = 170000;

// Opens two kernels into each table.
fn lend_all(rt: &HostRuntime, first: &[u8], second: &[u8]) {
    lend_0(rt, first, second);
    lend_256(rt, first, second);
    lend_257(rt, first, second);
    lend_4096(rt, first, second);
    lend_4097(rt, first, second);
}

// Reads kernel j.
fn with_second(rt: &HostRuntime, first: &[u8], j: usize) {
    let mut buf = [0u8; ROOM];
    if let Some(n) = streams::read_argument(rt, j, b"KERNEL", &mut buf) {
        lend_all(rt, first, &buf[..n]);
    }
}

// Opens kernel i and then kernel j.
fn pair(rt: &HostRuntime, i: usize, j: usize) {
    let mut buf = [0u8; ROOM];
    if let Some(n) = streams::read_argument(rt, i, b"KERNEL", &mut buf) {
        with_second(rt, &buf[..n], j);
    }
}

// Opens kernel i by value.
fn one(rt: &HostRuntime, i: usize) {
    let mut buf = [0u8; ROOM];
    if let Some(n) = streams::read_argument(rt, i, b"KERNEL", &mut buf) {
        tell_owned(rt, &buf[..n]);
    }
}

fn main(rt: HostRuntime) {
    if streams::argument_count(&rt) != 7 {
        streams::complain(&rt, b"usage: replay_places NONE ONE SOME MORE MOST MANY\n");
        return;
    }
    pair(&rt, 1, 1);
    pair(&rt, 1, 2);
    pair(&rt, 2, 1);
    pair(&rt, 4, 2);
    pair(&rt, 4, 3);
    pair(&rt, 3, 4);
    pair(&rt, 6, 2);
    pair(&rt, 6, 5);
    pair(&rt, 5, 6);
    pair(&rt, 5, 2);
    one(&rt, 1);
    one(&rt, 2);
    one(&rt, 3);
    one(&rt, 4);
}
