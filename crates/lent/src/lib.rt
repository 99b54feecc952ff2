// The segment table as a slice that the caller lends, 0 to 4,096 places: the opening, the questions, the chain, a segment alone, orientations.
// Each function is thin: it reads or stores an element whole, and leaves the rest to functions on values.

#![tactic(auto)]

ghost use Rattle.std.specs.Prelude.{◌≡◌, ◌≤◌, ◌<◌, ℕ, Bool, List, length, set};
ghost use Rattle.std.specs.Borrow.{Bor};
ghost use Rattle.segment.specs.declared.Segment.{Segment};
ghost use Rattle.daf.specs.declared.Family.TheVariants.{Spk};
ghost use Rattle.segment.specs.Evaluating.{evaluated};
ghost use Rattle.table.specs.Choosing.{last_in};
ghost use Rattle.table.specs.Marks.{others, marked_to};
ghost use Rattle.table.specs.Naming.{name_at};
ghost use Rattle.table.specs.Places.{lent_limit, limit_of};
ghost use Rattle.table.specs.Segments.{seg};
ghost use Rattle.table.specs.Steps.{seg_or};
ghost use Rattle.opening.specs.Steps.{Ready, filled, Fits, carried_out};
ghost use Rattle.opening.specs.Lent.{found, table_after};
ghost use Rattle.opening.specs.Told.{found_told};
ghost use Rattle.chain.specs.Step.{step_from};
ghost use Rattle.chain.specs.Walk.{to_zero};
ghost use Rattle.spk.specs.Answering.{lent_asked, lent_asked_in, lent_alone};
ghost use Rattle.spk.specs.Asking.{leg_from, chained};
ghost use Rattle.spk.specs.Questions.{hits};
ghost use Rattle.spk.specs.Told.{answer_told, asked_told};
ghost use Rattle.pck.specs.Answering.{lent_oriented, lent_alone_oriented};
ghost use Rattle.pck.specs.Steps.{body_hits};
ghost use Rattle.pck.specs.Told.{oriented_told};

use chain::{Leg, Step};
use daf::{Cursor, Family};
use frame::Given;
use opening::Plan;
use refusal::Refusal;
use segment::Segment;
use spk::{Answer, Asked, Memory, Question};

// ---- what touches the slice

// Segment i, read whole.
pub fn segment_at(table: &[Segment], i: usize) -> Segment
    requires { i < length table.now }
    ensures { result ≡ seg table.now i }
{
    table[i]
}

// How many places are lent.
pub fn table_len(table: &[Segment]) -> usize
    ensures { result ≡ length table.now }
{
    table.len()
}

// Segment i of the first n, else the empty one.
pub fn segment_or(table: &[Segment], n: usize, i: usize) -> Segment
    requires { n ≤ length table.now }
    ensures { result ≡ seg_or table.now n i }
{
    if i < n {
        return segment_at(table, i);
    }
    table::no_segment()
}

// ---- the choice

// The last of the first n segments that is of the question's pair and covers the epoch. The scan goes down, and ends at the first that it meets.
fn last_hit(table: &[Segment], n: usize, q: Question) -> Option<usize>
    requires { n ≤ length table.now }
    ensures { result ≡ last_in (hits q) table.now n }
{
    table::first_where(table, (0..n).rev(), |s| q.hits(*s))
}

// ---- the chain

// One step towards body 0: the scan of the table in file order. Only a segment that leaves the body is read whole.
fn step(kernel: &[u8], table: &[Segment], n: usize, leg: Leg) -> Step
    requires { (n ≤ length table.now) × (n ≤ lent_limit) }
    ensures { result ≡ step_from (evaluated Spk kernel.now) table.now n leg }
{
    chain::step_along(kernel, table, 0..n, leg)
}

// The state of a question's target about body 0: a walk over all segments.
fn to_zero(kernel: &[u8], table: &[Segment], n: usize, q: Question) -> Result<Given, Refusal>
    requires { (n ≤ length table.now) × (n ≤ lent_limit) }
    ensures { result ≡ to_zero (evaluated Spk kernel.now) table.now n (leg_from q) }
{
    let from = spk::start_of(q);
    chain::walk(table, |t, leg| step(kernel, t, n, *leg), from, Leg::STEPS)
}

// The chain: target's state to body 0, then center's, subtracted. A refusal on the target's walk is the chain's.
fn chained(kernel: &[u8], table: &[Segment], n: usize, q: Question) -> Result<Given, Refusal>
    requires { (n ≤ length table.now) × (n ≤ lent_limit) }
    ensures { result ≡ chained (evaluated Spk kernel.now) table.now n q }
{
    spk::chain_of(|p| to_zero(kernel, table, n, *p), q)
}

// ---- the question

// A question with a memory, over the first n of the lent segments.
pub fn state(kernel: &[u8], table: &[Segment], n: usize, memory: Memory, q: Question) -> Asked
    ensures value { result ≡ lent_asked kernel.now table.now n memory q }
    ensures told { asked_told result ≡ asked_told (lent_asked kernel.now table.now n memory q) }
{
    spk::ask(
        kernel,
        table,
        n,
        memory,
        q,
        |p| last_hit(table, n, *p),
        |p| chained(kernel, table, n, *p),
    )
}

// A question in a frame, the one of this number; as it stands where there is none.
pub fn state_in(
    kernel: &[u8],
    table: &[Segment],
    n: usize,
    memory: Memory,
    q: Question,
    wanted: Option<i32>,
    rot: [[f64; 3]; 3],
) -> Asked
    ensures value { result ≡ lent_asked_in kernel.now table.now n memory q wanted rot }
    ensures told { asked_told result ≡ asked_told (lent_asked_in kernel.now table.now n memory q wanted rot) }
{
    let a = state(kernel, table, n, memory, q);
    spk::turned(a, wanted, rot)
}

// ---- a segment by its number

// The name of a segment by its number: that part of the lent kernel itself, empty where there is no such segment.
pub fn name<'a, 'b>(kernel: &'a [u8], table: &'b [Segment], n: usize, number: usize) -> &'a [u8]
    ensures { result.now ≡ name_at (limit_of (length table.now)) kernel.now table.now n number }
{
    let places = table_len(table);
    let m = table::counted(places, n);
    let s = segment_or(table, m, number);
    table::name_in(kernel, m, number, s)
}

// A segment evaluated alone by its number, covering or not.
pub fn alone(kernel: &[u8], table: &[Segment], n: usize, number: usize, et: f64) -> Answer
    ensures value { result ≡ lent_alone kernel.now table.now n number et }
    ensures told { answer_told result ≡ answer_told (lent_alone kernel.now table.now n number et) }
{
    let places = table_len(table);
    let m = table::counted(places, n);
    let s = segment_or(table, m, number);
    spk::alone_by(kernel, places, n, number, et, s)
}

// ---- the opening: all is judged from the kernel and the number of places, and then written

// Place i, stored whole.
pub fn put_segment(table: &mut [Segment], i: usize, s: Segment)
    requires { i < length table.old }
    ensures { table.new ≡ set table.old i s }
{
    table[i] = s;
}

// Fills the first n places with the segments from a cursor on, and leaves the others.
pub fn fill(table: &mut [Segment], kernel: &[u8], family: Family, start: Cursor, n: usize)
    requires { (n ≤ length table.old) × Ready kernel.now start n }
    ensures { table.new ≡ filled family kernel.now start table.old n }
{
    let mut c = start;
    for i in 0..n {
        let s = opening::segment_here(kernel, family, c);
        put_segment(table, i, s);
        c = opening::cursor_after(kernel, c);
    }
}

// ---- the marks

// Of the first n segments another than the ith overlaps a.
fn has_rival(table: &[Segment], n: usize, a: Segment, i: usize) -> bool
    requires { n ≤ length table.now }
    ensures { result ≡ others table.now a i n }
{
    table::any_rival(table, (0..n).rev(), a, i)
}

// Marks the first n segments, by what says of a table whether its segment i, which is handed in, has a rival: each that has none. The other places stay.
pub fn mark_by<R: Fn(&[Segment], Segment, usize) -> bool>(
    table: &mut [Segment],
    n: usize,
    has_rival: R,
)
    requires bound { n ≤ length table.old }
    requires tells { (t : Bor (List Segment)) (a : Segment) (i : ℕ) → length t.now ≡ length table.old → R.pre has_rival t a i }
    requires right { (t : Bor (List Segment)) (a : Segment) (i : ℕ) (b : Bool) → t.now ≡ marked_to table.old n i → a ≡ seg t.now i → R.post has_rival t a i b → b ≡ others t.now a i n }
    ensures { table.new ≡ marked_to table.old n n }
{
    for i in 0..n {
        let a = segment_at(table, i);
        let met = has_rival(table, a, i);
        let s = table::marked_by(a, met);
        put_segment(table, i, s);
    }
}

// Marks the first n segments: each that no other of its pair among them overlaps. The other places stay.
pub fn mark_all(table: &mut [Segment], n: usize)
    requires { n ≤ length table.old }
    ensures { table.new ≡ marked_to table.old n n }
{
    mark_by(table, n, |t, a, i| has_rival(t, n, a, i));
}

// Carries a plan out: fills the first places, with their marks, and leaves the others; leaves all where it refuses.
pub fn carry_out(table: &mut [Segment], kernel: &[u8], family: Family, p: Plan)
    requires { Fits (length table.old) kernel.now p }
    ensures { table.new ≡ carried_out family kernel.now p table.old }
{
    let n = opening::count_in(p);
    let c = opening::cursor_in(p);
    fill(table, kernel, family, c, n);
    let m = opening::marks_for(family, n);
    mark_all(table, m);
}

// The opening of a kernel into a lent table: an accepted one fills the first places, with their marks, and leaves the others; a refused one leaves all.
pub fn open(table: &mut [Segment], kernel: &[u8], family: Family) -> Result<usize, Refusal>
    ensures value { (result ≡ found family (limit_of (length table.old)) kernel.now) × (table.new ≡ table_after family (limit_of (length table.old)) kernel.now table.old) }
    ensures told { found_told result ≡ found_told (found family (limit_of (length table.old)) kernel.now) }
{
    let places = table.len();
    let p = opening::plan_of(kernel, family, places);
    carry_out(table, kernel, family, p);
    opening::found_in(p)
}

// ---- a PCK: the orientation of a body frame

// The last of the first n segments that is of the body frame and covers the epoch.
fn last_body(table: &[Segment], n: usize, q: pck::Question) -> Option<usize>
    requires { n ≤ length table.now }
    ensures { result ≡ last_in (body_hits q) table.now n }
{
    table::first_where(table, (0..n).rev(), |s| q.hits(*s))
}

// The orientation of a body frame, over the first n of the lent segments.
pub fn orient(kernel: &[u8], table: &[Segment], n: usize, q: pck::Question) -> pck::Oriented
    ensures value { result ≡ lent_oriented kernel.now table.now n q }
    ensures told { oriented_told result ≡ oriented_told (lent_oriented kernel.now table.now n q) }
{
    pck::orient(kernel, table, n, q, || last_body(table, n, q))
}

// A segment of a PCK evaluated alone by its number, covering or not.
pub fn orient_alone(
    kernel: &[u8],
    table: &[Segment],
    n: usize,
    number: usize,
    et: f64,
) -> pck::Oriented
    ensures value { result ≡ lent_alone_oriented kernel.now table.now n number et }
    ensures told { oriented_told result ≡ oriented_told (lent_alone_oriented kernel.now table.now n number et) }
{
    let places = table_len(table);
    let m = table::counted(places, n);
    let s = segment_or(table, m, number);
    pck::alone_by(kernel, places, n, number, et, s)
}
