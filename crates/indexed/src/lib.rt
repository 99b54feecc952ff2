// Openings and questions with an index that the caller lends beside the table: `lent`'s, by the segments that the index names alone.
// Each function is thin, as in `lent`.

#![tactic(auto)]

ghost use Rattle.std.specs.Prelude.{◌≡◌, ◌≤◌, ◌<◌, length, true, not};
ghost use Rattle.daf.specs.declared.Family.TheVariants.{Spk};
ghost use Rattle.segment.specs.Evaluating.{evaluated};
ghost use Rattle.table.specs.Places.{lent_limit, limit_of};
ghost use Rattle.table.specs.Marks.{marked_to};
ghost use Rattle.opening.specs.Steps.{count_in, Fits, carried_out};
ghost use Rattle.opening.specs.Lent.{found, table_after};
ghost use Rattle.opening.specs.Told.{found_told};
ghost use Rattle.index.specs.Parts.{Roomy, first_of, above_of, has_room, filled_index, RightIndex};
ghost use Rattle.spk.specs.Asking.{leg_from};
ghost use Rattle.spk.specs.Told.{asked_told};
ghost use Rattle.pck.specs.Told.{oriented_told};
ghost use Rattle.chain.specs.Walked.{to_zero_by};
ghost use Rattle.indexed.specs.Stepping.{step_by};
ghost use Rattle.indexed.specs.Answering.{indexed_asked, indexed_asked_in, indexed_oriented};
ghost use Rattle.indexed.specs.Asking.{last_found, chained_by, asked_through};
ghost use Rattle.indexed.specs.Orienting.{body_found, oriented_through};
ghost use Rattle.indexed.specs.Opening.{takes, indexed_by, others_by, index_after};

use chain::{Leg, Step};
use daf::Family;
use frame::Given;
use opening::Plan;
use refusal::Refusal;
use segment::Segment;
use spk::{Asked, Memory, Question};

// ---- the choice

// The last covering segment of the question's pair that the walk finds.
fn find(table: &[Segment], ix: &[u16], n: usize, q: Question) -> Option<usize>
    requires { (n ≤ length table.now) × Roomy n ix.now }
    ensures { result ≡ last_found table.now n ix.now q }
{
    table::first_where(table, index::down(ix, n, q.target), |s| q.hits(*s))
}

// ---- the chain

// One step towards body 0: the segments of the leg's body, in file order.
fn step(kernel: &[u8], table: &[Segment], ix: &[u16], n: usize, leg: Leg) -> Step
    requires { ((n ≤ length table.now) × (n ≤ lent_limit)) × Roomy n ix.now }
    ensures { result ≡ step_by (evaluated Spk kernel.now) table.now n (first_of ix.now) (above_of ix.now) leg }
{
    chain::step_along(kernel, table, index::up(ix, n, leg.body), leg)
}

// The state of a question's target about body 0: a walk through the index.
fn to_zero(
    kernel: &[u8],
    table: &[Segment],
    ix: &[u16],
    n: usize,
    q: Question,
) -> Result<Given, Refusal>
    requires { ((n ≤ length table.now) × (n ≤ lent_limit)) × Roomy n ix.now }
    ensures { result ≡ to_zero_by (step_by (evaluated Spk kernel.now) table.now n (first_of ix.now) (above_of ix.now)) (leg_from q) }
{
    let from = spk::start_of(q);
    chain::walk(
        table,
        |t, leg| step(kernel, t, ix, n, *leg),
        from,
        Leg::STEPS,
    )
}

// The chain: target's state to body 0, then center's, subtracted.
fn chained(
    kernel: &[u8],
    table: &[Segment],
    ix: &[u16],
    n: usize,
    q: Question,
) -> Result<Given, Refusal>
    requires { ((n ≤ length table.now) × (n ≤ lent_limit)) × Roomy n ix.now }
    ensures { result ≡ chained_by (evaluated Spk kernel.now) table.now n ix.now q }
{
    spk::chain_of(|p| to_zero(kernel, table, ix, n, *p), q)
}

// ---- the question

// A question through an index that has room for the table.
fn through(
    kernel: &[u8],
    table: &[Segment],
    ix: &[u16],
    n: usize,
    memory: Memory,
    q: Question,
) -> Asked
    requires { Roomy n ix.now }
    ensures { result ≡ asked_through (limit_of (length table.now)) (evaluated Spk kernel.now) table.now n ix.now memory q }
{
    spk::ask(
        kernel,
        table,
        n,
        memory,
        q,
        |p| find(table, ix, n, *p),
        |p| chained(kernel, table, ix, n, *p),
    )
}

// A question with a memory and an index, over the first n of the lent segments. An index without room for them is not used.
pub fn state(
    kernel: &[u8],
    table: &[Segment],
    ix: &[u16],
    n: usize,
    memory: Memory,
    q: Question,
) -> Asked
    ensures value { result ≡ indexed_asked kernel.now table.now n ix.now memory q }
    ensures told { asked_told result ≡ asked_told (indexed_asked kernel.now table.now n ix.now memory q) }
{
    if index::has_room(ix, n) {
        return through(kernel, table, ix, n, memory, q);
    }
    lent::state(kernel, table, n, memory, q)
}

// A question in a frame, the one of this number; as it stands where there is none.
pub fn state_in(
    kernel: &[u8],
    table: &[Segment],
    ix: &[u16],
    n: usize,
    memory: Memory,
    q: Question,
    wanted: Option<i32>,
    rot: [[f64; 3]; 3],
) -> Asked
    ensures value { result ≡ indexed_asked_in kernel.now table.now n ix.now memory q wanted rot }
    ensures told { asked_told result ≡ asked_told (indexed_asked_in kernel.now table.now n ix.now memory q wanted rot) }
{
    let a = state(kernel, table, ix, n, memory, q);
    spk::turned(a, wanted, rot)
}

// ---- a PCK: the orientation of a body frame

// The last covering segment of the body frame that the walk finds.
fn find_body(table: &[Segment], ix: &[u16], n: usize, q: pck::Question) -> Option<usize>
    requires { (n ≤ length table.now) × Roomy n ix.now }
    ensures { result ≡ body_found table.now n ix.now q }
{
    table::first_where(table, index::down(ix, n, q.body), |s| q.hits(*s))
}

// The orientation of a body frame through an index that has room for the table.
fn turn(kernel: &[u8], table: &[Segment], ix: &[u16], n: usize, q: pck::Question) -> pck::Oriented
    requires { Roomy n ix.now }
    ensures { result ≡ oriented_through (limit_of (length table.now)) kernel.now table.now n ix.now q }
{
    pck::orient(kernel, table, n, q, || find_body(table, ix, n, q))
}

// The orientation of a body frame with an index. An index without room for the table is not used.
pub fn orient(
    kernel: &[u8],
    table: &[Segment],
    ix: &[u16],
    n: usize,
    q: pck::Question,
) -> pck::Oriented
    ensures value { result ≡ indexed_oriented kernel.now table.now n ix.now q }
    ensures told { oriented_told result ≡ oriented_told (indexed_oriented kernel.now table.now n ix.now q) }
{
    if index::has_room(ix, n) {
        return turn(kernel, table, ix, n, q);
    }
    lent::orient(kernel, table, n, q)
}

// ---- the opening

// Fills the index of the first n segments.
fn fill_all(ix: &mut [u16], table: &[Segment], n: usize)
    requires { ((n ≤ length table.now) × (n ≤ lent_limit)) × Roomy n ix.old }
    ensures { ix.new ≡ filled_index table.now n ix.old }
{
    index::clear(ix);
    for i in 0..n {
        let s = lent::segment_at(table, i);
        let j = index::mirrored(n, i);
        let u = lent::segment_at(table, j);
        index::join(ix, n, i, s, u);
    }
}

// A plan fills nothing into an index of so many numbers: it refuses, or there is no room.
fn skips(len: usize, p: Plan) -> bool
    ensures { result ≡ not (takes len p) }
{
    p.map_or(true, |f| !index::room_in(len, f.count))
}

// The index after a plan.
fn fill(ix: &mut [u16], table: &[Segment], p: Plan)
    requires { (count_in p ≤ length table.now) × (count_in p ≤ lent_limit) }
    ensures { ix.new ≡ indexed_by p table.now ix.old }
{
    let len = ix.len();
    if skips(len, p) {
        return;
    }
    let n = opening::count_in(p);
    fill_all(ix, table, n);
}

// Of the segments that the walk visits another than the ith overlaps a.
fn has_rival(table: &[Segment], ix: &[u16], n: usize, a: Segment, i: usize) -> bool
    requires { (n ≤ length table.now) × Roomy n ix.now }
    ensures { result ≡ others_by table.now n ix.now a i }
{
    table::any_rival(table, index::down(ix, n, a.target), a, i)
}

// Marks the first n segments, each compared with those that its walk visits.
fn mark_all(table: &mut [Segment], ix: &[u16], n: usize)
    requires { (n ≤ length table.old) × (Roomy n ix.now × RightIndex table.old n ix.now) }
    ensures { table.new ≡ marked_to table.old n n }
{
    lent::mark_by(table, n, |t, a, i| has_rival(t, ix, n, a, i));
}

// Marks the first n segments: through the index where there is room for them, which is then right.
fn mark(table: &mut [Segment], ix: &[u16], n: usize)
    requires { (n ≤ length table.old) × (0 < n → has_room n ix.now ≡ true → RightIndex table.old n ix.now) }
    ensures { table.new ≡ marked_to table.old n n }
{
    if n < 1 {
        return;
    }
    if index::has_room(ix, n) {
        mark_all(table, ix, n);
        return;
    }
    lent::mark_all(table, n);
}

// Carries out a plan: the first places filled, the index filled where there is room, and the marks made through it.
pub fn carry_out(table: &mut [Segment], ix: &mut [u16], kernel: &[u8], family: Family, p: Plan)
    requires { Fits (length table.old) kernel.now p × (count_in p ≤ lent_limit) }
    ensures { (table.new ≡ carried_out family kernel.now p table.old) × (ix.new ≡ indexed_by p (carried_out family kernel.now p table.old) ix.old) }
{
    let n = opening::count_in(p);
    let c = opening::cursor_in(p);
    lent::fill(table, kernel, family, c, n);
    fill(ix, table, p);
    let m = opening::marks_for(family, n);
    mark(table, ix, m);
}

// The opening of a kernel into a lent table and its index: an accepted one fills both, the index where there is room for the segments; a refused one
// leaves both.
pub fn open(
    table: &mut [Segment],
    ix: &mut [u16],
    kernel: &[u8],
    family: Family,
) -> Result<usize, Refusal>
    ensures value { (result ≡ found family (limit_of (length table.old)) kernel.now) × ((table.new ≡ table_after family (limit_of (length table.old)) kernel.now table.old) × (ix.new ≡ index_after family (limit_of (length table.old)) kernel.now table.old ix.old)) }
    ensures told { found_told result ≡ found_told (found family (limit_of (length table.old)) kernel.now) }
{
    let places = table.len();
    let p = opening::plan_of(kernel, family, places);
    carry_out(table, ix, kernel, family, p);
    opening::found_in(p)
}
