// The opening of a kernel, SPK or PCK: refusals 1 to 9, or what is to be filled into how many places.

#![tactic(auto)]

ghost use Rattle.std.specs.Prelude.{◌≡◌, ◌≤◌};
ghost use Rattle.daf.specs.Opening.{opening};
ghost use Rattle.daf.specs.Steps.{next_cursor};
ghost use Rattle.table.specs.Places.{lent_limit, limit_of};
ghost use Rattle.opening.specs.Steps.{Here, here_of, planned_from, plan_of, count_in, cursor_in, found_in, marks_for};

use daf::{Cursor, Daf, Family};
use refusal::Refusal;
use segment::Segment;
use table::Table;

// An opening by value: the table has 0 segments where it was refused.
#[derive(Clone, Copy)]
pub struct Opened {
    pub outcome: Result<(), Refusal>,
    pub table: Table,
}

// ---- the plan: all is judged from the kernel and the number of places, before any place is written

// What an accepted opening fills: so many places, with the segments from a cursor on.
#[derive(Clone, Copy)]
pub struct Filling {
    pub count: usize,
    pub start: Cursor,
}

// What an opening does: what it fills, or the refusal.
pub type Plan = Result<Filling, Refusal>;

// The segments of an opened DAF, judged in file order: refusal 9 for the first that is malformed.
fn plan_from(kernel: &[u8], family: Family, limit: usize, d: Daf) -> Plan
    requires { (limit ≤ lent_limit) × (opening family limit kernel.now ≡ Ok d) }
    ensures { result ≡ planned_from family kernel.now }
{
    let n = d.summaries;
    let start = d.start(kernel);
    let mut c = start;
    for i in 0..n {
        let summary = daf::summary_at(kernel, family, c.rec, c.index);
        let judged = segment::judge(kernel, family, summary);
        let Some(_) = judged else {
            return Err(Refusal::Malformed(i as u32));
        };
        c = c.next(kernel);
    }
    Ok(Filling { count: n, start })
}

// Refusals 1 to 9 in their order, or what is to be filled.
pub fn plan_of(kernel: &[u8], family: Family, places: usize) -> Plan
    ensures { result ≡ plan_of family (limit_of places) kernel.now }
{
    let limit = table::limit_of(places);
    let d = daf::open(kernel, family, limit)?;
    plan_from(kernel, family, limit, d)
}

// How many places are filled: none where it is refused.
pub fn count_in(p: Plan) -> usize
    ensures { result ≡ count_in p }
{
    p.map_or(0, |f| f.count)
}

// The cursor that the filling starts from.
pub fn cursor_in(p: Plan) -> Cursor
    ensures { result ≡ cursor_in p }
{
    p.map_or(Cursor::NONE, |f| f.start)
}

// What an opening by a plan results in.
pub fn found_in(p: Plan) -> Result<usize, Refusal>
    ensures { result ≡ found_in p }
{
    p.map(|f| f.count)
}

// The segment of the summary at a cursor, unmarked.
pub fn segment_here(kernel: &[u8], family: Family, c: Cursor) -> Segment
    requires { Here kernel.now c }
    ensures { result ≡ here_of family kernel.now c }
{
    let summary = daf::summary_at(kernel, family, c.rec, c.index);
    segment::judge(kernel, family, summary).unwrap_or(Segment::EMPTY)
}

// The cursor after a cursor.
pub fn cursor_after(kernel: &[u8], c: Cursor) -> Cursor
    requires { Here kernel.now c }
    ensures { result ≡ next_cursor kernel.now c }
{
    c.next(kernel)
}

// How many are marked: none of a PCK.
pub fn marks_for(family: Family, n: usize) -> usize
    ensures { result ≡ marks_for family n }
{
    match family {
        Family::Spk => n,
        Family::Pck => 0,
    }
}
