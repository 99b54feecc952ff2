// The segment table by value, and what the scans over a table's segments go by: the choice of one, the marks.

#![tactic(auto)]

ghost use Rattle.std.specs.Prelude.{◌≡◌, not};
ghost use Rattle.table.specs.Segments.{empty_segment, is_covering, meets, same_pair, overlaps, with_mark};
ghost use Rattle.table.specs.Places.{limit_of, empty_table};
ghost use Rattle.table.specs.Steps.{counted, ready, name_with};
ghost use Rattle.table.specs.Marks.{rivals};

mod scans;

use refusal::Refusal;
pub use scans::{any_rival, first_where};
use segment::Segment;

// The segments of an opened kernel, in file order: those below the count.
#[derive(Clone, Copy)]
pub struct Table {
    pub segments: [Segment; Table::PLACES],
    pub count: usize,
}

impl Table {
    // The most segments that a table holds.
    pub const PLACES: usize = 256;

    // The most places of a lent table that are used.
    pub const LENT: usize = 4096;

    // The table of no segments.
    pub fn empty() -> Self
        ensures { result ≡ empty_table }
    {
        Table {
            segments: [Segment::EMPTY; Table::PLACES],
            count: 0,
        }
    }
}

// The segment covers this epoch.
pub fn is_covering(s: Segment, et: f64) -> bool
    ensures { result ≡ is_covering s et }
{
    s.first <= et && et <= s.last
}

// The times of two segments touch.
fn meets(a: Segment, b: Segment) -> bool
    ensures { result ≡ meets a b }
{
    a.first <= b.last && b.first <= a.last
}

// Two segments are of one pair.
fn same_pair(a: Segment, b: Segment) -> bool
    ensures { result ≡ same_pair a b }
{
    a.target == b.target && a.center == b.center
}

// Two segments of one pair whose times touch.
fn overlaps(a: Segment, b: Segment) -> bool
    ensures { result ≡ overlaps a b }
{
    same_pair(a, b) && meets(a, b)
}

// Segment k, which is b, is another than segment i, which is a, and overlaps it. That it is another is asked last: few overlap.
fn rivals(a: Segment, i: usize, b: Segment, k: usize) -> bool
    ensures { result ≡ rivals a i b k }
{
    overlaps(a, b) && k != i
}

// The segment with this mark.
fn with_mark(s: Segment, m: bool) -> Segment
    ensures { result ≡ with_mark s m }
{
    let mut out = s;
    out.marked = m;
    out
}

// ---- what the scans over a table go by

// The empty segment.
pub fn no_segment() -> Segment
    ensures { result ≡ empty_segment }
{
    Segment::EMPTY
}

// The limit of a table of so many places.
pub fn limit_of(places: usize) -> usize
    ensures { result ≡ limit_of places }
{
    places.min(Table::LENT)
}

// How many segments there are: none where the count is over the limit.
pub fn counted(places: usize, n: usize) -> usize
    ensures { result ≡ counted (limit_of places) n }
{
    if limit_of(places) < n { 0 } else { n }
}

// The tests of a question before any segment: a count over the limit, an epoch that is NaN.
pub fn ready(places: usize, n: usize, et: f64) -> Result<(), Refusal>
    ensures { result ≡ ready (limit_of places) n et }
{
    let limit = limit_of(places);
    if limit < n {
        return Err(Refusal::TableUnfit);
    }
    if et.is_nan() {
        return Err(Refusal::EpochNan);
    }
    Ok(())
}

// The segment with its mark, by whether it has a rival.
pub fn marked_by(a: Segment, met: bool) -> Segment
    ensures { result ≡ with_mark a (not met) }
{
    with_mark(a, !met)
}

// The name of segment `number` of n, which is s: that part of the lent kernel itself, empty where there is no such segment.
pub fn name_in(kernel: &[u8], n: usize, number: usize, s: Segment) -> &[u8]
    ensures { result.now ≡ name_with kernel.now n number s }
{
    if n <= number {
        return &kernel[0..0];
    }
    daf::name(kernel, s.name_at)
}
