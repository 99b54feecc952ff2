// Questions to an opened PCK: the angles of a body frame, and the reference frame that they are about. There is no memory.

#![tactic(auto)]

ghost use Rattle.std.specs.Prelude.{◌≡◌, ◌≤◌, ◌<◌, ℕ, Option, length, unwrap_or};
ghost use Rattle.daf.specs.declared.Family.TheVariants.{Pck};
ghost use Rattle.segment.specs.Evaluating.{evaluated};
ghost use Rattle.table.specs.Places.{lent_limit, limit_of};
ghost use Rattle.table.specs.Steps.{seg_or, Within};
ghost use Rattle.pck.specs.Orienting.{oriented_of, refused_oriented, settled, is_body, hits, no_coverage};
ghost use Rattle.pck.specs.Steps.{early, oriented_with};
ghost use Rattle.pck.specs.Alone.{alone_with};

use daf::Family;
use frame::State;
use refusal::Refusal;
use segment::{Segment, Valued};

// The orientation of a body frame at an epoch.
#[derive(Clone, Copy)]
pub struct Question {
    pub body: i32,
    pub et: f64,
}

// An orientation: the segment's reference frame, the three angles and their rates, and whether a record was stretched; frame 0 and six zeros where it is a
// refusal.
#[derive(Clone, Copy)]
pub struct Oriented {
    pub outcome: Result<(), Refusal>,
    pub frame: i32,
    pub angles: State,
    pub stretched: bool,
}

impl Question {
    // The segment is of this body frame, which stands as its target.
    fn is_body(self, s: Segment) -> bool
        ensures { result ≡ is_body self s }
    {
        s.target == self.body
    }

    // The segment is of this body frame and covers the epoch.
    pub fn hits(self, s: Segment) -> bool
        ensures { result ≡ hits self s }
    {
        self.is_body(s) && table::is_covering(s, self.et)
    }

    // No segment of the body frame covers the epoch.
    fn no_coverage(self) -> Refusal
        ensures { result ≡ no_coverage self }
    {
        Refusal::NoCoverage(self.body)
    }
}

impl Oriented {
    // Every answer is made here.
    fn new(outcome: Result<(), Refusal>, frame: i32, angles: State, stretched: bool) -> Oriented
        ensures { result ≡ oriented_of outcome frame angles stretched }
    {
        Oriented {
            outcome,
            frame,
            angles,
            stretched,
        }
    }

    // A refusal.
    fn refused(refusal: Refusal) -> Oriented
        ensures { result ≡ refused_oriented refusal }
    {
        Oriented::new(Err(refusal), 0, State::zero(), false)
    }

    // The answer of what a segment was evaluated to: its refusal, then 15, then its reference frame with the six numbers and its word.
    fn settled(s: Segment, e: Result<Valued, Refusal>) -> Oriented
        ensures { result ≡ settled s e }
    {
        match e {
            Err(refusal) => Oriented::refused(refusal),
            Ok(value) => {
                if value.state.is_finite() {
                    Oriented::new(Ok(()), s.frame, value.state, value.stretched)
                } else {
                    Oriented::refused(Refusal::NotFinite)
                }
            }
        }
    }
}

// ---- what a question goes by

// What the tests before any segment answer: the refusals of a count and of an epoch. None where no test decides.
pub fn early(places: usize, n: usize, q: Question) -> Option<Oriented>
    ensures { result ≡ early (limit_of places) n q }
{
    table::ready(places, n, q.et).err().map(Oriented::refused)
}

// Segment i, which was chosen, answers.
pub fn answered_by(kernel: &[u8], i: usize, s: Segment, q: Question) -> Oriented
    requires { i < lent_limit }
    ensures { result ≡ settled s (evaluated Pck kernel.now s i q.et) }
{
    let e = segment::evaluate(kernel, Family::Pck, s, i as u32, q.et);
    Oriented::settled(s, e)
}

// No segment answers.
pub fn uncovered(q: Question) -> Oriented
    ensures { result ≡ refused_oriented (no_coverage q) }
{
    Oriented::refused(q.no_coverage())
}

// The orientation of a body frame over the first n segments, by what finds the last covering one of the body frame: the scan of all segments, or the walk
// of an index. It is called only where no test before it decides.
pub fn orient<L: FnOnce() -> Option<usize>>(
    kernel: &[u8],
    table: &[Segment],
    n: usize,
    q: Question,
    last: L,
) -> Oriented
    requires finds { n ≤ limit_of (length table.now) → L.pre last }
    requires within { (r : Option ℕ) → L.post last r → Within n r }
    ensures { (c : Option ℕ) → ((r : Option ℕ) → L.post last r → r ≡ c) → result ≡ oriented_with (limit_of (length table.now)) kernel.now n q c (seg_or table.now n (unwrap_or c n)) }
{
    if let Some(answer) = early(table.len(), n, q) {
        return answer;
    }
    match last() {
        Some(i) => answered_by(kernel, i, table[i], q),
        None => uncovered(q),
    }
}

// Segment `number`, which is s, by the tests before any evaluation, else evaluated.
pub fn alone_by(
    kernel: &[u8],
    places: usize,
    n: usize,
    number: usize,
    et: f64,
    s: Segment,
) -> Oriented
    ensures { result ≡ alone_with (limit_of places) kernel.now n number et s }
{
    if let Err(refusal) = table::ready(places, n, et) {
        return Oriented::refused(refusal);
    }
    if n <= number {
        return Oriented::refused(Refusal::NoSegment);
    }
    let e = segment::evaluate(kernel, Family::Pck, s, number as u32, et);
    Oriented::settled(s, e)
}
