// The walk towards body 0 that a chained answer takes, as `state_wrt_ssb` and `step_toward_ssb` of the Rust: what one step and one walk go by.

#![tactic(auto)]

ghost use Rattle.std.specs.Prelude.{◌≡◌, true, ◌<◌};
ghost use Rattle.daf.specs.declared.Family.TheVariants.{Spk};
ghost use Rattle.segment.specs.Evaluating.{evaluated};
ghost use Rattle.table.specs.Places.{lent_limit};
ghost use Rattle.chain.specs.Step.{leaves, reaches_zero, met, look};
ghost use Rattle.chain.specs.Walk.{no_coverage, onward, returns, advance, is_zero};
ghost use Rattle.chain.specs.Steps.{is_over, end_of, leg_of};

mod along;
mod walking;

pub use along::step_along;
use daf::Family;
use frame::Given;
use refusal::Refusal;
use segment::Segment;
pub use walking::walk;

// Where a walk is: the body that it started from, the current one, the epoch, and the sum so far.
#[derive(Clone, Copy)]
pub struct Leg {
    pub start: i32,
    pub body: i32,
    pub et: f64,
    pub total: Given,
}

impl Leg {
    // The most steps of a walk.
    pub const STEPS: u32 = 32;
}

// A segment that leaves the current body: the body that it goes to, and the state that it gives.
#[derive(Clone, Copy)]
pub struct Hop {
    pub center: i32,
    pub given: Given,
}

// What a step's scan has resulted in: no segment yet, the first that it met, one that goes to body 0, or a refusal. The last two end it.
#[derive(Clone, Copy)]
pub enum Step {
    Blocked,
    Kept(Hop),
    Zero(Given),
    Refused(Refusal),
}

// What the walk results in after a step: its end, which is what segments gave together or the refusal that came of them, or the next leg.
#[derive(Clone, Copy)]
pub enum Next {
    Ended(Result<Given, Refusal>),
    Onward(Leg),
}

// The segment leaves the current body at the epoch.
pub fn leaves(s: Segment, leg: Leg) -> bool
    ensures { result ≡ leaves s leg }
{
    s.target == leg.body && table::is_covering(s, leg.et)
}

// The segment goes to body 0.
fn reaches_zero(s: Segment) -> bool
    ensures { result ≡ reaches_zero s }
{
    s.center == 0
}

impl Step {
    // The scan with one more segment evaluated: one that goes to body 0 ends it, another is kept where it is the first.
    fn met(self, s: Segment, given: Given) -> Step
        ensures { result ≡ met self s given }
    {
        if reaches_zero(s) {
            return Step::Zero(given);
        }
        match self {
            Step::Blocked => Step::Kept(Hop {
                center: s.center,
                given: given,
            }),
            Step::Kept(hop) => Step::Kept(hop),
            Step::Zero(x) => Step::Zero(x),
            Step::Refused(r) => Step::Refused(r),
        }
    }
}

// The scan with segment i, which leaves the body, evaluated.
pub fn look(kernel: &[u8], leg: Leg, kept: Step, s: Segment, i: usize) -> Step
    requires { (i < lent_limit) × (leaves s leg ≡ true) }
    ensures { result ≡ look (evaluated Spk kernel.now) leg kept s i }
{
    match segment::evaluate(kernel, Family::Spk, s, i as u32, leg.et) {
        Err(r) => Step::Refused(r),
        Ok(x) => kept.met(s, Given::of(x.state, s.frame, x.stretched)),
    }
}

// The walk ends with refusal 11 for the current body, which no segment leaves.
fn blocked(leg: Leg) -> Result<Given, Refusal>
    ensures { result ≡ no_coverage leg.body }
{
    Err(Refusal::NoCoverage(leg.body))
}

// The walk ends with refusal 11 for the starting body.
fn no_way(leg: Leg) -> Result<Given, Refusal>
    ensures { result ≡ no_coverage leg.start }
{
    Err(Refusal::NoCoverage(leg.start))
}

// The leg after a hop.
fn onward(leg: Leg, hop: Hop) -> Leg
    ensures { result ≡ onward leg hop }
{
    let total = leg.total.plus(hop.given);
    Leg {
        start: leg.start,
        body: hop.center,
        et: leg.et,
        total: total,
    }
}

// The hop goes back to the starting body.
fn returns(leg: Leg, hop: Hop) -> bool
    ensures { result ≡ returns leg hop }
{
    hop.center == leg.start
}

// What a step leads to.
pub fn advance(leg: Leg, step: Step) -> Next
    ensures { result ≡ advance leg step }
{
    match step {
        Step::Blocked => Next::Ended(blocked(leg)),
        Step::Refused(r) => Next::Ended(Err(r)),
        Step::Zero(x) => Next::Ended(Ok(leg.total.plus(x))),
        Step::Kept(hop) => {
            if returns(leg, hop) {
                return Next::Ended(no_way(leg));
            }
            Next::Onward(onward(leg, hop))
        }
    }
}

// The leg's body is body 0.
pub fn is_zero(leg: Leg) -> bool
    ensures { result ≡ is_zero leg }
{
    leg.body == 0
}

// ---- what a walk goes by

// The walk has ended, or no step is left.
pub fn is_over(at: Next, left: u32) -> bool
    ensures { result ≡ is_over at left }
{
    match at {
        Next::Ended(_) => true,
        Next::Onward(_) => left == 0,
    }
}

// What a walk that is over results in.
pub fn end_of(at: Next) -> Result<Given, Refusal>
    ensures { result ≡ end_of at }
{
    match at {
        Next::Ended(e) => e,
        Next::Onward(leg) => no_way(leg),
    }
}

// The leg that a walk goes on with.
pub fn leg_of(at: Next) -> Leg
    ensures { result ≡ leg_of at }
{
    match at {
        Next::Ended(_) => Leg {
            start: 0,
            body: 0,
            et: 0.0,
            total: Given::nothing(),
        },
        Next::Onward(leg) => leg,
    }
}
