// A walk towards body 0, by what a step from a leg gives over a table's segments.

ghost use Rattle.std.specs.Prelude.{◌≡◌, List};
ghost use Rattle.std.specs.Borrow.{Bor};
ghost use Rattle.segment.specs.declared.Segment.{Segment};
ghost use Rattle.chain.specs.declared.Leg.{Leg};
ghost use Rattle.chain.specs.declared.Step.{Step};
ghost use Rattle.chain.specs.Walk.{follow};
ghost use Rattle.chain.specs.Walked.{walk_by};

use crate::{Leg, Next, Step, advance, end_of, is_over, leg_of};
use frame::Given;
use refusal::Refusal;
use segment::Segment;

// A walk of at most `left` steps, by recursion over the current body. The segments are lent to each step, and not held by what steps: a table by value
// would be copied for one that holds them.
pub fn walk<F: Fn(&[Segment], &Leg) -> Step>(
    segments: &[Segment],
    step: F,
    at: Next,
    left: u32,
) -> Result<Given, Refusal>
    requires { (t : Bor (List Segment)) (leg : Bor Leg) → t.now ≡ segments.now → F.pre step t leg }
    ensures { (s : Leg → Step) → ((t : Bor (List Segment)) (leg : Bor Leg) (r : Step) → t.now ≡ segments.now → F.post step t leg r → r ≡ s leg.now) → result ≡ follow (λ on. walk_by s on left) at }
{
    if is_over(at, left) {
        return end_of(at);
    }
    let leg = leg_of(at);
    let met = step(segments, &leg);
    walk(segments, step, advance(leg, met), left - 1)
}
