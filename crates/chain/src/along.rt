// The step over a table's segments that are visited by their numbers: all of them, or those that an index names.

ghost use Rattle.std.specs.Prelude.{◌≡◌, ℕ, List, length};
ghost use Rattle.std.specs.Iterator.{IsFinite};
ghost use Rattle.daf.specs.declared.Family.TheVariants.{Spk};
ghost use Rattle.segment.specs.Evaluating.{evaluated};
ghost use Rattle.table.specs.Places.{limit_of};
ghost use Rattle.table.specs.Visits.{Visits};
ghost use Rattle.chain.specs.declared.Step.TheVariants.{Blocked};
ghost use Rattle.chain.specs.Visited.{step_over};
ghost use Rattle.chain.specs.Step.{is_end};

use crate::{Leg, Step, leaves, look};
use segment::Segment;

impl Step {
    // The scan has ended: at a segment that goes to body 0, or by a refusal.
    fn is_end(self) -> bool
        ensures { result ≡ is_end self }
    {
        matches!(self, Step::Zero(_) | Step::Refused(_))
    }
}

// One step towards body 0: the scan of the visited segments. Only a segment that leaves the body is read whole.
pub fn step_along<I: Iterator<Item = usize>>(
    kernel: &[u8],
    segments: &[Segment],
    visits: I,
    leg: Leg,
) -> Step
    requires can { I.can_next visits }
    requires ends { IsFinite (I.remaining visits) }
    requires visited { (xs : List ℕ) × Visits I.next_gives visits (limit_of (length segments.now)) xs }
    ensures { (xs : List ℕ) → Visits I.next_gives visits (limit_of (length segments.now)) xs → result ≡ step_over (evaluated Spk kernel.now) segments.now leg Blocked xs }
{
    let mut kept = Step::Blocked;
    for i in visits {
        let s = &segments[i];
        if leaves(*s, leg) {
            kept = look(kernel, leg, kept, *s, i);
            if kept.is_end() {
                return kept;
            }
        }
    }
    kept
}
