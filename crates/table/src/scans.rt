// Scans over a table's segments. Which of them are visited, and in which order, an iterator of their numbers says.

ghost use Rattle.std.specs.Prelude.{◌≡◌, ℕ, Bool, List, length};
ghost use Rattle.std.specs.Fn.{FnReturnsAt};
ghost use Rattle.std.specs.Iterator.{IsFinite};
ghost use Rattle.std.specs.List.{find, list_any};
ghost use Rattle.segment.specs.declared.Segment.{Segment};
ghost use Rattle.table.specs.Marks.{rivals};
ghost use Rattle.table.specs.Segments.{seg};
ghost use Rattle.table.specs.Visits.{Visits};

use crate::rivals;
use segment::Segment;

// The first visited segment that passes the test, by its number.
pub fn first_where<I: Iterator<Item = usize>, F: Fn(&Segment) -> bool>(
    segments: &[Segment],
    mut visits: I,
    test: F,
) -> Option<usize>
    requires can { I.can_next visits }
    requires ends { IsFinite (I.remaining visits) }
    requires visited { (xs : List ℕ) × Visits I.next_gives visits (length segments.now) xs }
    requires callable { F.IsAlwaysCallable test }
    ensures { (xs : List ℕ) (p : Segment → Bool) → Visits I.next_gives visits (length segments.now) xs → ((s : Segment) (b : Bool) → FnReturnsAt F.Fn test s b → b ≡ p s) → result ≡ find (λ i. p (seg segments.now i)) xs }
{
    visits.find(|&i| test(&segments[i]))
}

// A visited segment, another than segment i, which is a, overlaps it.
pub fn any_rival<I: Iterator<Item = usize>>(
    segments: &[Segment],
    mut visits: I,
    a: Segment,
    i: usize,
) -> bool
    requires can { I.can_next visits }
    requires ends { IsFinite (I.remaining visits) }
    requires visited { (xs : List ℕ) × Visits I.next_gives visits (length segments.now) xs }
    ensures { (xs : List ℕ) → Visits I.next_gives visits (length segments.now) xs → result ≡ list_any (λ k. rivals a i (seg segments.now k) k) xs }
{
    visits.any(|k| rivals(a, i, segments[k], k))
}
