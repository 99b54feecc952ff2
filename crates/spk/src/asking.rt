// A question to an SPK, by what finds the last covering segment of a pair and what gives the chain: the scan of all segments, or the walk of an index.

ghost use Rattle.std.specs.Prelude.{◌≡◌, ◌≤◌, ℕ, Option, Result, length};
ghost use Rattle.std.specs.Fn.{FnReturnsAt};
ghost use Rattle.frame.specs.declared.Given.{Given};
ghost use Rattle.refusal.specs.declared.Refusal.{Refusal};
ghost use Rattle.daf.specs.declared.Family.TheVariants.{Spk};
ghost use Rattle.segment.specs.Evaluating.{evaluated};
ghost use Rattle.table.specs.Places.{limit_of};
ghost use Rattle.table.specs.Steps.{Within};
ghost use Rattle.spk.specs.declared.Question.{Question};
ghost use Rattle.spk.specs.Steps.{asked_from};

use crate::{
    Asked, Memory, Question, by_chain, early, forward, recall, remembered, reversed, with_memory,
};
use frame::Given;
use refusal::Refusal;
use segment::Segment;

// A question with a memory, over the first n segments: the tests before any segment; the remembered one, else the last that is found; the last of the
// swapped pair, reversed; the chain. What finds and what gives the chain are called only where the count fits.
pub fn ask<L: Fn(&Question) -> Option<usize>, C: Fn(&Question) -> Result<Given, Refusal>>(
    kernel: &[u8],
    table: &[Segment],
    n: usize,
    memory: Memory,
    q: Question,
    last: L,
    chain: C,
) -> Asked
    requires finds { n ≤ limit_of (length table.now) → L.IsAlwaysCallable last }
    requires gives { n ≤ limit_of (length table.now) → C.IsAlwaysCallable chain }
    requires within { (p : Question) (r : Option ℕ) → FnReturnsAt L.Fn last p r → Within n r }
    ensures { (l : Question → Option ℕ) (z : Question → Result Given Refusal) → ((p : Question) (r : Option ℕ) → FnReturnsAt L.Fn last p r → r ≡ l p) → ((p : Question) (r : Result Given Refusal) → FnReturnsAt C.Fn chain p r → r ≡ z p) → result ≡ asked_from (limit_of (length table.now)) (evaluated Spk kernel.now) table.now n memory q l z }
{
    if let Some(answer) = early(table.len(), n, q) {
        return with_memory(answer, memory);
    }
    if let Some(i) = recall(table, n, memory, q).or_else(|| last(&q)) {
        let kept = remembered(memory, i, table[i]);
        return forward(kernel, kept, i, table[i], q);
    }
    match last(&q.swapped()) {
        Some(i) => with_memory(reversed(kernel, i, table[i], q), memory),
        None => with_memory(by_chain(chain(&q)), memory),
    }
}
