// Questions to an opened SPK: which segment answers, the memory, the chain, and the frame that a state is asked in.

#![tactic(auto)]

ghost use Rattle.std.specs.Prelude.{◌≡◌, ◌<◌, ◌≤◌, length, Result, Ok};
ghost use Rattle.std.specs.Fn.{FnReturnsAt};
ghost use Rattle.frame.specs.declared.Given.{Given};
ghost use Rattle.refusal.specs.declared.Refusal.{Refusal};
ghost use Rattle.spk.specs.declared.Question.{Question};
ghost use Rattle.daf.specs.declared.Family.TheVariants.{Spk};
ghost use Rattle.segment.specs.Evaluating.{evaluated};
ghost use Rattle.table.specs.Places.{lent_limit, limit_of};
ghost use Rattle.spk.specs.Questions.{is_same, swapped, is_pair, hits, serves};
ghost use Rattle.spk.specs.Choosing.{remembered_at, recall};
ghost use Rattle.spk.specs.Answers.{answer_of, refused_answer, same_answer, settled, negated_of, difference_of};
ghost use Rattle.spk.specs.Asking.{leg_from};
ghost use Rattle.spk.specs.Turning.{frame_of, is_refused, turned_by, turned_to, turned_answer, turned_asked};
ghost use Rattle.spk.specs.Alone.{alone_with};
ghost use Rattle.spk.specs.Steps.{early};
ghost use Rattle.chain.specs.Step.{yield_of};
ghost use Rattle.chain.specs.Steps.{begin};

mod asking;

pub use asking::ask;
use chain::{Leg, Next};
use daf::Family;
use frame::{Framed, Given, State, Turn};
use refusal::Refusal;
use segment::Segment;
use table::Table;

// The state of a target about a center at an epoch. It goes from function to function as a struct: a signed number that is passed by
// itself is read back from its bits at each call.
#[derive(Clone, Copy)]
pub struct Question {
    pub target: i32,
    pub center: i32,
    pub et: f64,
}

// The segment that the last forward choice of a marked segment chose, by its number; none, so that nothing is remembered.
pub type Memory = Option<usize>;

// How a question was answered, with the number of the segment where one alone answers.
#[derive(Clone, Copy)]
pub enum Way {
    Same,
    Forward(u32),
    Reversed(u32),
    Chained,
    Refused(Refusal),
}

// An answer: its way, and the state with the frame of its numbers and whether a record was stretched: six zeros that no segment gave where it is a refusal.
#[derive(Clone, Copy)]
pub struct Answer {
    pub way: Way,
    pub given: Given,
}

// An answer, with what is remembered after it.
#[derive(Clone, Copy)]
pub struct Asked {
    pub answer: Answer,
    pub memory: Memory,
}

impl Question {
    // Target equals center.
    fn is_same(self) -> bool
        ensures { result ≡ is_same self }
    {
        self.target == self.center
    }

    // The same question with the pair swapped.
    pub fn swapped(self) -> Question
        ensures { result ≡ swapped self }
    {
        Question {
            target: self.center,
            center: self.target,
            et: self.et,
        }
    }

    // The walk of the target to body 0.
    fn leg(self) -> Leg
        ensures { result ≡ leg_from self }
    {
        let total = Given::nothing();
        Leg {
            start: self.target,
            body: self.target,
            et: self.et,
            total: total,
        }
    }

    // The segment is of this pair.
    fn is_pair(self, s: Segment) -> bool
        ensures { result ≡ is_pair s self }
    {
        s.target == self.target && s.center == self.center
    }

    // The segment is of this pair and covers the epoch.
    pub fn hits(self, s: Segment) -> bool
        ensures { result ≡ hits self s }
    {
        self.is_pair(s) && table::is_covering(s, self.et)
    }

    // The segment serves from memory.
    fn serves(self, s: Segment) -> bool
        ensures { result ≡ serves self s }
    {
        s.marked && self.hits(s)
    }
}

// The same memory, made anew: the bytes between the tag and the number aren't carried along.
fn again(memory: Memory) -> Memory
    ensures { result ≡ memory }
{
    match memory {
        Some(i) => Some(i),
        None => None,
    }
}

// What is remembered after segment i was chosen forward: it, if it is marked, whatever evaluating it results in.
pub fn remembered(memory: Memory, i: usize, s: Segment) -> Memory
    ensures { result ≡ remembered_at memory i s }
{
    if s.marked { Some(i) } else { again(memory) }
}

impl Way {
    fn is_refused(self) -> bool
        ensures { result ≡ is_refused self }
    {
        match self {
            Way::Same => false,
            Way::Forward(_) => false,
            Way::Reversed(_) => false,
            Way::Chained => false,
            Way::Refused(_) => true,
        }
    }
}

impl Answer {
    // Every answer is made here.
    fn new(way: Way, given: Given) -> Answer
        ensures { result ≡ answer_of way given }
    {
        Answer {
            way: way,
            given: given,
        }
    }

    // Six zeros in J2000, for target equal to center.
    fn same() -> Answer
        ensures { result ≡ same_answer }
    {
        Answer::new(Way::Same, Given::of(State::zero(), frame::J2000, false))
    }

    // A refusal.
    fn refused(r: Refusal) -> Answer
        ensures { result ≡ refused_answer r }
    {
        Answer::new(Way::Refused(r), Given::nothing())
    }

    // The answer by a way, of a state that segments gave: 15, then the state.
    fn of(way: Way, g: Given) -> Answer
        ensures { result ≡ settled way (Ok g) }
    {
        if g.state.is_finite() {
            Answer::new(way, g)
        } else {
            Answer::refused(Refusal::NotFinite)
        }
    }

    // The same of what segments gave, or the refusal that came of them.
    fn settled(way: Way, e: Result<Given, Refusal>) -> Answer
        ensures { result ≡ settled way e }
    {
        match e {
            Err(r) => Answer::refused(r),
            Ok(g) => Answer::of(way, g),
        }
    }

    // The frame that the numbers are in.
    fn frame(self) -> Framed
        ensures { result ≡ frame_of self }
    {
        let given = self.given;
        let frame = given.frame;
        frame
    }

    // The answer as the turn to a frame makes it: by the matrix, by its transpose, or 21.
    fn turned_by(self, turn: Turn, to: i32, rot: [[f64; 3]; 3]) -> Answer
        ensures { result ≡ turned_by turn to rot self }
    {
        let way = self.way;
        let given = self.given;
        match turn {
            Turn::Stands => self,
            Turn::Forth => Answer::of(way, given.turned(rot, to)),
            Turn::Back => {
                let back = frame::transpose(rot);
                Answer::of(way, given.turned(back, to))
            }
            Turn::Never => Answer::refused(Refusal::OtherFrame),
        }
    }

    // The answer in a frame: the state's refusal first, then 21, then 15 of the turned state.
    fn turned_to(self, to: i32, rot: [[f64; 3]; 3]) -> Answer
        ensures { result ≡ turned_to to rot self }
    {
        let way = self.way;
        if way.is_refused() {
            return self;
        }
        let from = self.frame();
        let turn = from.turn(to);
        self.turned_by(turn, to, rot)
    }

    // The answer in the frame that it is asked in, the one of this number, or as it stands where there is none: the matrix `rot`, given row by row,
    // turns J2000 to ECLIPJ2000.
    pub fn turned(self, wanted: Option<i32>, rot: [[f64; 3]; 3]) -> Answer
        ensures { result ≡ turned_answer wanted rot self }
    {
        match wanted {
            Some(to) => self.turned_to(to, rot),
            None => self,
        }
    }
}

// Segment i answers in its own direction.
fn evaluated_at(kernel: &[u8], i: usize, s: Segment, et: f64) -> Answer
    requires { i < lent_limit }
    ensures { result ≡ settled (Way.Forward i) (yield_of s (evaluated Spk kernel.now s i et)) }
{
    let e = segment::evaluate(kernel, Family::Spk, s, i as u32, et);
    // no `map` of a Result that is then settled: the answer is made in place
    match e {
        Err(r) => Answer::refused(r),
        Ok(x) => Answer::of(
            Way::Forward(i as u32),
            Given::of(x.state, s.frame, x.stretched),
        ),
    }
}

// Segment i, which was chosen forward, answers; `kept` is what is remembered after it.
pub fn forward(kernel: &[u8], kept: Memory, i: usize, s: Segment, q: Question) -> Asked
    requires { i < lent_limit }
    ensures { result ≡ record { answer = settled (Way.Forward i) (yield_of s (evaluated Spk kernel.now s i q.et)); memory = kept } }
{
    let answer = evaluated_at(kernel, i, s, q.et);
    Asked {
        answer: answer,
        memory: kept,
    }
}

// Segment i, which was chosen reversed, answers.
pub fn reversed(kernel: &[u8], i: usize, s: Segment, q: Question) -> Answer
    requires { i < lent_limit }
    ensures { result ≡ settled (Way.Reversed i) (negated_of (yield_of s (evaluated Spk kernel.now s i q.et))) }
{
    let e = segment::evaluate(kernel, Family::Spk, s, i as u32, q.et);
    match e {
        Err(r) => Answer::refused(r),
        Ok(x) => {
            let given = Given::of(x.state, s.frame, x.stretched);
            Answer::of(Way::Reversed(i as u32), given.negated())
        }
    }
}

// The answer by the chain, of what it resulted in.
pub fn by_chain(e: Result<Given, Refusal>) -> Answer
    ensures { result ≡ settled Way.Chained e }
{
    Answer::settled(Way::Chained, e)
}

// An answer that leaves the memory.
pub fn with_memory(answer: Answer, memory: Memory) -> Asked
    ensures { result ≡ record { answer = answer; memory = memory } }
{
    let kept = again(memory);
    Asked {
        answer: answer,
        memory: kept,
    }
}

// ---- what a question goes by: the segments that were found are handed in

// The remembered segment, if it is one of the first n and serves the question.
pub fn recall(table: &[Segment], n: usize, memory: Memory, q: Question) -> Option<usize>
    requires { n ≤ length table.now }
    ensures { result ≡ recall table.now n memory q }
{
    memory.filter(|&i| i < n && q.serves(table[i]))
}

// Where the walk of a question's target starts: body 0 takes no step.
pub fn start_of(q: Question) -> Next
    ensures { result ≡ begin (leg_from q) }
{
    let leg = q.leg();
    if chain::is_zero(leg) {
        let total = leg.total;
        return Next::Ended(Ok(total));
    }
    Next::Onward(leg)
}

// The chain, by what the walk of a question's target gives: the target's state about body 0 less the center's. The target's refusal comes first.
pub fn chain_of<W: Fn(&Question) -> Result<Given, Refusal>>(
    to_zero: W,
    q: Question,
) -> Result<Given, Refusal>
    requires { W.IsAlwaysCallable to_zero }
    ensures { (z : Question → Result Given Refusal) → ((p : Question) (r : Result Given Refusal) → FnReturnsAt W.Fn to_zero p r → r ≡ z p) → result ≡ difference_of (z q) (z (swapped q)) }
{
    let a = to_zero(&q)?;
    let b = to_zero(&q.swapped())?;
    Ok(a.minus(b))
}

// What the tests before any segment answer: target equals center, then the refusals of a count and of an epoch. None where no test decides.
pub fn early(places: usize, n: usize, q: Question) -> Option<Answer>
    ensures { result ≡ early (limit_of places) n q }
{
    if q.is_same() {
        return Some(Answer::same());
    }
    table::ready(places, n, q.et).err().map(Answer::refused)
}

// An answer in the frame that it is asked in. The memory stays.
pub fn turned(a: Asked, wanted: Option<i32>, rot: [[f64; 3]; 3]) -> Asked
    ensures { result ≡ turned_asked wanted rot a }
{
    let answer = a.answer;
    let kept = a.memory;
    with_memory(answer.turned(wanted, rot), kept)
}

// Segment `number`, which is s, by the tests before any evaluation, else evaluated.
pub fn alone_by(
    kernel: &[u8],
    places: usize,
    n: usize,
    number: usize,
    et: f64,
    s: Segment,
) -> Answer
    ensures { result ≡ alone_with (limit_of places) (evaluated Spk kernel.now) n number et s }
{
    if let Err(refusal) = table::ready(places, n, et) {
        return Answer::refused(refusal);
    }
    if n <= number {
        return Answer::refused(Refusal::NoSegment);
    }
    evaluated_at(kernel, number, s, et)
}
