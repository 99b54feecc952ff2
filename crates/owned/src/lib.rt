// The table by value, 256 places, for small hosts. Each function owns its array and lends it to `lent`: there is no second body of code.

#![tactic(auto)]

ghost use Rattle.std.specs.Prelude.{◌≡◌, []};
ghost use Rattle.daf.specs.declared.Family.TheVariants.{Spk, Pck};
ghost use Rattle.table.specs.Naming.{name_at};
ghost use Rattle.table.specs.Places.{table_limit, empty_places};
ghost use Rattle.opening.specs.Opening.{opened};
ghost use Rattle.opening.specs.Steps.{Fits, carried_out};
ghost use Rattle.opening.specs.Told.{opened_told};
ghost use Rattle.spk.specs.Answering.{owned_asked, owned_asked_in, owned_alone};
ghost use Rattle.spk.specs.Told.{memory_told, answer_told, asked_told};
ghost use Rattle.pck.specs.Answering.{owned_oriented, owned_alone_oriented};
ghost use Rattle.pck.specs.Told.{oriented_told};
ghost use Rattle.owned.specs.Owned.{opened_by, opened_spk};

use daf::Family;
use opening::{Opened, Plan};
use segment::Segment;
use spk::{Answer, Asked, Memory, Question};
use table::Table;

// An SPK opened: what the opening results in, and the memory that the first question takes.
#[derive(Clone, Copy)]
pub struct OpenedSpk {
    pub opened: Opened,
    pub memory: Memory,
}

// The opening of a plan that was carried out in these places.
fn opened_by(p: Plan, segments: [Segment; Table::PLACES]) -> Opened
    ensures { result ≡ opened_by p segments }
{
    Opened {
        outcome: p.map(|_| ()),
        table: Table {
            segments,
            count: opening::count_in(p),
        },
    }
}

// ---- the functions that own an array and lend it

// The opening by a plan that can be carried out in 256 places.
pub fn open_by(kernel: &[u8], family: Family, p: Plan) -> Opened
    requires { Fits table_limit kernel.now p }
    ensures { result ≡ opened_by p (carried_out family kernel.now p (empty_places table_limit)) }
{
    let e = table::no_segment();
    let mut t = [e; Table::PLACES];
    lent::carry_out(&mut t, kernel, family, p);
    opened_by(p, t)
}

// The opening of a kernel: refusals 1 to 9 in their order, or its table.
pub fn open(kernel: &[u8], family: Family) -> Opened
    ensures value { result ≡ opened family kernel.now }
    ensures told { opened_told result ≡ opened_told (opened family kernel.now) }
{
    let p = opening::plan_of(kernel, family, Table::PLACES);
    open_by(kernel, family, p)
}

// The opening of an SPK: it remembers nothing.
pub fn open_spk(kernel: &[u8]) -> OpenedSpk
    ensures value { result ≡ opened_spk kernel.now }
    ensures told { (opened_told result.opened ≡ opened_told (opened Spk kernel.now)) × (memory_told result.memory ≡ []) }
{
    let opened = open(kernel, Family::Spk);
    OpenedSpk {
        opened: opened,
        memory: None,
    }
}

// A question with a memory.
pub fn state(kernel: &[u8], table: Table, memory: Memory, q: Question) -> Asked
    ensures value { result ≡ owned_asked kernel.now table memory q }
    ensures told { asked_told result ≡ asked_told (owned_asked kernel.now table memory q) }
{
    lent::state(kernel, &table.segments, table.count, memory, q)
}

// A question in a frame, the one of this number; as it stands where there is none.
pub fn state_in(
    kernel: &[u8],
    table: Table,
    memory: Memory,
    q: Question,
    wanted: Option<i32>,
    rot: [[f64; 3]; 3],
) -> Asked
    ensures value { result ≡ owned_asked_in kernel.now table memory q wanted rot }
    ensures told { asked_told result ≡ asked_told (owned_asked_in kernel.now table memory q wanted rot) }
{
    lent::state_in(kernel, &table.segments, table.count, memory, q, wanted, rot)
}

// A segment evaluated alone by its number, covering or not.
pub fn alone(kernel: &[u8], table: Table, number: usize, et: f64) -> Answer
    ensures value { result ≡ owned_alone kernel.now table number et }
    ensures told { answer_told result ≡ answer_told (owned_alone kernel.now table number et) }
{
    lent::alone(kernel, &table.segments, table.count, number, et)
}

// The orientation of a body frame.
pub fn orient(kernel: &[u8], table: Table, q: pck::Question) -> pck::Oriented
    ensures value { result ≡ owned_oriented kernel.now table q }
    ensures told { oriented_told result ≡ oriented_told (owned_oriented kernel.now table q) }
{
    lent::orient(kernel, &table.segments, table.count, q)
}

// A segment of a PCK evaluated alone by its number, covering or not.
pub fn orient_alone(kernel: &[u8], table: Table, number: usize, et: f64) -> pck::Oriented
    ensures value { result ≡ owned_alone_oriented kernel.now table number et }
    ensures told { oriented_told result ≡ oriented_told (owned_alone_oriented kernel.now table number et) }
{
    lent::orient_alone(kernel, &table.segments, table.count, number, et)
}

// The name of a segment by its number: that part of the lent kernel itself, empty where there is no such segment.
pub fn name(kernel: &[u8], table: Table, number: usize) -> &[u8]
    ensures { result.now ≡ name_at table_limit kernel.now table.segments table.count number }
{
    lent::name(kernel, &table.segments, table.count, number)
}
