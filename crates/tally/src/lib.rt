// Usage files: how often each supplier is named. One pass over the file keeps the suppliers in order of number, each with its count.

#![tactic(auto)]

ghost use Rattle.std.specs.Prelude.{◌≡◌, ◌+◌, ◌*◌, ◌≤◌, ◌<◌, length};
ghost use Rattle.tally.specs.Usage.{usage_size, supplier_at, suppliers_of};
ghost use Rattle.tally.specs.Faults.{supplier_limit};
ghost use Rattle.tally.specs.Statement.{statement_of};
ghost use Rattle.tally.specs.Steps.{Rising, Place, put_in, Tallied};

use records::Mark;
use refusal::Refusal;

// The most suppliers that a statement has.
pub const SUPPLIERS: usize = 512;

// The bytes of a usage record, and what it begins with.
const SIZE: usize = 8;

const MARK: Mark = Mark {
    first: 0xa5,
    second: 0x5a,
};

// A line of a statement: a supplier, and how many records name it.
#[derive(Clone, Copy)]
pub struct Line {
    pub supplier: u64,
    pub count: u64,
}

// The statement of a usage file.
#[derive(Clone, Copy)]
pub struct Statement {
    // the lines in order of supplier, then lines of zeros
    pub lines: [Line; SUPPLIERS],
    // how many lines there are
    pub known: usize,
    // how many records there are
    pub total: u64,
}

// The supplier that record i names.
fn supplier_at(file: &[u8], i: usize) -> u64
    requires { usage_size * i + usage_size ≤ length file.now }
    ensures { result ≡ supplier_at file.now i }
{
    bits::le_u32(file, SIZE * i + 4) as u64
}

// How many of the lines stand before supplier x.
fn place_of(lines: &[Line], x: u64) -> usize
    requires { Rising lines.now }
    ensures { Place lines.now x result }
{
    lines.partition_point(|line| line.supplier < x)
}

// Puts a line in at a place of the first n.
fn put_in(lines: &mut [Line; SUPPLIERS], n: usize, at: usize, line: Line)
    requires { (at ≤ n) × (n < supplier_limit) × (length lines.old ≡ supplier_limit) }
    ensures { lines.new ≡ put_in lines.old n at line }
{
    lines.copy_within(at..n, at + 1);
    lines[at] = line;
}

// Counts record i, and answers how many suppliers there are then. Where these are too many nothing more is said of the lines.
fn count_record(file: &[u8], i: usize, lines: &mut [Line; SUPPLIERS], known: usize) -> usize
    requires { (usage_size * i + usage_size ≤ length file.now) × Tallied file.now i lines.old known }
    ensures many { result ≡ length (suppliers_of file.now (i + 1)) }
    ensures tallied { result ≤ supplier_limit → Tallied file.now (i + 1) lines.new result }
{
    let x = supplier_at(file, i);
    let at = place_of(&lines[..known], x);
    if at < known && lines[at].supplier == x {
        lines[at].count += 1;
        return known;
    }
    if known < SUPPLIERS {
        let line = Line {
            supplier: x,
            count: 1,
        };
        put_in(lines, known, at, line);
    }
    known + 1
}

// The statement of a usage file, its lines and the total; or 19 or 20 for its first fault in file order.
pub fn add_up(file: &[u8]) -> Result<Statement, Refusal>
    ensures { result ≡ statement_of file.now }
{
    let n = file.len() / SIZE;
    let mut lines = [Line {
        supplier: 0,
        count: 0,
    }; SUPPLIERS];
    let mut known = 0;
    for i in 0..n {
        if !records::is_marked(file, SIZE, MARK, i) {
            return Err(Refusal::BadRecord);
        }
        known = count_record(file, i, &mut lines, known);
        if SUPPLIERS < known {
            return Err(Refusal::TooManySuppliers);
        }
    }
    if file.len() % SIZE != 0 {
        return Err(Refusal::BadRecord);
    }
    Ok(Statement {
        lines,
        known,
        total: n as u64,
    })
}
