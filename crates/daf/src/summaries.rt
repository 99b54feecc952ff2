// The summaries of each family, and the first of a run of records: specs/Summaries.antt.
ghost use Rattle.std.specs.Prelude.{◌≡◌, ◌+◌, ◌*◌, ◌≤◌, length};
ghost use Rattle.daf.specs.Summaries.{whole_at};
ghost use Rattle.daf.specs.Steps.{Sound, seek_of, summary_in};

use super::walk_steps::{count_of, next_record};
use super::{Cursor, Family, Summary};

// Whole number j of the summary whose bytes start at `at`, after its two doubles.
fn whole_at(kernel: &[u8], at: usize, j: usize) -> i32
    requires { at + (16 + 4 * j) + 4 ≤ length kernel.now }
    ensures { result ≡ whole_at kernel.now at j }
{
    bits::le_i32(kernel, at + 16 + 4 * j)
}

// The summary whose bytes start at `at`. A PCK's has no center, and what follows it stands one number earlier.
pub fn summary(kernel: &[u8], family: Family, at: usize, name_at: usize) -> Summary
    requires { at + 40 ≤ length kernel.now }
    ensures { result ≡ summary_in family kernel.now at name_at }
{
    let (center, frame) = match family {
        Family::Spk => (whole_at(kernel, at, 1), 2),
        Family::Pck => (0, 1),
    };
    Summary {
        first: bits::double_at(kernel, at),
        last: bits::double_at(kernel, at + 8),
        target: whole_at(kernel, at, 0),
        center,
        frame: whole_at(kernel, at, frame),
        data_type: whole_at(kernel, at, frame + 1),
        start: whole_at(kernel, at, frame + 2),
        end: whole_at(kernel, at, frame + 3),
        name_at,
    }
}

// The first summary of `left` records from r on.
pub fn seek(kernel: &[u8], first: u32, records: usize) -> Cursor
    requires { Sound kernel.now first records }
    ensures { result ≡ seek_of kernel.now first records }
{
    let mut r = first;
    for left in (0..records).rev() {
        let count = count_of(kernel, r);
        if 0 < count {
            return Cursor {
                rec: r,
                index: 0,
                count: count as usize,
                left,
            };
        }
        r = next_record(kernel, r);
    }
    Cursor::NONE
}
