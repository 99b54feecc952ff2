// Segments: what a table keeps of one, the tests that a segment has to pass (refusal 9), and the evaluation of one segment on the kernel lent now.
// A table may be forged: evaluation repeats the tests, and reads within the segment's own bounds only.

#![tactic(auto)]

ghost use Rattle.std.specs.Prelude.{◌≡◌, ◌+◌, ◌*◌, ◌^◌, ◌≤◌, ◌<◌, ℕ};
ghost use Rattle.bits.specs.Record.{is_stretched};
ghost use Rattle.daf.specs.Addresses.{byte_of};
ghost use Rattle.segment.specs.Kinds.{states_trailer};
ghost use Rattle.segment.specs.Malformed.{judged};
ghost use Rattle.segment.specs.Evaluating.{evaluated};
ghost use Rattle.segment.specs.Told.{evaluated_told, judged_told};

mod evaluating;
mod kinds;
mod malformed;

use cheby::Chosen;
use daf::{Family, Summary};
use evaluating::{evaluate_any, is_three, plain_coefficients, plain_place, plainly_fits};
use frame::State;
use malformed::{find, segment_with, start_of};
use refusal::Refusal;

// What a segment's data are: each handled kind carries its own trailer numbers.
#[derive(Clone, Copy)]
pub enum Kind {
    Unsupported,
    Type2 {
        init: f64,
        intlen: f64,
        rsize: u64,
        count: u64,
    },
    Type3 {
        init: f64,
        intlen: f64,
        rsize: u64,
        count: u64,
    },
    Type9 {
        degree: u64,
        count: u64,
    },
    Type13 {
        degree: u64,
        count: u64,
    },
}

// The fields stand so that a copy of sixteen bytes at a time never cuts a pair that is read at once: the limits, INIT with INTLEN.
#[derive(Clone, Copy)]
pub struct Segment {
    pub target: i32,
    pub center: i32,
    pub frame: i32,
    pub data_type: i32,
    pub first: f64,
    pub last: f64,
    pub start: i32,
    pub end: i32,
    pub kind: Kind,
    pub name_at: usize,
    pub marked: bool,
}

impl Segment {
    // The empty segment: all zeros, unsupported, unmarked.
    pub const EMPTY: Segment = Segment {
        target: 0,
        center: 0,
        frame: 0,
        data_type: 0,
        start: 0,
        end: 0,
        first: 0.0,
        last: 0.0,
        name_at: 0,
        marked: false,
        kind: Kind::Unsupported,
    };
}

// What a segment gives: its state, and whether a record was stretched to the epoch.
#[derive(Clone, Copy)]
pub struct Valued {
    pub state: State,
    pub stretched: bool,
}

impl Valued {
    // A state, stretched or not.
    fn of(state: State, stretched: bool) -> Valued
        ensures { result ≡ record { state = state; stretched = stretched } }
    {
        Valued { state, stretched }
    }
}

// Where the record for an epoch starts, and whether it is stretched to the epoch.
#[derive(Clone, Copy)]
struct Place {
    byte: usize,
    stretched: bool,
}

impl Place {
    // The place of the record that was chosen, among records of so many doubles from address `start` on.
    fn of(start: usize, size: u64, r: Chosen) -> Place
        requires { (1 ≤ start) × (byte_of start + 8 * (size * r.number) < 2 ^ 64) }
        ensures { result ≡ record { byte = byte_of start + 8 * (size * r.number); stretched = is_stretched r.reach } }
    {
        Place {
            byte: 8 * (start - 1) + 8 * (size * r.number) as usize,
            stretched: r.reach.is_stretched(),
        }
    }
}

// How the data of a handled type are laid out.
#[derive(Clone, Copy)]
enum Form {
    Two,
    Three,
    Nine,
    Thirteen,
}

// The numbers that end a segment's data: INIT and INTLEN (0 where there are none), RSIZE or degree, and N.
#[derive(Clone, Copy)]
struct Trailer {
    init: f64,
    intlen: f64,
    size: u64,
    count: u64,
}

impl Trailer {
    // No numbers.
    const NONE: Trailer = Trailer {
        init: 0.0,
        intlen: 0.0,
        size: 0,
        count: 0,
    };

    // The numbers of types 2 and 3.
    fn of_records(init: f64, intlen: f64, size: u64, count: u64) -> Trailer
        ensures { result ≡ record { init = init; intlen = intlen; size = size; count = count } }
    {
        Trailer {
            init,
            intlen,
            size,
            count,
        }
    }

    // The numbers of types 9 and 13; INIT and INTLEN are none of them.
    fn of_states(degree: u64, count: u64) -> Trailer
        ensures { result ≡ states_trailer degree count }
    {
        Trailer {
            init: 0.0,
            intlen: 0.0,
            size: degree,
            count,
        }
    }
}

// The segment of a summary at the opening, unmarked, or none where it is malformed (9).
pub fn judge(kernel: &[u8], family: Family, summary: Summary) -> Option<Segment>
    ensures value { result ≡ judged family kernel.now summary }
    ensures told { (i : ℕ) → judged_told i result ≡ judged_told i (judged family kernel.now summary) }
{
    let kind = find(kernel, family, segment_with(summary, Kind::Unsupported))?;
    Some(segment_with(summary, kind))
}

// Segment number `number`, evaluated at et on the kernel lent now. Types 2 and 3 that plainly fit are evaluated here, the answer made in place; the
// segment is copied only where it goes on as a whole.
pub fn evaluate(
    kernel: &[u8],
    family: Family,
    s: Segment,
    number: u32,
    et: f64,
) -> Result<Valued, Refusal>
    ensures value { result ≡ evaluated family kernel.now s number et }
    ensures told { evaluated_told result ≡ evaluated_told (evaluated family kernel.now s number et) }
{
    let kind = s.kind;
    match kind {
        Kind::Type2 {
            init,
            intlen,
            rsize,
            count,
        } if s.data_type == 2 => {
            let t = Trailer::of_records(init, intlen, rsize, count);
            if plainly_fits(kernel, 3, s, t) {
                let at = plain_place(kernel, start_of(s), t, et);
                if cheby::no_radius(kernel, at.byte) {
                    return Err(Refusal::ZeroRadius(number));
                }
                let c = plain_coefficients(3, t.size);
                let state = cheby::state2_at(kernel, at.byte, c, et);
                return Ok(Valued::of(state, at.stretched));
            }
        }
        Kind::Type3 {
            init,
            intlen,
            rsize,
            count,
        } if is_three(family, s) => {
            let t = Trailer::of_records(init, intlen, rsize, count);
            if plainly_fits(kernel, 6, s, t) {
                let at = plain_place(kernel, start_of(s), t, et);
                let c = plain_coefficients(6, t.size);
                let state = cheby::state3_at(kernel, at.byte, c, et);
                return Ok(Valued::of(state, at.stretched));
            }
        }
        _ => {}
    }
    let own = s;
    let other = evaluate_any(kernel, family, own, number, et);
    other
}
