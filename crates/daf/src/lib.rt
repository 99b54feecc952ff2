// The DAF container of every binary kernel: the file record, the walk over the summary records, their summaries, names and addresses.
// The kernel is lent to every call, and nothing is copied out of it but numbers.

#![tactic(auto)]

ghost use Rattle.std.specs.Prelude.{◌≡◌, ◌+◌, ◌*◌, ◌≤◌, ◌<◌, length};
ghost use Rattle.daf.specs.FileRecord.{ni_of, file_record};
ghost use Rattle.daf.specs.Walk.{walk};
ghost use Rattle.daf.specs.Summaries.{place, summary_of};
ghost use Rattle.daf.specs.Opening.{opening};
ghost use Rattle.daf.specs.Names.{name_of};
ghost use Rattle.daf.specs.Addresses.{double_of_address, whole_doubles};
ghost use Rattle.daf.specs.Steps.{Sound, walked_of, walk_opened, counted_of, seek_of, Standing, next_cursor};

mod file_words;
mod names;
mod summaries;
mod walk_steps;

use file_words::{shaped, spells};
use names::{is_ascii, is_space, trimmed};
use refusal::Refusal;
use summaries::{seek, summary};
use walk_steps::{count_of, next_record, past_end};

// Which kernel a DAF is: it decides what a summary holds.
#[derive(Clone, Copy)]
pub enum Family {
    Spk,
    Pck,
}

impl Family {
    // NI, the whole numbers of a summary.
    pub fn ni(self) -> u32
        ensures { result ≡ ni_of self }
    {
        match self {
            Family::Spk => 6,
            Family::Pck => 5,
        }
    }
}

// An opened DAF: its first summary record, how many there are, and how many summaries they hold.
#[derive(Clone, Copy)]
pub struct Daf {
    pub first: u32,
    pub records: usize,
    pub summaries: usize,
}

impl Daf {
    // The length of a record in bytes.
    pub const RECORD: usize = 1024;
}

// Where a summary stands: its record, and its number there.
#[derive(Clone, Copy)]
pub struct Place {
    pub rec: u32,
    pub index: usize,
}

// What a summary holds, with the place of its name. A PCK's body frame is its target, its reference frame the frame.
#[derive(Clone, Copy)]
pub struct Summary {
    pub first: f64,
    pub last: f64,
    pub target: i32,
    pub center: i32,
    pub frame: i32,
    pub data_type: i32,
    pub start: i32,
    pub end: i32,
    pub name_at: usize,
}

// The summary that comes next: its place, how many its record holds, and how many records are left after that one.
#[derive(Clone, Copy)]
pub struct Cursor {
    pub rec: u32,
    pub index: usize,
    pub count: usize,
    pub left: usize,
}

// The file record: refusals 1 to 4, else FWARD.
pub fn file_record(kernel: &[u8], family: Family) -> Result<u32, Refusal>
    ensures { result ≡ file_record family kernel.now }
{
    let len = kernel.len();
    if len < Daf::RECORD {
        return Err(Refusal::KernelLength);
    }
    if 1_073_741_824 < len {
        return Err(Refusal::KernelLength);
    }
    if !spells(kernel, 0, b"DAF/") {
        return Err(Refusal::NotDaf);
    }
    if !spells(kernel, 88, b"LTL-IEEE") {
        return Err(Refusal::NotLittleEndian);
    }
    if !shaped(kernel, family) {
        return Err(Refusal::OtherSummaries);
    }
    Ok(bits::le_u32(kernel, 76))
}

// The walk from a first summary record on: refusals 5 and 6, else how many records there are.
pub fn walk(kernel: &[u8], first: u32) -> Result<usize, Refusal>
    ensures { result ≡ walked_of (walk kernel.now first) }
{
    let most = kernel.len() / Daf::RECORD;
    let mut r = first;
    for n in 0..=most {
        if r == 0 {
            return Ok(n);
        }
        if past_end(kernel, r) {
            return Err(Refusal::RecordPastEnd);
        }
        r = next_record(kernel, r);
    }
    // the kernel has no more records than that: one of them came a second time
    Err(Refusal::RecordTwice)
}

// The counts of n records from `first` on: refusals 7 and 8, else the opened DAF.
fn counted(kernel: &[u8], first: u32, n: usize, limit: usize) -> Result<Daf, Refusal>
    requires { Sound kernel.now first n × (1024 * n ≤ length kernel.now) }
    ensures { result ≡ counted_of kernel.now first n limit }
{
    let mut r = first;
    let mut total: usize = 0;
    for _ in 0..n {
        let count = count_of(kernel, r);
        if 25 < count {
            return Err(Refusal::CountOver25);
        }
        total += count as usize;
        r = next_record(kernel, r);
    }
    if limit < total {
        return Err(Refusal::TooManySummaries);
    }
    Ok(Daf {
        first: first,
        records: n,
        summaries: total,
    })
}

// The opening after the file record: refusals 5 to 8.
fn open_from(kernel: &[u8], first: u32, limit: usize) -> Result<Daf, Refusal>
    ensures { result ≡ walk_opened limit kernel.now first }
{
    let n = walk(kernel, first)?;
    counted(kernel, first, n, limit)
}

// The opening of a DAF whose table has `limit` places: refusals 1 to 8 in their order.
pub fn open(kernel: &[u8], family: Family, limit: usize) -> Result<Daf, Refusal>
    ensures { result ≡ opening family limit kernel.now }
{
    let first = file_record(kernel, family)?;
    open_from(kernel, first, limit)
}

// Summary `index` of record `rec`.
pub fn summary_at(kernel: &[u8], family: Family, rec: u32, index: usize) -> Summary
    requires { (1 ≤ rec) × (1024 * (rec + 1) ≤ length kernel.now) × (index < 25) }
    ensures { result ≡ summary_of family kernel.now (place rec index) }
{
    let at = Daf::RECORD * (rec as usize - 1) + 24 + 40 * index;
    let name_at = Daf::RECORD * (rec as usize) + 40 * index;
    summary(kernel, family, at, name_at)
}

impl Daf {
    // The first summary of an opened DAF.
    pub fn start(self, kernel: &[u8]) -> Cursor
        requires { Sound kernel.now self.first self.records }
        ensures { result ≡ seek_of kernel.now self.first self.records }
    {
        let first = self.first;
        let records = self.records;
        seek(kernel, first, records)
    }
}

impl Cursor {
    // Past the last summary.
    pub const NONE: Cursor = Cursor {
        rec: 0,
        index: 0,
        count: 0,
        left: 0,
    };

    // The summary after this one.
    pub fn next(self, kernel: &[u8]) -> Cursor
        requires { Standing kernel.now self × (self.index < self.count) }
        ensures { result ≡ next_cursor kernel.now self }
    {
        let rec = self.rec;
        let index = self.index;
        let count = self.count;
        let left = self.left;
        if index + 1 < count {
            return Cursor {
                rec: rec,
                index: index + 1,
                count: count,
                left: left,
            };
        }
        let r = next_record(kernel, rec);
        seek(kernel, r, left)
    }
}

// The name whose 40 bytes start at `at`: that part of the lent kernel itself, for any place.
pub fn name(kernel: &[u8], at: usize) -> &[u8]
    ensures { result.now ≡ name_of kernel.now at }
{
    let len = kernel.len();
    if len < 40 || len - 40 < at {
        return &kernel[0..0];
    }
    let bytes = &kernel[at..at + 40];
    if !is_ascii(bytes) {
        return &kernel[0..0];
    }
    trimmed(trimmed(bytes, |b| b == 0), is_space)
}

// A double by its address.
pub fn double(kernel: &[u8], address: usize) -> f64
    requires { (1 ≤ address) × (8 * address ≤ length kernel.now) }
    ensures { result ≡ double_of_address kernel.now address }
{
    bits::double_at(kernel, 8 * (address - 1))
}

// How many whole doubles a kernel has.
pub fn whole_doubles(kernel: &[u8]) -> usize
    ensures { result ≡ whole_doubles kernel.now }
{
    kernel.len() / 8
}
