// The refusals of RULES, "Refusals", a case for each number, with what its detail is made of.

#![tactic(auto)]

ghost use Rattle.std.specs.Prelude.{◌≡◌};
ghost use Rattle.refusal.specs.Numbers.{number_of, detail_of};

#[derive(Clone, Copy)]
pub enum Refusal {
    // 1: the kernel has under 1,024 or over 1,073,741,824 bytes
    KernelLength,
    // 2: bytes 0..3 are not `DAF/`
    NotDaf,
    // 3: bytes 88..95 are not `LTL-IEEE`
    NotLittleEndian,
    // 4: ND, NI are not those of the kernel's family
    OtherSummaries,
    // 5: a summary record, or the name record after it, ends past the kernel
    RecordPastEnd,
    // 6: the walk reaches a record a second time
    RecordTwice,
    // 7: a summary count over 25
    CountOver25,
    // 8: more summaries than the table has places
    TooManySummaries,
    // 9: a malformed segment, by its number
    Malformed(u32),
    // 10: the epoch is NaN
    EpochNan,
    // 11: no coverage, for this body (PCK: body frame)
    NoCoverage(i32),
    // 12: this type is not supported
    Unsupported(i32),
    // 13: RADIUS is zero, in the segment of this number
    ZeroRadius(u32),
    // 14: the table doesn't fit the kernel
    TableUnfit,
    // 15: a number of the final six is not finite
    NotFinite,
    // 16: a window of no records, in the segment of this number
    EmptyWindow(u32),
    // 17: no segment of that number
    NoSegment,
    // 18: a program's input is over 65,536 bytes
    InputTooLong,
    // 19: a record of a program's input doesn't begin with its mark, or is cut short
    BadRecord,
    // 20: a usage file names a 513th supplier
    TooManySuppliers,
    // 21: a state is asked in a frame that it can't be turned to
    OtherFrame,
}

impl Refusal {
    // The number of the table in RULES, "Refusals".
    pub fn number(self) -> u32
        ensures { result ≡ number_of self }
    {
        match self {
            Refusal::KernelLength => 1,
            Refusal::NotDaf => 2,
            Refusal::NotLittleEndian => 3,
            Refusal::OtherSummaries => 4,
            Refusal::RecordPastEnd => 5,
            Refusal::RecordTwice => 6,
            Refusal::CountOver25 => 7,
            Refusal::TooManySummaries => 8,
            Refusal::Malformed(_) => 9,
            Refusal::EpochNan => 10,
            Refusal::NoCoverage(_) => 11,
            Refusal::Unsupported(_) => 12,
            Refusal::ZeroRadius(_) => 13,
            Refusal::TableUnfit => 14,
            Refusal::NotFinite => 15,
            Refusal::EmptyWindow(_) => 16,
            Refusal::NoSegment => 17,
            Refusal::InputTooLong => 18,
            Refusal::BadRecord => 19,
            Refusal::TooManySuppliers => 20,
            Refusal::OtherFrame => 21,
        }
    }

    // The detail of that table: a segment's number, a body, a type, or 0.
    pub fn detail(self) -> i64
        ensures { result ≡ detail_of self }
    {
        match self {
            Refusal::KernelLength => 0,
            Refusal::NotDaf => 0,
            Refusal::NotLittleEndian => 0,
            Refusal::OtherSummaries => 0,
            Refusal::RecordPastEnd => 0,
            Refusal::RecordTwice => 0,
            Refusal::CountOver25 => 0,
            Refusal::TooManySummaries => 0,
            Refusal::Malformed(segment) => segment as i64,
            Refusal::EpochNan => 0,
            Refusal::NoCoverage(body) => body as i64,
            Refusal::Unsupported(data_type) => data_type as i64,
            Refusal::ZeroRadius(segment) => segment as i64,
            Refusal::TableUnfit => 0,
            Refusal::NotFinite => 0,
            Refusal::EmptyWindow(segment) => segment as i64,
            Refusal::NoSegment => 0,
            Refusal::InputTooLong => 0,
            Refusal::BadRecord => 0,
            Refusal::TooManySuppliers => 0,
            Refusal::OtherFrame => 0,
        }
    }
}
