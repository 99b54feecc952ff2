// One segment evaluated on the kernel lent now, by the tests themselves, and the quick tests: specs/Evaluating.antt.
ghost use Rattle.std.specs.Prelude.{◌≡◌, true, false, ◌+◌, ◌*◌, ◌^◌, ◌≤◌, ◌<◌, length, Some};
ghost use Rattle.bits.specs.Bytes.{double_of};
ghost use Rattle.bits.specs.F64.{finite};
ghost use Rattle.daf.specs.Addresses.{byte_of, double_of_address};
ghost use Rattle.segment.specs.Kinds.{form_of, records_at};
ghost use Rattle.segment.specs.Malformed.{coefficients, bad_size};
ghost use Rattle.segment.specs.Evaluating.{unsupported, unfit, evaluated};
ghost use Rattle.segment.specs.Steps.{valued, place_of, Records, States, Sound, Plain};
ghost use Rattle.segment.specs.declared.Form.TheVariants.{Three};

use super::kinds::same_kind;
use super::malformed::{bad_interval, coefficients, end_of, find, misplaced, overruns, start_of};
use super::{Kind, Place, Segment, Trailer, Valued};
use daf::Family;
use refusal::Refusal;

// The kind is unsupported.
pub fn unsupported(kind: Kind) -> bool
    ensures { result ≡ unsupported kind }
{
    matches!(kind, Kind::Unsupported)
}

// The tests repeated on this kernel fail, or they find another kind than the table's.
pub fn unfit(kernel: &[u8], family: Family, s: Segment) -> bool
    ensures { result ≡ unfit family kernel.now s }
{
    match find(kernel, family, s) {
        None => true,
        Some(kind) => !same_kind(kind, s.kind),
    }
}

// The word of an address: the pattern of its double.
pub fn word_at(kernel: &[u8], address: usize) -> u64
    requires { (1 ≤ address) × (8 * address ≤ length kernel.now) }
    ensures { double_of result ≡ double_of_address kernel.now address }
{
    bits::le_u64(kernel, 8 * (address - 1))
}

// The words that end at address `end` are this trailer's, of types 2 and 3, with RSIZE and N as whole numbers. Other words may make the same
// trailer: it says no to those.
pub fn has_words(kernel: &[u8], end: usize, t: Trailer) -> bool
    requires { (4 ≤ end) × (8 * end ≤ length kernel.now) × (finite t.init ≡ true) × (finite t.intlen ≡ true) × (t.size < 2 ^ 31) × (t.count < 2 ^ 31) }
    ensures { result ≡ true → records_at kernel.now end ≡ t }
{
    bits::has_bits(word_at(kernel, end - 3), t.init)
        && bits::has_bits(word_at(kernel, end - 2), t.intlen)
        && bits::has_whole(word_at(kernel, end - 1), t.size)
        && bits::has_whole(word_at(kernel, end), t.count)
}

// RSIZE is 2 + series * C with C at least 2, by numbers of 32 bits: shorter to divide.
pub fn plain_size(series: u32, rsize: u32) -> bool
    requires { (1 ≤ series) × (series ≤ 6) }
    ensures { result ≡ true → bad_size series rsize ≡ false }
{
    2 + 2 * series <= rsize && rsize == 2 + series * ((rsize - 2) / series)
}

// C of such a record.
pub fn plain_coefficients(series: u32, rsize: u64) -> usize
    requires { (1 ≤ series) × (2 ≤ rsize) × (rsize < 2 ^ 31) }
    ensures { result ≡ coefficients series rsize }
{
    ((rsize as u32 - 2) / series) as usize
}

// The segment passes every test, and its trailer on this kernel is t: the table's numbers are tested, and the kernel's words compared with them.
// It says no to what is unusual too, limits in another order, fewer than two coefficients, other words: there the tests themselves decide.
pub fn plainly_fits(kernel: &[u8], series: u32, s: Segment, t: Trailer) -> bool
    requires { (1 ≤ series) × (series ≤ 6) }
    ensures { result ≡ true → Plain series kernel.now s t }
{
    if !(s.first <= s.last) || misplaced(kernel, s) {
        return false;
    }
    let end = end_of(s);
    let len = (end + 1 - start_of(s)) as u64;
    t.size <= len
        && plain_size(series, t.size as u32)
        && !overruns(t.size, t.count, len)
        && !bad_interval(t.init, t.intlen)
        && has_words(kernel, end, t)
}

// Where the record for et starts, in a segment whose first address is `start`, and whether it is stretched to et.
pub fn record_place(kernel: &[u8], start: usize, t: Trailer, et: f64) -> Place
    requires { (1 ≤ start) × (1 ≤ t.count) × (byte_of start + 8 * (t.count * t.size) ≤ length kernel.now) }
    ensures { result ≡ place_of start t et }
{
    Place::of(
        start,
        t.size,
        cheby::record_at(t.init, t.intlen, et, t.count),
    )
}

// The same of fewer than 2 ^ 31 records.
pub fn plain_place(kernel: &[u8], start: usize, t: Trailer, et: f64) -> Place
    requires { (1 ≤ start) × (1 ≤ t.count) × (byte_of start + 8 * (t.count * t.size) ≤ length kernel.now) × (t.count < 2 ^ 31) }
    ensures { result ≡ place_of start t et }
{
    Place::of(
        start,
        t.size,
        cheby::record_of_few(t.init, t.intlen, et, t.count),
    )
}

// A type 2 segment at et.
pub fn type2(
    kernel: &[u8],
    start: usize,
    t: Trailer,
    number: u32,
    et: f64,
) -> Result<Valued, Refusal>
    requires { Records 3 kernel.now start t }
    ensures { result ≡ valued kernel.now start (Kind.Type2 t.init t.intlen t.size t.count) number et }
{
    let at = record_place(kernel, start, t, et);
    let c = coefficients(3, t.size) as usize;
    let state = cheby::type2_at(kernel, at.byte, c, et).ok_or(Refusal::ZeroRadius(number))?;
    Ok(Valued::of(state, at.stretched))
}

// A type 3 segment at et: no RADIUS is refused.
pub fn type3(
    kernel: &[u8],
    start: usize,
    t: Trailer,
    number: u32,
    et: f64,
) -> Result<Valued, Refusal>
    requires { Records 6 kernel.now start t }
    ensures { result ≡ valued kernel.now start (Kind.Type3 t.init t.intlen t.size t.count) number et }
{
    let at = record_place(kernel, start, t, et);
    let c = coefficients(6, t.size) as usize;
    Ok(Valued::of(cheby::type3_at(kernel, at.byte, c, et), at.stretched))
}

// A type 9 segment at et.
pub fn type9(
    kernel: &[u8],
    start: usize,
    degree: u64,
    n: u64,
    number: u32,
    et: f64,
) -> Result<Valued, Refusal>
    requires { States kernel.now start degree n }
    ensures { result ≡ valued kernel.now start (Kind.Type9 degree n) number et }
{
    if interp::window_size(degree, n) == 0 {
        return Err(Refusal::EmptyWindow(number));
    }
    let p = 8 * (start - 1);
    let reach = interp::reach_at(kernel, p, n as usize, et);
    let state = interp::type9_at(kernel, p, n as usize, degree, et);
    Ok(Valued::of(state, reach.is_stretched()))
}

// A type 13 segment at et.
pub fn type13(
    kernel: &[u8],
    start: usize,
    degree: u64,
    n: u64,
    number: u32,
    et: f64,
) -> Result<Valued, Refusal>
    requires { States kernel.now start degree n }
    ensures { result ≡ valued kernel.now start (Kind.Type13 degree n) number et }
{
    if interp::window_size(degree, n) == 0 {
        return Err(Refusal::EmptyWindow(number));
    }
    let p = 8 * (start - 1);
    let reach = interp::reach_at(kernel, p, n as usize, et);
    let state = interp::type13_at(kernel, p, n as usize, degree, et);
    Ok(Valued::of(state, reach.is_stretched()))
}

// A segment of a kind that the tests let pass, at et.
pub fn value(
    kernel: &[u8],
    start: usize,
    kind: Kind,
    number: u32,
    et: f64,
) -> Result<Valued, Refusal>
    requires { Sound kernel.now start kind }
    ensures { result ≡ valued kernel.now start kind number et }
{
    match kind {
        // no test lets it pass
        Kind::Unsupported => Err(Refusal::TableUnfit),
        Kind::Type2 {
            init,
            intlen,
            rsize,
            count,
        } => {
            let t = Trailer::of_records(init, intlen, rsize, count);
            type2(kernel, start, t, number, et)
        }
        Kind::Type3 {
            init,
            intlen,
            rsize,
            count,
        } => {
            let t = Trailer::of_records(init, intlen, rsize, count);
            type3(kernel, start, t, number, et)
        }
        Kind::Type9 { degree, count } => type9(kernel, start, degree, count, number, et),
        Kind::Type13 { degree, count } => type13(kernel, start, degree, count, number, et),
    }
}

// Segment number `number`, evaluated at et on the kernel lent now, by the tests themselves. Apart from `evaluate`, so that a segment that plainly fits needs no
// stack for them.
#[inline(never)]
pub fn evaluate_any(
    kernel: &[u8],
    family: Family,
    s: Segment,
    number: u32,
    et: f64,
) -> Result<Valued, Refusal>
    ensures { result ≡ evaluated family kernel.now s number et }
{
    let kind = s.kind;
    if unsupported(kind) {
        return Err(Refusal::Unsupported(s.data_type));
    }
    if unfit(kernel, family, s) {
        return Err(Refusal::TableUnfit);
    }
    value(kernel, start_of(s), kind, number, et)
}

// The segment is of type 3, which SPK alone has.
pub fn is_three(family: Family, s: Segment) -> bool
    ensures { result ≡ true → form_of family s.data_type ≡ Some Three }
{
    if s.data_type != 3 {
        return false;
    }
    match family {
        Family::Spk => true,
        Family::Pck => false,
    }
}
