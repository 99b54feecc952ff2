// The tests of refusal 9, in their order: specs/Malformed.antt.
ghost use Rattle.std.specs.Prelude.{◌≡◌, ◌^◌, ◌≤◌, ◌<◌, T, nat_abs};
ghost use Rattle.std.specs.Int.Signed.{non_neg};
ghost use Rattle.daf.specs.Addresses.{whole_doubles};
ghost use Rattle.segment.specs.Malformed.{limit_nan, misplaced, trailer_size, coefficients, bad_size, bad_interval, overruns, bad_records, bad_length, bad_states, bad_trailer, found, segment_with};

use super::kinds::{form_of, kind_with, trailer_at};
use super::{Form, Kind, Segment, Trailer};
use daf::{Family, Summary};

// An epoch limit is NaN.
pub fn limit_nan(s: Segment) -> bool
    ensures { result ≡ limit_nan s.first s.last }
{
    s.first.is_nan() || s.last.is_nan()
}

// A segment's first address.
pub fn start_of(s: Segment) -> usize
    requires { T (non_neg s.start) }
    ensures { (result ≡ nat_abs s.start) × (result < 2 ^ 31) }
{
    s.start as usize
}

// Its last.
pub fn end_of(s: Segment) -> usize
    requires { T (non_neg s.end) }
    ensures { (result ≡ nat_abs s.end) × (result < 2 ^ 31) }
{
    s.end as usize
}

// Start under 1, end under start, or end past the whole doubles of the kernel: past its bytes.
pub fn misplaced(kernel: &[u8], s: Segment) -> bool
    ensures { result ≡ misplaced (whole_doubles kernel.now) s.start s.end }
{
    s.start < 1 || s.end < s.start || kernel.len() < 8 * end_of(s)
}

// C, the coefficients of each of so many series in a record of rsize doubles.
pub fn coefficients(series: u64, rsize: u64) -> u64
    requires { 1 ≤ series }
    ensures { result ≡ coefficients series rsize }
{
    rsize.saturating_sub(2) / series
}

// RSIZE is not 2 + series * C with C at least 1.
pub fn bad_size(series: u64, rsize: u64) -> bool
    requires { 1 ≤ series }
    ensures { result ≡ bad_size series rsize }
{
    let c = coefficients(series, rsize);
    c < 1 || rsize != 2 + series * c
}

// INTLEN is not above 0, or INIT or INTLEN not finite: a finite number less itself is 0, any other a NaN, and 0 times an infinity is a NaN too.
pub fn bad_interval(init: f64, intlen: f64) -> bool
    ensures { result ≡ bad_interval init intlen }
{
    !((init - init) * intlen < intlen)
}

// N records of RSIZE doubles and the trailer run past the segment. A factor over the length is enough, and below it the product fits.
pub fn overruns(rsize: u64, n: u64, len: u64) -> bool
    requires { (1 ≤ rsize) × (len < 2 ^ 31) }
    ensures { result ≡ overruns rsize n len }
{
    n == 0 || len < n || len < rsize || len < n * rsize + 4
}

// Types 2 and 3, after the test for fewer than 4 doubles.
pub fn bad_records(series: u64, t: Trailer, len: u64) -> bool
    requires { (1 ≤ series) × (len < 2 ^ 31) }
    ensures { result ≡ bad_records series t len }
{
    bad_size(series, t.size) || bad_interval(t.init, t.intlen) || overruns(t.size, t.count, len)
}

// N is zero, or the length not 7N + N / 100 + 2. An N over the length is enough.
pub fn bad_length(n: u64, len: u64) -> bool
    requires { len < 2 ^ 31 }
    ensures { result ≡ bad_length n len }
{
    n == 0 || len < n || len != 7 * n + n / 100 + 2
}

// Types 9 and 13, after the test for fewer than 2 doubles.
pub fn bad_states(least: u64, t: Trailer, len: u64) -> bool
    requires { len < 2 ^ 31 }
    ensures { result ≡ bad_states least t len }
{
    bad_length(t.count, len) || t.size < least || 32 < interp::window_size(t.size, t.count)
}

// The trailer's numbers, in a segment of this length: 3 series in type 2, 6 in type 3.
pub fn bad_trailer(form: Form, t: Trailer, len: u64) -> bool
    requires { len < 2 ^ 31 }
    ensures { result ≡ bad_trailer form t len }
{
    match form {
        Form::Two => bad_records(3, t, len),
        Form::Three => bad_records(6, t, len),
        Form::Nine => bad_states(0, t, len),
        Form::Thirteen => bad_states(1, t, len),
    }
}

// How many doubles the trailer has.
pub fn trailer_size(form: Form) -> u64
    ensures { result ≡ trailer_size form }
{
    match form {
        Form::Two | Form::Three => 4,
        Form::Nine | Form::Thirteen => 2,
    }
}

// The kind that the trailer makes, or none where one of the tests of refusal 9 fails, in their order. Unsupported types get only the NaN test.
pub fn find(kernel: &[u8], family: Family, s: Segment) -> Option<Kind>
    ensures { result ≡ found family kernel.now s }
{
    if limit_nan(s) {
        return None;
    }
    let Some(form) = form_of(family, s) else {
        return Some(Kind::Unsupported);
    };
    if misplaced(kernel, s) {
        return None;
    }
    let end = end_of(s);
    let len = (end + 1 - start_of(s)) as u64;
    if len < trailer_size(form) {
        return None;
    }
    let t = trailer_at(kernel, form, end);
    if bad_trailer(form, t, len) {
        return None;
    }
    Some(kind_with(form, t))
}

// A summary's segment with this kind, unmarked.
pub fn segment_with(s: Summary, kind: Kind) -> Segment
    ensures { result ≡ segment_with s kind }
{
    Segment {
        target: s.target,
        center: s.center,
        frame: s.frame,
        data_type: s.data_type,
        start: s.start,
        end: s.end,
        first: s.first,
        last: s.last,
        name_at: s.name_at,
        marked: false,
        kind,
    }
}
