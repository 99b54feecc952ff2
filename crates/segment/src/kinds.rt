// The types that are handled, and the kind that a segment's trailer makes: specs/Kinds.antt.
ghost use Rattle.std.specs.Prelude.{◌≡◌, ◌*◌, ◌≤◌, length};
ghost use Rattle.daf.specs.Addresses.{double_of_address};
ghost use Rattle.segment.specs.Kinds.{form_of, whole_number, records_at, states_at, trailer_at, kind_with, trailer_in, same_trailer, same_kind};
ghost use Rattle.segment.specs.Malformed.{trailer_size};

use super::{Form, Kind, Segment, Trailer};
use daf::Family;

// The handled types: 2, 3, 9 and 13 of SPK, 2 alone of PCK.
pub fn form_of(family: Family, s: Segment) -> Option<Form>
    ensures { result ≡ form_of family s.data_type }
{
    if s.data_type == 2 {
        return Some(Form::Two);
    }
    match family {
        Family::Pck => None,
        Family::Spk => {
            if s.data_type == 3 {
                return Some(Form::Three);
            }
            if s.data_type == 9 {
                return Some(Form::Nine);
            }
            if s.data_type == 13 {
                return Some(Form::Thirteen);
            }
            None
        }
    }
}

// A trailer's number made whole, from its bits.
pub fn whole_at(kernel: &[u8], address: usize) -> u64
    requires { (1 ≤ address) × (8 * address ≤ length kernel.now) }
    ensures { result ≡ whole_number (double_of_address kernel.now address) }
{
    bits::cut_bits(bits::le_u64(kernel, 8 * (address - 1)))
}

// The trailer of types 2 and 3, whose last double has address `end`.
pub fn records_at(kernel: &[u8], end: usize) -> Trailer
    requires { (4 ≤ end) × (8 * end ≤ length kernel.now) }
    ensures { result ≡ records_at kernel.now end }
{
    Trailer {
        init: daf::double(kernel, end - 3),
        intlen: daf::double(kernel, end - 2),
        size: whole_at(kernel, end - 1),
        count: whole_at(kernel, end),
    }
}

// The trailer of types 9 and 13.
pub fn states_at(kernel: &[u8], end: usize) -> Trailer
    requires { (2 ≤ end) × (8 * end ≤ length kernel.now) }
    ensures { result ≡ states_at kernel.now end }
{
    Trailer::of_states(whole_at(kernel, end - 1), whole_at(kernel, end))
}

// The trailer of data in this form.
#[tactic(auto, unfolding(crate::specs::Kinds::trailer_at))]
pub fn trailer_at(kernel: &[u8], form: Form, end: usize) -> Trailer
    requires { (trailer_size form ≤ end) × (8 * end ≤ length kernel.now) }
    ensures { result ≡ trailer_at kernel.now form end }
{
    match form {
        Form::Two | Form::Three => records_at(kernel, end),
        Form::Nine | Form::Thirteen => states_at(kernel, end),
    }
}

// The kind of data in this form with this trailer.
pub fn kind_with(form: Form, t: Trailer) -> Kind
    ensures { result ≡ kind_with form t }
{
    let Trailer {
        init,
        intlen,
        size,
        count,
    } = t;
    match form {
        Form::Two => Kind::Type2 {
            init,
            intlen,
            rsize: size,
            count,
        },
        Form::Three => Kind::Type3 {
            init,
            intlen,
            rsize: size,
            count,
        },
        Form::Nine => Kind::Type9 {
            degree: size,
            count,
        },
        Form::Thirteen => Kind::Type13 {
            degree: size,
            count,
        },
    }
}

// The trailer of a kind.
pub fn trailer_in(kind: Kind) -> Trailer
    ensures { result ≡ trailer_in kind }
{
    match kind {
        Kind::Unsupported => Trailer::NONE,
        Kind::Type2 {
            init,
            intlen,
            rsize,
            count,
        }
        | Kind::Type3 {
            init,
            intlen,
            rsize,
            count,
        } => Trailer::of_records(init, intlen, rsize, count),
        Kind::Type9 { degree, count } | Kind::Type13 { degree, count } => {
            Trailer::of_states(degree, count)
        }
    }
}

// Two trailers are one: INIT and INTLEN by their bits.
pub fn same_trailer(a: Trailer, b: Trailer) -> bool
    ensures { result ≡ same_trailer a b }
{
    bits::same_bits(a.init, b.init)
        && bits::same_bits(a.intlen, b.intlen)
        && a.size == b.size
        && a.count == b.count
}

// Two kinds are one.
pub fn same_kind(a: Kind, b: Kind) -> bool
    ensures { result ≡ same_kind a b }
{
    let of_one_type = matches!(
        (a, b),
        (Kind::Unsupported, Kind::Unsupported)
            | (Kind::Type2 { .. }, Kind::Type2 { .. })
            | (Kind::Type3 { .. }, Kind::Type3 { .. })
            | (Kind::Type9 { .. }, Kind::Type9 { .. })
            | (Kind::Type13 { .. }, Kind::Type13 { .. })
    );
    of_one_type && same_trailer(trailer_in(a), trailer_in(b))
}
