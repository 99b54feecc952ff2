// The listing of an SPK kernel, put into a buffer that the caller lends: from the bytes of the kernel to every byte of the output.
// `put_segments` and `put_text` touch a slice of segments: they are thin, as in `lent`.

#![tactic(auto)]

ghost use Rattle.std.specs.Prelude.{◌≡◌, ◌+◌, ◌*◌, ◌≤◌, length};
ghost use Rattle.lines.specs.Written.{Written, Put};
ghost use Rattle.table.specs.Places.{lent_limit};
ghost use Rattle.listing_text.specs.Lines.{mark_text, head_text, span_text, segment_text, count_text};
ghost use Rattle.listing_text.specs.Rooms.{mark_room, head_room, span_room, line_room, count_room, first_room, most_segments, listing_room, output_room};
ghost use Rattle.listing_text.specs.Steps.{first_text};
ghost use Rattle.listing_text.specs.Text.{segments_from, listing_text, listing_output};

use daf::Family;
use lines::Page;
use opening::Plan;
use refusal::Refusal;
use segment::Segment;
use table::Table;

// The most bytes of a segment's line: a number, six fields, two epochs of 17 bytes, the mark.
const LINE: usize = lines::DECIMAL + 6 * lines::FIELD + 2 * 17 + 5;

// A record of a kernel, and the most segments that it holds.
const RECORD: usize = 1024;

const HELD: usize = 25;

// Room for what the program prints, whatever it is given.
pub const ROOM: usize = LINE * (HELD * (streams::ROOM / RECORD)) + lines::REFUSAL;

// The most segments of a kernel of n bytes.
fn most_segments(n: usize) -> usize
    ensures value { result ≡ most_segments n }
    ensures upper_bound { result ≤ lent_limit }
{
    table::limit_of(HELD * (n / RECORD))
}

// Room for the listing of a kernel of n bytes.
pub fn room(n: usize) -> usize
    ensures { result ≡ listing_room n }
{
    LINE * most_segments(n) + lines::REFUSAL
}

// Puts whether a segment is marked, and the newline.
fn put_mark(page: &mut Page, marked: bool)
    requires { page.old.at + mark_room ≤ length page.old.out.now }
    ensures written { Put page.old (mark_text marked) page.new }
    ensures upper_bound { page.new.at ≤ page.old.at + mark_room }
{
    page.put_yes(marked);
    page.put(b"\n");
}

// Puts the first part of a segment's line: target, center, frame, type.
fn put_head(page: &mut Page, s: Segment)
    requires { page.old.at + head_room ≤ length page.old.out.now }
    ensures written { Put page.old (head_text s) page.new }
    ensures upper_bound { page.new.at ≤ page.old.at + head_room }
{
    page.put_field(s.target);
    page.put_field(s.center);
    page.put_field(s.frame);
    page.put_field(s.data_type);
}

// Puts the rest of it: both epochs, both addresses, whether it is marked.
fn put_span(page: &mut Page, s: Segment)
    requires { page.old.at + span_room ≤ length page.old.out.now }
    ensures written { Put page.old (span_text s) page.new }
    ensures upper_bound { page.new.at ≤ page.old.at + span_room }
{
    page.put_number(s.first);
    page.put_number(s.last);
    page.put_field(s.start);
    page.put_field(s.end);
    put_mark(page, s.marked);
}

// Puts the line of segment i.
fn put_segment(page: &mut Page, i: usize, s: Segment)
    requires { page.old.at + line_room ≤ length page.old.out.now }
    ensures written { Put page.old (segment_text i s) page.new }
    ensures upper_bound { page.new.at ≤ page.old.at + line_room }
{
    page.put_decimal(i as u64);
    put_head(page, s);
    put_span(page, s);
}

// Puts how many segments there are.
fn put_count(page: &mut Page, count: usize)
    requires { page.old.at + count_room ≤ length page.old.out.now }
    ensures written { Put page.old (count_text count) page.new }
    ensures upper_bound { page.new.at ≤ page.old.at + count_room }
{
    page.put(b"segments ");
    page.put_decimal(count as u64);
    page.put(b"\n");
}

// Puts the first line: how many segments there are, or the refusal.
fn put_first(page: &mut Page, p: Plan)
    requires { page.old.at + first_room ≤ length page.old.out.now }
    ensures written { Put page.old (first_text p) page.new }
    ensures upper_bound { page.new.at ≤ page.old.at + first_room }
{
    match p {
        Ok(f) => put_count(page, f.count),
        Err(refusal) => page.put_refusal(refusal),
    }
}

// Puts a line for each of the first m of the lent segments.
fn put_segments(page: &mut Page, table: &[Segment], m: usize)
    requires { (m ≤ length table.now) × (page.old.at + line_room * m ≤ length page.old.out.now) }
    ensures written { Put page.old (segments_from table.now 0 m) page.new }
    ensures upper_bound { page.new.at ≤ page.old.at + line_room * m }
{
    for i in 0..m {
        let s = lent::segment_at(table, i);
        put_segment(page, i, s);
    }
}

// Puts the listing of a kernel of any length, or its refusal, at the start of a buffer, with a table of 4,096 places that it lends.
pub fn put_text(out: &mut [u8], kernel: &[u8]) -> usize
    requires { listing_room (length kernel.now) ≤ length out.old }
    ensures written { Written out.old 0 (listing_text kernel.now) out.new result }
    ensures upper_bound { result ≤ listing_room (length kernel.now) }
{
    let e = table::no_segment();
    let mut t = [e; Table::LENT];
    let p = opening::plan_of(kernel, Family::Spk, Table::LENT);
    lent::carry_out(&mut t, kernel, Family::Spk, p);
    let n = opening::count_in(p);
    let mut page = Page { out, at: 0 };
    put_first(&mut page, p);
    put_segments(&mut page, &t, n);
    page.at
}

// Puts what the program prints: 18 for a kernel over its limit, else the listing.
pub fn put_output(out: &mut [u8], kernel: &[u8]) -> usize
    requires { output_room ≤ length out.old }
    ensures written { Written out.old 0 (listing_output kernel.now) out.new result }
    ensures upper_bound { result ≤ output_room }
{
    if streams::too_long(kernel.len()) {
        let mut page = Page { out, at: 0 };
        page.put_refusal(Refusal::InputTooLong);
        page.at
    } else {
        put_text(out, kernel)
    }
}
