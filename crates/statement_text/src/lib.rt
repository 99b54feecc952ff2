// The text of a usage statement, put into a buffer that the caller lends: from the bytes of a usage file to every byte of the output.

#![tactic(auto)]

ghost use Rattle.std.specs.Prelude.{◌≡◌, ◌+◌, ◌*◌, ◌≤◌, length};
ghost use Rattle.lines.specs.Written.{Written, Put};
ghost use Rattle.statement_text.specs.Text.{line_text, lines_text, total_text, statement_text, program_text, statement_room};

use lines::Page;
use refusal::Refusal;
use tally::Line;

// Room for every statement: a supplier's line has at most 42 bytes, the last one 27.
pub const ROOM: usize = 42 * tally::SUPPLIERS + 27;

// Puts a supplier's line.
fn put_line(page: &mut Page, line: Line)
    requires { page.old.at + 42 ≤ length page.old.out.now }
    ensures written { Put page.old (line_text line) page.new }
    ensures upper_bound { page.new.at ≤ page.old.at + 42 }
{
    page.put_decimal(line.supplier);
    page.put(b" ");
    page.put_decimal(line.count);
    page.put(b"\n");
}

// Puts the known suppliers' lines.
fn put_lines(page: &mut Page, known: &[Line])
    requires { page.old.at + 42 * length known.now ≤ length page.old.out.now }
    ensures written { Put page.old (lines_text known.now) page.new }
    ensures upper_bound { page.new.at ≤ page.old.at + 42 * length known.now }
{
    for line in known {
        put_line(page, *line);
    }
}

// Puts the last line.
fn put_total(page: &mut Page, total: u64)
    requires { page.old.at + 27 ≤ length page.old.out.now }
    ensures written { Put page.old (total_text total) page.new }
    ensures upper_bound { page.new.at ≤ page.old.at + 27 }
{
    page.put(b"total ");
    page.put_decimal(total);
    page.put(b"\n");
}

// Puts the whole statement of a usage file, or its refusal.
fn put_whole(page: &mut Page, file: &[u8])
    requires { page.old.at + statement_room ≤ length page.old.out.now }
    ensures written { Put page.old (statement_text file.now) page.new }
    ensures upper_bound { page.new.at ≤ page.old.at + statement_room }
{
    match tally::add_up(file) {
        Ok(s) => {
            put_lines(page, &s.lines[..s.known]);
            put_total(page, s.total);
        }
        Err(refusal) => page.put_refusal(refusal),
    }
}

// Puts the whole statement of a usage file of any length, or its refusal, at the start of a buffer.
pub fn put_statement(out: &mut [u8], file: &[u8]) -> usize
    requires { statement_room ≤ length out.old }
    ensures written { Written out.old 0 (statement_text file.now) out.new result }
    ensures upper_bound { result ≤ statement_room }
{
    let mut page = Page { out, at: 0 };
    put_whole(&mut page, file);
    page.at
}

// Puts what the program prints: 18 for a file over its limit, else the statement.
pub fn put_output(out: &mut [u8], file: &[u8]) -> usize
    requires { statement_room ≤ length out.old }
    ensures written { Written out.old 0 (program_text file.now) out.new result }
    ensures upper_bound { result ≤ statement_room }
{
    if streams::too_long(file.len()) {
        let mut page = Page { out, at: 0 };
        page.put_refusal(Refusal::InputTooLong);
        page.at
    } else {
        put_statement(out, file)
    }
}
