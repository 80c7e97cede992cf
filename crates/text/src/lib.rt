// The text of the stand's table, written into bytes that the caller lends. Each function writes from the byte `at` on,
// or from the first, and answers where its text ends.
#![tactic(auto)]

ghost use Rattle.std.specs.Prelude.{◌+◌, ◌≤◌, length};
ghost use Rattle.text.specs.Texts.{decimal as decimal_text, Appended};
ghost use Rattle.text.specs.Lines.{FIELD_BYTES, LINE_ROOM, field_text, columns_text, line_text, total_text};

use schedule::tally::Tally;
use schedule::treat::Line;

// Whether the table has the column of the lost exchanges.
#[derive(Clone, Copy)]
pub enum LostColumn {
    Hidden,
    Shown,
}

// A text, as bytes.
fn word(out: &mut [u8], at: usize, text: &[u8]) -> usize
    requires { at + length text.now ≤ length out.old }
    ensures { Appended out.old out.new at text.now result }
{
    let end = at + text.len();
    out[at..end].copy_from_slice(text);
    end
}

// A number in decimal. Most numbers of a table are one digit, which needs no buffer. Caller: `field`.
fn decimal(out: &mut [u8], at: usize, number: u64) -> usize
    requires { at + length (decimal_text number) ≤ length out.old }
    ensures { Appended out.old out.new at (decimal_text number) result }
{
    if number < 10 {
        out[at] = b'0' + number as u8;
        return at + 1;
    }
    let mut digits = itoa::Buffer::new();
    word(out, at, digits.format(number).as_bytes())
}

// A number and the byte behind it. A number of 64 bits has at most 20 digits.
fn field(out: &mut [u8], at: usize, number: u64, behind: u8) -> usize
    requires { at + FIELD_BYTES ≤ length out.old }
    ensures appended { Appended out.old out.new at (field_text number behind) result }
    ensures short { result ≤ at + FIELD_BYTES }
{
    let end = decimal(out, at, number);
    out[end] = behind;
    end + 1
}

// The line of column names.
pub fn columns(out: &mut [u8], lost: LostColumn) -> usize
    requires { LINE_ROOM ≤ length out.old }
    ensures { Appended out.old out.new 0 (columns_text lost) result }
{
    match lost {
        LostColumn::Hidden => word(out, 0, b"record kind code value\n"),
        LostColumn::Shown => word(out, 0, b"record kind code value lost\n"),
    }
}

// The line of a record.
pub fn line(out: &mut [u8], line: &Line, lost: LostColumn) -> usize
    requires { LINE_ROOM ≤ length out.old }
    ensures { Appended out.old out.new 0 (line_text lost line.now) result }
{
    let first = field(out, 0, line.number, b' ');
    let second = field(out, first, line.kind as u64, b' ');
    let third = field(out, second, line.code, b' ');
    match lost {
        LostColumn::Hidden => field(out, third, line.value, b'\n'),
        LostColumn::Shown => {
            let fourth = field(out, third, line.value, b' ');
            field(out, fourth, line.lost as u64, b'\n')
        }
    }
}

// The last line.
pub fn total(out: &mut [u8], tally: &Tally) -> usize
    requires { LINE_ROOM ≤ length out.old }
    ensures { Appended out.old out.new 0 (total_text tally.now) result }
{
    let start = word(out, 0, b"total ");
    let first = field(out, start, tally.finished, b' ');
    let second = field(out, first, tally.accepted, b' ');
    field(out, second, tally.others, b'\n')
}
