// The row that a report fills: numbers of two bytes each, low byte first.
ghost use Rattle.std.specs.Prelude.{◌≡◌, ◌≤◌, true, length};
ghost use Rattle.reports.specs.Reports.{answered, report_number, Answers};

use fields::Number;
use limits::refusal::Refusal;

const BYTES_OF_NUMBER: usize = 2;

// Writes the numbers at the start of the row, and leaves its further bytes; a row that is too short for them is left as
// it was. Callers: the reports, which have found all that they read in its range.
pub fn write(row: &mut [u8], numbers: &[u16]) -> Result<(), Refusal>
    requires { length numbers.now ≤ 65536 }
    ensures { Answers (answered true numbers.now row.old) row.new (report_number result) }
{
    if row.len() < BYTES_OF_NUMBER * numbers.len() {
        return Err(Refusal::RowTooShort);
    }
    for (i, number) in numbers.iter().enumerate() {
        number.store(row, BYTES_OF_NUMBER * i);
    }
    Ok(())
}
