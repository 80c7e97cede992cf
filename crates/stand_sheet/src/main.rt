// The stock sheet on the stand: it reads a schedule from standard input, plays it, and writes to standard output one
// byte, the code of the sheet's answer, and then the sheet.
#![tactic(auto)]

ghost use Rattle.std.specs.Prelude.{replicate, OnOk};
ghost use Rattle.schedule.specs.Bytes.{zeros, started_part};
ghost use Rattle.sheet.specs.Sheet.{SHEET_BYTES, sheet_of};
ghost use Rattle.stand_reports.specs.Written.{Writes};

use stand_reports::{LastCode, Report};
use std::io;
use std::io::{Read, Write};

struct StockSheet;

impl Report for StockSheet {
    ghost report_on = { sheet_of };

    fn write(control: &[u8], area: &[u8], strips: &[u8], row: &mut [u8]) -> u64 {
        pool::pool_sheet(control, area, strips, row)
    }
}

// Writes the sheet on what it reads, on memories that are zero at first. What is put into the row, whatever was read, is
// a promise of `report_after_all` of crates/stand_reports. That this tells the plain pool is `sheet-is-plain` of
// crates/stand_agreement.
fn run<R: Read, W: Write>(reader: &mut R, writer: &mut W) -> io::Result<()>
    ensures { OnOk result (Writes (λ s. sheet_of (started_part s)) LastCode.Hidden zeros (replicate SHEET_BYTES 0)
        (R.remaining reader.old) (W.contents writer.old) (W.contents writer.new)) }
{
    let mut row = [0; sheet::SHEET_BYTES];
    stand_reports::run_from_zeros::<StockSheet, R, W>(reader, writer, &mut row, LastCode::Hidden)
}

fn main(rt: HostRuntime) -> io::Result<()> {
    run(&mut rt.stdin(), &mut rt.stdout())
}
