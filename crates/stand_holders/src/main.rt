// The form by holder on the stand: it reads a schedule from standard input, plays it, and writes to standard output one
// byte, the code of the form's answer, and then the form.
#![tactic(auto)]

ghost use Rattle.std.specs.Prelude.{replicate, OnOk};
ghost use Rattle.schedule.specs.Bytes.{zeros, started_part};
ghost use Rattle.holders.specs.Form.{FORM_BYTES, form_of};
ghost use Rattle.stand_reports.specs.Written.{Writes};

use stand_reports::{LastCode, Report};
use std::io;
use std::io::{Read, Write};

struct FormByHolder;

impl Report for FormByHolder {
    ghost report_on = { form_of };

    fn write(control: &[u8], area: &[u8], strips: &[u8], row: &mut [u8]) -> u64 {
        pool::pool_holders(control, area, strips, row)
    }
}

// Writes the form on what it reads, on memories that are zero at first. What is put into the row, whatever was read, is
// a promise of `report_after_all` of crates/stand_reports. That this tells the plain pool is `form-is-plain` of
// crates/stand_agreement.
fn run<R: Read, W: Write>(reader: &mut R, writer: &mut W) -> io::Result<()>
    ensures { OnOk result (Writes (λ s. form_of (started_part s)) LastCode.Hidden zeros (replicate FORM_BYTES 0)
        (R.remaining reader.old) (W.contents writer.old) (W.contents writer.new)) }
{
    let mut row = [0; holders::FORM_BYTES];
    stand_reports::run_from_zeros::<FormByHolder, R, W>(reader, writer, &mut row, LastCode::Hidden)
}

fn main(rt: HostRuntime) -> io::Result<()> {
    run(&mut rt.stdin(), &mut rt.stdout())
}
