// The stand: it reads a schedule from standard input and writes its table to standard output.
#![tactic(auto)]

ghost use Rattle.std.specs.Prelude.{OnOk};
ghost use Rattle.schedule.specs.Bytes.{zeros};
ghost use Rattle.table.specs.Output.{Writes};

use std::io;
use std::io::{Read, Write};
use text::LostColumn;

// Writes the table of what it reads, without the lost exchanges, on memories that are zero at first. That this is the
// plain pool's table is `run-is-plain` of crates/stand_agreement. What is handed to the writer, whatever was read, is a
// promise of `play` of crates/table.
fn run<R: Read, W: Write>(reader: &mut R, writer: &mut W) -> io::Result<()>
    ensures { OnOk result (Writes LostColumn.Hidden zeros (R.remaining reader.old)
        (W.contents writer.old) (W.contents writer.new)) }
{
    table::run_from_zeros(reader, writer, LostColumn::Hidden)
}

fn main(rt: HostRuntime) -> io::Result<()> {
    run(&mut rt.stdin(), &mut rt.stdout())
}
