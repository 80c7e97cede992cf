// The stand with the lost exchanges: the table of crates/stand, and behind each value the lost exchanges that the
// answer tells.
#![tactic(auto)]

ghost use Rattle.std.specs.Prelude.{OnOk};
ghost use Rattle.schedule.specs.Bytes.{zeros};
ghost use Rattle.table.specs.Output.{Writes};

use std::io;
use std::io::{Read, Write};
use text::LostColumn;

// Writes the table of what it reads, with the lost exchanges, on memories that are zero at first. What is handed to the
// writer, whatever was read, is a promise of `play` of crates/table.
fn run<R: Read, W: Write>(reader: &mut R, writer: &mut W) -> io::Result<()>
    ensures { OnOk result (Writes LostColumn.Shown zeros (R.remaining reader.old)
        (W.contents writer.old) (W.contents writer.new)) }
{
    table::run_from_zeros(reader, writer, LostColumn::Shown)
}

fn main(rt: HostRuntime) -> io::Result<()> {
    run(&mut rt.stdin(), &mut rt.stdout())
}
