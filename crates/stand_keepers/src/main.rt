// The region's keepers on the stand: it reads a schedule from standard input, plays it, and writes to standard output
// two bytes, the codes of the last record's answer and of the keepers' answer, and then the keepers of four regions.
// The first code tells whether the schedule ended with 13, which the keepers explain.
#![tactic(auto)]

ghost use Rattle.std.specs.Prelude.{◌*◌, replicate, OnOk};
ghost use Rattle.schedule.specs.Stand.{STAND_REGIONS};
ghost use Rattle.schedule.specs.Bytes.{zeros, started_part};
ghost use Rattle.keepers.specs.Keepers.{KEEPER_BYTES, keepers_of};
ghost use Rattle.stand_reports.specs.Written.{Writes};

use schedule::lend;
use stand_reports::{LastCode, Report};
use std::io;
use std::io::{Read, Write};

// The keepers of the regions of the stand's area. Those of regions that the pool was not started with stay zero.
const ROW_BYTES: usize = keepers::KEEPER_BYTES * lend::STAND_REGIONS;

struct RegionKeepers;

impl Report for RegionKeepers {
    ghost report_on = { keepers_of };

    fn write(control: &[u8], area: &[u8], strips: &[u8], row: &mut [u8]) -> u64 {
        pool::pool_keepers(control, area, strips, row)
    }
}

// Writes the keepers on what it reads, on memories that are zero at first. What is put into the row, whatever was read,
// is a promise of `report_after_all` of crates/stand_reports, and so is the last record's answer. That these tell the
// plain pool are `keepers-are-plain` and `last-is-plain` of crates/stand_agreement.
fn run<R: Read, W: Write>(reader: &mut R, writer: &mut W) -> io::Result<()>
    ensures { OnOk result (Writes (λ s. keepers_of (started_part s)) LastCode.Shown zeros (replicate (KEEPER_BYTES * STAND_REGIONS) 0)
        (R.remaining reader.old) (W.contents writer.old) (W.contents writer.new)) }
{
    let mut row = [0; ROW_BYTES];
    stand_reports::run_from_zeros::<RegionKeepers, R, W>(reader, writer, &mut row, LastCode::Shown)
}

fn main(rt: HostRuntime) -> io::Result<()> {
    run(&mut rt.stdin(), &mut rt.stdout())
}
