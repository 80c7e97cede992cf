// The table of a schedule, as the bytes that the program writes.
#![tactic(auto)]

ghost use Rattle.std.specs.Prelude.{◌≡◌, ◌≤◌, length, take, OnOk};
ghost use Rattle.std.specs.Io.KnownBytes.{Appends};
ghost use Rattle.schedule.specs.Records.{INPUT_BYTES};
ghost use Rattle.schedule.specs.Bytes.{memories, zeros};
ghost use Rattle.table.specs.Output.{TABLE_BYTES, Plays, Writes};

use schedule::records::Records;
use schedule::stand::Stand;
use schedule::tally::Tally;
use std::io;
use std::io::{Read, Write};
use text::LostColumn;

// Room for the longest table. A line has at most 34 bytes (LINE_BYTES) and its record at least one, so that the lines
// of 65,536 bytes of records fit into 65,536 * 34 bytes; the first and the last line fit into the rest.
pub const TABLE_BYTES: usize = 2228480;

// Has the records treated one after the other, and puts the table's text at the start of `out`.
pub fn write(stand: &mut Stand<'_>, input: &[u8], out: &mut [u8], lost: LostColumn) -> usize
    requires input { length input.now ≤ INPUT_BYTES }
    requires room { TABLE_BYTES ≤ length out.old }
    ensures { Plays lost input.now (memories stand.old) out.old out.new result }
{
    let mut used = text::columns(out, lost);
    let mut counts = Tally::default();
    for entry in Records::of(input) {
        let line = stand.treat_counted(entry, &mut counts);
        used += text::line(&mut out[used..], &line, lost);
    }
    used + text::total(&mut out[used..], &counts)
}

// The table of a schedule that is played on memories that are zero at first. The stand's two programs write what this
// puts at the start of `out`. That this is the plain pool's table is `play-is-plain` of crates/stand_agreement.
pub fn play(input: &[u8], out: &mut [u8], lost: LostColumn) -> usize
    requires input { length input.now ≤ INPUT_BYTES }
    requires room { TABLE_BYTES ≤ length out.old }
    ensures { Plays lost input.now zeros out.old out.new result }
{
    write(&mut Stand::new(), input, out, lost)
}

// So many zeros. It stands apart so that a proof about their user does not write them out.
fn zeros<const N: usize>() -> [u8; N]
    ensures { length result ≡ N }
{
    [0; N]
}

// Writes the first bytes of the buffer, which are the table, in one call.
fn write_first<W: Write>(writer: &mut W, out: &[u8], used: usize) -> io::Result<()>
    requires { used ≤ length out.now }
    ensures { OnOk result (Appends (W.contents writer.old) (W.contents writer.new) (take used out.now)) }
{
    writer.write_all(&out[..used])
}

// The work of the stand's two programs: reads a schedule, plays it on memories that are zero at first, and writes its
// table in one call. It reads no more than the 65,536 bytes of its buffer.
pub fn run_from_zeros<R: Read, W: Write>(
    reader: &mut R,
    writer: &mut W,
    lost: LostColumn,
) -> io::Result<()>
    ensures { OnOk result (Writes lost zeros (R.remaining reader.old)
        (W.contents writer.old) (W.contents writer.new)) }
{
    let mut records = zeros::<{ input::MOST_BYTES }>();
    let mut out = zeros::<TABLE_BYTES>();
    let n = input::read_full(reader, &mut records)?;
    let length = play(&records[..n], &mut out, lost);
    write_first(writer, &out, length)
}

// The same work on memories that are lent.
pub fn run<R: Read, W: Write>(
    stand: &mut Stand<'_>,
    reader: &mut R,
    writer: &mut W,
    lost: LostColumn,
) -> io::Result<()>
    ensures { OnOk result (Writes lost (memories stand.old) (R.remaining reader.old)
        (W.contents writer.old) (W.contents writer.new)) }
{
    let mut records = zeros::<{ input::MOST_BYTES }>();
    let mut out = zeros::<TABLE_BYTES>();
    let n = input::read_full(reader, &mut records)?;
    let length = write(stand, &records[..n], &mut out, lost);
    write_first(writer, &out, length)
}
