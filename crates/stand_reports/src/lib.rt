// The work that the programs of the three reports share: a schedule is read and played, and a report on the pool that it
// leaves is put into a row.
#![tactic(auto)]

ghost use Rattle.std.specs.Prelude.{◌≡◌, ◌≤◌, ℕ, List, length, take, IfOk, IfSome, OnOk};
ghost use Rattle.control.specs.Answers.{code_in};
ghost use Rattle.stepped.specs.Outcome.{Memories};
ghost use Rattle.reports.specs.Reports.{Answers};
ghost use Rattle.schedule.specs.Records.{INPUT_BYTES};
ghost use Rattle.schedule.specs.Stand.{played, last_answer};
ghost use Rattle.schedule.specs.Bytes.{memories, zeros, on_bytes, started_part, after_all, last_of, together};
ghost use Rattle.std.specs.Io.KnownBytes.{Appends};
ghost use Rattle.stand_reports.specs.Reported.{Reports};
ghost use Rattle.stand_reports.specs.Written.{codes_text, Writes};

use control::answer;
use schedule::stand::Stand;
use std::io;
use std::io::{Read, Write};

// A report on three memories, which it only reads.
pub trait Report {
    // Its answer, and what it leaves of the row.
    ghost report_on: { Memories → List ℕ → ℕ × List ℕ };

    fn write(control: &[u8], area: &[u8], strips: &[u8], row: &mut [u8]) -> u64
        ensures { Answers (report_on (together control.now area.now strips.now) row.old) row.new result };
}

// The answers, each the code and `CODES` times the value, of the last record and of the report.
#[derive(Drop)]
pub struct BothAnswers {
    pub last: u64,
    pub report: u64,
}

// The codes of these answers.
#[derive(Drop)]
struct Codes {
    last: u8,
    report: u8,
}

// Whether the code of the last record's answer is written in front.
#[derive(Clone, Copy)]
pub enum LastCode {
    Hidden,
    Shown,
}

// Plays the schedule, and has the report on the pool that it leaves put into the row. The report is lent the part of
// the area that the pool was started with.
pub fn report_after<T: Report>(stand: &mut Stand<'_>, input: &[u8], row: &mut [u8]) -> BothAnswers
    requires { length input.now ≤ INPUT_BYTES }
    ensures last { result.last ≡ last_answer on_bytes (length input.now) input.now 0 0 (memories stand.old) }
    ensures report { Answers
        (T.report_on (started_part (played on_bytes (length input.now) input.now 0 (memories stand.old))) row.old)
        row.new result.report }
{
    let last = stand.play(input);
    let strips = stand.lent_strips();
    let report = T::write(&stand.control, stand.lent_area(), strips, row);
    BothAnswers { last, report }
}

// The same on memories that are zero at first. The three programs write what this puts into the row, behind the code of
// its answer. That it tells the plain pool is `sheet-is-plain`, `form-is-plain` and `keepers-are-plain` of
// crates/stand_agreement.
pub fn report_after_all<T: Report>(input: &[u8], row: &mut [u8]) -> BothAnswers
    requires { length input.now ≤ INPUT_BYTES }
    ensures last { result.last ≡ last_of input.now }
    ensures report { Answers (T.report_on (started_part (after_all input.now)) row.old) row.new result.report }
{
    report_after::<T>(&mut Stand::new(), input, row)
}

// The codes of both answers.
fn codes_of(answers: &BothAnswers) -> Codes
    ensures last { result.last ≡ code_in answers.now.last }
    ensures report { result.report ≡ code_in answers.now.report }
{
    Codes {
        last: (answers.last % answer::CODES) as u8,
        report: (answers.report % answer::CODES) as u8,
    }
}

// `report_after` for a schedule that is read: no more than 65,536 bytes.
fn read_and_report<T: Report, R: Read>(
    stand: &mut Stand<'_>,
    reader: &mut R,
    row: &mut [u8],
) -> io::Result<Codes>
    ensures { IfOk result (λ codes. IfSome (R.remaining reader.old) (λ all.
        Reports T.report_on (take INPUT_BYTES all) (memories stand.old) row.old row.new codes)) }
{
    let mut records = [0; input::MOST_BYTES];
    let n = input::read_full(reader, &mut records)?;
    let answers = report_after::<T>(stand, &records[..n], row);
    Ok(codes_of(&answers))
}

// `report_after_all` for a schedule that is read.
fn read_and_report_from_zeros<T: Report, R: Read>(
    reader: &mut R,
    row: &mut [u8],
) -> io::Result<Codes>
    ensures { IfOk result (λ codes. IfSome (R.remaining reader.old) (λ all.
        Reports T.report_on (take INPUT_BYTES all) zeros row.old row.new codes)) }
{
    let mut records = [0; input::MOST_BYTES];
    let n = input::read_full(reader, &mut records)?;
    let answers = report_after_all::<T>(&records[..n], row);
    Ok(codes_of(&answers))
}

fn write_codes<W: Write>(writer: &mut W, codes: &Codes, last: LastCode) -> io::Result<()>
    ensures { OnOk result (Appends (W.contents writer.old) (W.contents writer.new)
        (codes_text last codes.now.last codes.now.report)) }
{
    match last {
        LastCode::Hidden => writer.write_all(&[codes.report]),
        LastCode::Shown => writer.write_all(&[codes.last, codes.report]),
    }
}

// The work of the three programs: reads a schedule, plays it on memories that are zero at first, and writes the code of
// the report's answer and the row.
pub fn run_from_zeros<T: Report, R: Read, W: Write>(
    reader: &mut R,
    writer: &mut W,
    row: &mut [u8],
    last: LastCode,
) -> io::Result<()>
    ensures { OnOk result (Writes (λ s. T.report_on (started_part s)) last zeros row.old
        (R.remaining reader.old) (W.contents writer.old) (W.contents writer.new)) }
{
    let codes = read_and_report_from_zeros::<T, R>(reader, row)?;
    write_codes(writer, &codes, last)?;
    writer.write_all(row)
}

// The same work on memories that are lent.
pub fn run<T: Report, R: Read, W: Write>(
    stand: &mut Stand<'_>,
    reader: &mut R,
    writer: &mut W,
    row: &mut [u8],
    last: LastCode,
) -> io::Result<()>
    ensures { OnOk result (Writes (λ s. T.report_on (started_part s)) last (memories stand.old) row.old
        (R.remaining reader.old) (W.contents writer.old) (W.contents writer.new)) }
{
    let codes = read_and_report::<T, R>(stand, reader, row)?;
    write_codes(writer, &codes, last)?;
    writer.write_all(row)
}
