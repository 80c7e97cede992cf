// What a program of the stand is given: its input, to the end or as far as a buffer has room.
#![tactic(auto)]

ghost use Rattle.std.specs.Prelude.{◌≡◌, ◌≤◌, ◌⊎◌, length, take, IfOk, IfSome};
ghost use Rattle.std.specs.Io.KnownBytes.{Consumes, IsAtEnd};

use std::io;
use std::io::Read;

// Room for the longest schedule: "Input past 65,536 bytes is not read".
pub const MOST_BYTES: usize = 65536;

// Reads until the buffer is full or the input ends, and answers how many bytes stand at the buffer's start. They are
// the input's next ones, in their order, and what is behind them is not read. A read that fails ends it.
pub fn read_full<R: Read>(reader: &mut R, buffer: &mut [u8]) -> io::Result<usize>
    ensures within { IfOk result (λ n. n ≤ length buffer.new) }
    ensures taken { IfOk result (λ n. Consumes (R.remaining reader.old) (R.remaining reader.new) (take n buffer.new)) }
    ensures first { IfOk result (λ n. IfSome (R.remaining reader.old) (λ all. take n buffer.new ≡ take (length buffer.new) all)) }
    ensures full_or_ended { IfOk result (λ n. (n ≡ length buffer.new) ⊎ IsAtEnd (R.remaining reader.new)) }
{
    let mut filled = 0;
    while filled < buffer.len() {
        let n = reader.read(&mut buffer[filled..])?;
        if n == 0 {
            break;
        }
        filled += n;
    }
    Ok(filled)
}
