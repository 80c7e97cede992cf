// From a size in bytes to the class that serves it.
ghost use Rattle.std.specs.Prelude.{◌≡◌, ◌*◌, ◌≤◌, ◌<◌};
ghost use Rattle.limits.specs.Limits.{UNIT_BYTES, LARGEST_SIZE};
ghost use Rattle.classes.specs.Classes.{LARGEST_UNITS};
ghost use Rattle.classes.specs.Sizes.{choice, class_of};

use limits::index::Class;
use limits::refusal::Refusal;

// What serves a size: the smallest class whose block holds it, or a strip.
#[derive(Clone, Copy)]
pub enum Choice {
    Class(Class),
    Strip,
}

// Hexadecimal digit p is the class of the smallest size s with the leading bit of s - 1 at place p.
const FIRST_CLASSES: usize = 0x9532_1000;

// Digit p is how many of the two bits after that leading bit do not matter to the class.
const UNREAD_BITS: usize = 0x0012_2222;

// The class of so many units, a block of which holds them: arithmetic on the leading bit of their bytes less one and
// the two bits after it, without a branch. No caller gives 0 units: there the quotient is 0, so nothing is subtracted,
// and the lowest bit, which is set, is the leading one. Caller: `size_class`.
fn class_of(units: usize) -> u8
    requires { units ≤ LARGEST_UNITS }
    ensures { result ≡ class_of (UNIT_BYTES * units) }
{
    let size = limits::UNIT_BYTES * units;
    let less_one = size - (size + limits::LARGEST_SIZE - 1) / limits::LARGEST_SIZE;
    let place = 63 - u64::leading_zeros((less_one | 1) as u64);
    let next_two = ((4 * less_one) >> place) & 3;
    let first_class = (FIRST_CLASSES >> (4 * place)) & 15;
    let unread = (UNREAD_BITS >> (4 * place)) & 15;
    (first_class + (next_two >> unread)) as u8
}

// What a size above the largest of a small block is given: a strip, if the largest is no smaller. Caller: `size_class`.
fn strip(bytes: usize) -> Result<Choice, Refusal>
    requires { LARGEST_SIZE < bytes }
    ensures { result ≡ choice bytes }
{
    if limits::LARGEST_STRIP < bytes {
        return Err(Refusal::SizeTooLarge);
    }
    Ok(Choice::Strip)
}

// The class of the smallest block that holds the size, or a strip; size 0 and a size above the largest are refused.
pub fn size_class(size: u64) -> Result<Choice, Refusal>
    ensures { result ≡ choice size }
{
    let bytes = size as usize;
    if bytes == 0 {
        return Err(Refusal::SizeZero);
    }
    if limits::LARGEST_SIZE < bytes {
        return strip(bytes);
    }
    let units = (bytes + limits::UNIT_BYTES - 1) / limits::UNIT_BYTES;
    let class = class_of(units) as usize;
    Ok(Choice::Class(Class::new(class)))
}
