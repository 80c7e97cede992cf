// The order of a strip for a size in bytes. The caller is the beginning of an allocation.
ghost use Rattle.std.specs.Prelude.{◌<◌, ◌≤◌};
ghost use Rattle.limits.specs.Limits.{LARGEST_STRIP};
ghost use Rattle.pieces.specs.StripSizes.{RoundsTo};

use limits::index::Order;

// "A size is rounded up to a power of two, at least 512."
pub fn order_of(size: usize) -> Order
    requires some { 0 < size }
    requires most { size ≤ LARGEST_STRIP }
    ensures { RoundsTo size result }
{
    let whole = (size - 1) / limits::SLOT_BYTES;
    Order::new(limits::WORD_MARKS - u64::leading_zeros(whole as u64) as usize)
}
