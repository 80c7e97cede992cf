// What the byte of a slot says: the numbers of specs/SlotStates.antt. It is 0 where no strip begins.
ghost use Rattle.std.specs.Prelude.{◌≡◌, ◌≤◌};
ghost use Rattle.strip_tree.specs.SlotStates.{IN_HAND, order_in};

use limits::index::Order;

// A strip of order k in hand has the byte IN_HAND + k, one whose free has begun FREE_BEGUN + k.
pub const IN_HAND: u8 = 1;

pub const FREE_BEGUN: u8 = 9;

// The largest byte.
pub const LAST_BYTE: u8 = 16;

// The order of the strip of a byte. The callers are the step that frees a strip and the beginning of its free.
pub fn order_in(byte: u8) -> Order
    requires { IN_HAND ≤ byte }
    ensures { result ≡ order_in byte }
{
    Order::new((byte - IN_HAND) as usize % limits::ORDERS)
}
