// Nodes of the tree and slots of the strips' memory. The callers are the steps of strips and the beginning of a free.
ghost use Rattle.std.specs.Prelude.{◌≡◌, ◌-◌, ◌^◌, ◌<◌};
ghost use Rattle.limits.specs.Limits.{ORDERS};
ghost use Rattle.strip_tree.specs.TreeMoves.{InLevel, node_of, slot_of_node, can_begin};

use limits::index::{Order, Slot};

// The slot where a node of an order begins.
pub fn slot_of(node: usize, order: Order) -> Slot
    requires { InLevel order node }
    ensures { result ≡ slot_of_node order node }
{
    Slot::new((node << order.get()) - limits::SLOTS)
}

// The node of an order at a slot.
pub fn node_of(slot: Slot, order: Order) -> usize
    ensures node { result ≡ node_of order slot }
    ensures below { result < 2 ^ (ORDERS - order) }
{
    (limits::SLOTS + slot.get()) >> order.get()
}

// Whether a piece of an order can begin at a slot.
pub fn divides(slot: Slot, order: Order) -> bool
    ensures { result ≡ can_begin slot order }
{
    (slot.get() >> order.get()) << order.get() == slot.get()
}
