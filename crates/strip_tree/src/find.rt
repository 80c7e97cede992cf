// The smallest sufficient free piece, at the lowest place among equals.
ghost use Rattle.std.specs.Prelude.{◌≡◌, ◌*◌, ◌<◌, ◌≤◌};
ghost use Rattle.limits.specs.Limits.{WORD_MARKS, ORDERS};
ghost use Rattle.strip_tree.specs.Trees.{NODES};
ghost use Rattle.strip_tree.specs.TreeMoves.{lowest_of_order, find};
ghost use Rattle.strip_tree.specs.LowBits.{Low, upper};

use crate::tree::Tree;
use limits::index::Order;

// The number of the first node in the second word, in the third and in the fourth. The nodes of order 1 fill the
// second, those of order 0 the last two.
const SECOND_WORD: usize = limits::WORD_MARKS;

const THIRD_WORD: usize = limits::WORD_MARKS * 2;

const FOURTH_WORD: usize = limits::WORD_MARKS * 3;

// A free piece: its node, and the order of that.
#[derive(Clone, Copy)]
pub struct Found {
    pub node: usize,
    pub order: Order,
}

// The lowest bit that is set, `from` added to its place, or 0.
fn lowest(word: u64, from: usize) -> usize
    requires { from < NODES }
    ensures { Low word from result }
{
    if word == 0 {
        return 0;
    }
    from + u64::trailing_zeros(word) as usize
}

// The bits of a word from the bit p on, p of them.
fn upper_of(word: u64, p: usize) -> u64
    requires { 2 * p ≤ WORD_MARKS }
    ensures { result ≡ upper word p }
{
    (word >> p) & ((1u64 << p) - 1)
}

impl Tree {
    // The lowest free piece of an order, or 0.
    fn level(self, order: usize) -> usize
        requires { order < ORDERS }
        ensures { result ≡ lowest_of_order self order }
    {
        if order == 0 {
            let node = lowest(self.c, THIRD_WORD);
            if node != 0 {
                return node;
            }
            return lowest(self.d, FOURTH_WORD);
        }
        if order == 1 {
            return lowest(self.b, SECOND_WORD);
        }
        let first = limits::SLOTS >> order;
        lowest(upper_of(self.a, first), first)
    }

    // The smallest order from `least` on that has a free piece, and its lowest node. Caller: the step that takes a
    // strip.
    pub fn find(self, least: Order) -> Option<Found>
        ensures { result ≡ find self least }
    {
        for order in least.get()..limits::ORDERS {
            let node = self.level(order);
            if node != 0 {
                return Some(Found {
                    node,
                    order: Order::new(order),
                });
            }
        }
        None
    }
}
