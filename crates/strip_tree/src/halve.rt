// Halving a free piece, lower half first. The order falls by one at each halving. Both are recursions on the order, the
// form that the customer's paper names.
ghost use Rattle.std.specs.Prelude.{◌≡◌, ℕ, ◌-◌, ◌≤◌};
ghost use Rattle.strip_tree.specs.Trees.{FIRST_WORD_ORDER, tree_with};
ghost use Rattle.strip_tree.specs.TreeMoves.{halving, Within};

use crate::tree;
use crate::tree::Tree;
use limits::index::Order;
use words::mark;

// The first word after the piece at `node` was halved down to the order `wanted`, all of whose nodes are in the first
// word. Its arguments and its result are numbers, so that the recursion is compiled to a loop. Caller: `halve`.
fn halve_high(first: u64, node: usize, order: usize, wanted: usize) -> u64
    requires node { Within order node }
    requires in_first_word { FIRST_WORD_ORDER ≤ wanted }
    requires smaller { wanted ≤ order }
    ensures { (b c d : ℕ) → tree_with result b c d ≡ halving (tree_with first b c d) (order - wanted) node }
{
    if order == wanted {
        return first;
    }
    let lower = 2 * node;
    halve_high(
        mark::set(first, (lower + 1) as u32),
        lower,
        order - 1,
        wanted,
    )
}

// The last halvings, in any of the words. The tree is changed in place, so that the recursion is compiled to a loop, and
// none of it goes through memory. Caller: `halve`.
fn halve_low(tree: &mut Tree, node: usize, order: usize, wanted: usize)
    requires node { Within order node }
    requires smaller { wanted ≤ order }
    ensures { tree.new ≡ halving tree.old (order - wanted) node }
{
    if order == wanted {
        return;
    }
    let lower = 2 * node;
    *tree = tree.mark(lower + 1);
    halve_low(tree, lower, order - 1, wanted);
}

impl Tree {
    // The tree after the piece at `node` was halved down to the order `wanted`: the upper halves are free. Orders whose
    // nodes are all in the first word are halved there. Caller: the step that takes a strip.
    pub fn halve(self, node: usize, order: Order, wanted: Order) -> Tree
        requires node { Within order node }
        requires smaller { wanted ≤ order }
        ensures { result ≡ halving self (order - wanted) node }
    {
        let order = order.get();
        let wanted = wanted.get();
        if order <= tree::FIRST_WORD_ORDER {
            let mut tree = self;
            halve_low(&mut tree, node, order, wanted);
            return tree;
        }
        if tree::FIRST_WORD_ORDER <= wanted {
            let a = halve_high(self.a, node, order, wanted);
            return Tree { a, ..self };
        }
        let a = halve_high(self.a, node, order, tree::FIRST_WORD_ORDER);
        let mut tree = Tree { a, ..self };
        let low = node << (order - tree::FIRST_WORD_ORDER);
        halve_low(&mut tree, low, tree::FIRST_WORD_ORDER, wanted);
        tree
    }
}
