// Joining freed halves. The order grows by one at each joining, up to that of the whole memory.
ghost use Rattle.std.specs.Prelude.{◌≡◌, ℕ, ◌-◌, ◌<◌, ◌≤◌};
ghost use Rattle.limits.specs.Limits.{WHOLE_ORDER};
ghost use Rattle.strip_tree.specs.Trees.{FIRST_WORD_ORDER, NODES, buddy, tree_with};
ghost use Rattle.strip_tree.specs.TreeMoves.{joining, Within};

use crate::tree;
use crate::tree::Tree;
use limits::index::Order;
use words::mark;

// The other half of the piece that a node is half of.
fn buddy_of(node: usize) -> usize
    requires { node < NODES }
    ensures { result ≡ buddy node }
{
    node + 1 - 2 * (node % 2)
}

// The first word with the node a free piece, joined with its other half as long as that is free. Caller: `join`.
fn join_high(first: u64, node: usize, order: usize) -> u64
    requires node { Within order node }
    requires in_first_word { FIRST_WORD_ORDER ≤ order }
    ensures { (b c d : ℕ) → tree_with result b c d ≡ joining (tree_with first b c d) (WHOLE_ORDER - order) node }
{
    let mut word = first;
    let mut joined = node;
    for _ in order..limits::WHOLE_ORDER {
        let buddy = buddy_of(joined);
        if !mark::test(word, buddy as u32) {
            return mark::set(word, joined as u32);
        }
        word = mark::clear(word, buddy as u32);
        joined /= 2;
    }
    mark::set(word, joined as u32)
}

impl Tree {
    // The tree with the node a free piece, joined with its other half as long as that is free. Orders whose nodes are
    // all in the first word are joined there. Caller: the step that frees a strip.
    pub fn join(self, node: usize, order: Order) -> Tree
        requires { Within order node }
        ensures { result ≡ joining self (WHOLE_ORDER - order) node }
    {
        let order = order.get();
        let mut tree = self;
        let mut joined = node;
        for _ in order..tree::FIRST_WORD_ORDER {
            let buddy = buddy_of(joined);
            if !tree.is_free(buddy) {
                return tree.mark(joined);
            }
            tree = tree.clear(buddy);
            joined /= 2;
        }
        let high = order.max(tree::FIRST_WORD_ORDER);
        let a = join_high(tree.a, joined, high);
        Tree { a, ..tree }
    }
}
