// The tree of free pieces in the control memory.
ghost use Rattle.std.specs.Prelude.{◌≡◌};
ghost use Rattle.control.specs.Layout.{seen, changed};
ghost use Rattle.stepped.specs.StripSteps.{tree_of, tree_writes};

use control::column::Control;
use control::layout::FREE_NODES;
use limits::index::Index;
use strip_tree::tree::Tree;

// The tree that the fields hold. Callers: the steps of strips.
pub fn tree(control: &Control) -> Tree
    ensures { result ≡ tree_of (seen control.now) }
{
    Tree {
        a: FREE_NODES.get(control, Index::new(0)),
        b: FREE_NODES.get(control, Index::new(1)),
        c: FREE_NODES.get(control, Index::new(2)),
        d: FREE_NODES.get(control, Index::new(3)),
    }
}

// Leaves a tree in the fields. Callers: the steps of strips.
pub fn set_tree(control: &mut Control, tree: Tree)
    ensures { control.new ≡ changed (tree_writes tree) control.old }
{
    FREE_NODES.set(control, Index::new(0), tree.a);
    FREE_NODES.set(control, Index::new(1), tree.b);
    FREE_NODES.set(control, Index::new(2), tree.c);
    FREE_NODES.set(control, Index::new(3), tree.d);
}
