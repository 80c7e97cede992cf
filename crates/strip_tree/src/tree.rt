// The tree of free pieces, by value: a bit for each of 255 nodes. Node 1 is the whole memory, and the halves of node i
// are 2 i and 2 i + 1. The bit of a node is set while it is a free piece.
ghost use Rattle.std.specs.Prelude.{◌≡◌, ◌/◌, ◌<◌};
ghost use Rattle.limits.specs.Limits.{WORD_MARKS};
ghost use Rattle.strip_tree.specs.Trees.{NODES, tree_word, with_word, is_free_node, with_free, without_free};

use words::mark;

// The nodes of this order and of every larger one have their bits in the first word.
pub const FIRST_WORD_ORDER: usize = 2;

// The first word of the tree in which the whole memory is one free piece.
pub const WHOLE_FREE: u64 = 2;

#[derive(Clone, Copy)]
pub struct Tree {
    pub a: u64,
    pub b: u64,
    pub c: u64,
    pub d: u64,
}

impl Tree {
    // The word that has the bits of 64 nodes.
    fn word(self, i: usize) -> u64
        requires { i < NODES / WORD_MARKS }
        ensures { result ≡ tree_word self i }
    {
        match i {
            0 => self.a,
            1 => self.b,
            2 => self.c,
            _ => self.d,
        }
    }

    // The tree with another word.
    fn with_word(self, i: usize, word: u64) -> Tree
        requires { i < NODES / WORD_MARKS }
        ensures { result ≡ with_word self i word }
    {
        match i {
            0 => Tree { a: word, ..self },
            1 => Tree { b: word, ..self },
            2 => Tree { c: word, ..self },
            _ => Tree { d: word, ..self },
        }
    }

    // Whether a node is a free piece.
    #[tactic(auto, unfolding(crate::specs::Trees::is_free_node))]
    pub fn is_free(self, node: usize) -> bool
        requires { node < NODES }
        ensures { result ≡ is_free_node self node }
    {
        let word = self.word(node / limits::WORD_MARKS);
        mark::test(word, (node % limits::WORD_MARKS) as u32)
    }

    // The tree with one free piece more.
    #[tactic(auto, unfolding(crate::specs::Trees::with_free))]
    pub fn mark(self, node: usize) -> Tree
        requires { node < NODES }
        ensures { result ≡ with_free self node }
    {
        let i = node / limits::WORD_MARKS;
        let bit = (node % limits::WORD_MARKS) as u32;
        self.with_word(i, mark::set(self.word(i), bit))
    }

    // The tree with one free piece less.
    #[tactic(auto, unfolding(crate::specs::Trees::without_free))]
    pub fn clear(self, node: usize) -> Tree
        requires { node < NODES }
        ensures { result ≡ without_free self node }
    {
        let i = node / limits::WORD_MARKS;
        let bit = (node % limits::WORD_MARKS) as u32;
        self.with_word(i, mark::clear(self.word(i), bit))
    }
}
