// The head word of a list, 64 bits. The low 32 hold the number of the item on top plus one, 0 for an empty
// list. The high 32 hold the tag, which tells an unchanged head from one that has the same item on top again.
ghost use Rattle.std.specs.Prelude.{◌≡◌};
ghost use Rattle.words.specs.Head.{head_of, word_of, empty_head, top_of, advanced};

// What 1 in the tag adds to the word; the low 32 bits hold the numbers below this.
const TAG_WEIGHT: u64 = 4_294_967_296;

#[derive(Clone, Copy, Debug, PartialEq, Eq)]
pub struct Head {
    // The number of the item on top plus one; 0 for none.
    pub item: u32,
    pub tag: u32,
}

impl Head {
    // The head of an empty list in a pool that has just been started.
    pub fn empty() -> Head
        ensures { result ≡ empty_head }
    {
        Head { item: 0, tag: 0 }
    }

    // The head that a word holds.
    pub fn of(word: u64) -> Head
        ensures { result ≡ head_of word }
    {
        Head {
            item: (word % TAG_WEIGHT) as u32,
            tag: (word / TAG_WEIGHT) as u32,
        }
    }

    // The word that holds the head.
    pub fn word(self) -> u64
        ensures { result ≡ word_of self }
    {
        (self.item as u64) + (self.tag as u64) * TAG_WEIGHT
    }

    // The item on top, if the list has one. The read by which a pop finds its list empty is this one.
    pub fn top(self) -> Option<u32>
        ensures { result ≡ top_of self }
    {
        self.item.checked_sub(1)
    }

    // The head after a won exchange that leaves `item`, an item's number plus one or 0 for none, on top.
    // The sum is meant to wrap: after tag 4,294,967,295 comes 0.
    pub fn advance(self, item: u32) -> Head
        ensures { result ≡ advanced self item }
    {
        Head {
            item,
            tag: self.tag.wrapping_add(1),
        }
    }
}
