// The anchor of a descriptor, 64 bits: the state in the low 2; then, in 31, avail, the index of the first block
// of the region's chain; then, in 31, count, the number of blocks in that chain.
ghost use Rattle.std.specs.Prelude.{◌≡◌};
ghost use Rattle.words.specs.Anchor.{anchor_of, anchor_word, AnchorFits, full, returned, Room, same_anchor};

// Every block of the region is in its chain.
pub const EMPTY: u32 = 0;

// Some blocks of the region are in its chain.
pub const PARTIAL: u32 = 1;

// No block of the region is in its chain.
pub const FULL: u32 = 2;

#[derive(Clone, Copy, Debug, PartialEq, Eq)]
pub struct Anchor {
    pub state: u32,
    pub avail: u32,
    pub count: u32,
}

impl Anchor {
    // The anchor that a word holds. Its state may be 3, which is none: whoever reads the word tests that.
    pub fn of(word: u64) -> Anchor
        ensures { result ≡ anchor_of word }
    {
        let state = word & 3;
        let avail = (word >> 2) & 0x7fff_ffff;
        let count = word >> 33;
        Anchor {
            state: state as u32,
            avail: avail as u32,
            count: count as u32,
        }
    }

    // The word that holds the anchor. Its parts must fit their bits. Those of `full` and `returned` do, and the
    // steps that exchange an anchor and the step that writes a new descriptor store no others.
    pub fn word(self) -> u64
        requires { AnchorFits self }
        ensures { result ≡ anchor_word self }
    {
        let low = (self.state as u64) | ((self.avail as u64) << 2);
        low | ((self.count as u64) << 33)
    }

    // The anchor of a region of `n` blocks whose chain has been taken whole, or that is still to be carved.
    pub fn full(n: u32) -> Anchor
        ensures { result ≡ full n }
    {
        Anchor {
            state: FULL,
            avail: n,
            count: 0,
        }
    }

    // The anchor after a group of `group` blocks, the first of them `first`, has been put before the chain.
    // The step by which a return exchanges the anchor calls it, once it has tested that the count stays at most `n`
    // and knows that `n`, the number of blocks of a class, is at most that of the smallest.
    pub fn returned(self, first: u32, group: u32, n: u32) -> Anchor
        requires { Room self group n }
        ensures { result ≡ returned self first group n }
    {
        let count = self.count + group;
        if count == n {
            Anchor {
                state: EMPTY,
                avail: first,
                count,
            }
        } else {
            Anchor {
                state: PARTIAL,
                avail: first,
                count,
            }
        }
    }

    // Whether the anchor is the one noted: an anchor's exchange is won exactly then.
    pub fn same(self, other: Anchor) -> bool
        ensures { result ≡ same_anchor self other }
    {
        self == other
    }
}
