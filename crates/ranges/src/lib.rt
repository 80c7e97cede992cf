// The tests whose failure is 14, on values that have been read. Nothing here reads or writes memory.
#![tactic(auto)]

ghost use Rattle.std.specs.Prelude.{◌≡◌};
ghost use Rattle.stepped.specs.Ranges.{is_block, is_top, is_anchor, has_chain, has_first, has_room};

use classes::geometry;
use limits::index::{Class, RegionCount};
use words::anchor;
use words::anchor::Anchor;

// Whether a unit is the first of a block of the class in so many regions, however many they are.
pub fn is_block(regions: usize, class: Class, unit: usize) -> bool
    ensures { result ≡ is_block regions class unit }
{
    geometry::region_of(unit) < regions && geometry::is_first(class, unit)
}

// Whether a unit is the top of `count` cached blocks in so many regions: 8,192 where there is none.
pub fn is_top(regions: usize, class: Class, count: usize, unit: usize) -> bool
    ensures { result ≡ is_top regions class count unit }
{
    if count == 0 {
        return unit == limits::UNITS;
    }
    is_block(regions, class, unit)
}

// Whether the area has a block of the class that begins at the unit. Callers have the class of the request: the steps
// that take a block from a cache or put one on it, into which it is put in line, as in the steps' other tests.
#[inline(always)]
pub fn has_block(regions: RegionCount, class: Class, unit: usize) -> bool
    ensures { result ≡ is_block regions class unit }
{
    is_block(regions.get(), class, unit)
}

// Whether a unit is the top of `count` blocks that are cached of the area. Callers as those of `has_block`.
#[inline(always)]
pub fn has_top(regions: RegionCount, class: Class, count: usize, unit: usize) -> bool
    ensures { result ≡ is_top regions class count unit }
{
    is_top(regions.get(), class, count, unit)
}

// Whether a word is an anchor's: a state, and an index and a count as large as any class has.
pub fn is_anchor(word: u64) -> bool
    ensures { result ≡ is_anchor word }
{
    let anchor = Anchor::of(word);
    let avail = anchor.avail as usize;
    let count = anchor.count as usize;
    anchor.state <= anchor::FULL && avail <= limits::MOST_BLOCKS && count <= limits::MOST_BLOCKS
}

// Whether a chain can be taken from a region of `n` blocks with this anchor.
pub fn has_chain(n: usize, word: u64) -> bool
    ensures { result ≡ has_chain n word }
{
    let anchor = Anchor::of(word);
    let avail = anchor.avail as usize;
    let count = anchor.count as usize;
    anchor.state == anchor::PARTIAL && 1 <= count && count <= n && avail < n
}

// Whether the anchor's index names one of `n` blocks, where the chain has one.
pub fn has_first(n: usize, word: u64) -> bool
    ensures { result ≡ has_first n word }
{
    let anchor = Anchor::of(word);
    let avail = anchor.avail as usize;
    anchor.count == 0 || avail < n
}

// Whether a group of so many blocks can be put before the chain of a region of `n` blocks.
pub fn has_room(n: usize, group: usize, word: u64) -> bool
    ensures { result ≡ has_room n group word }
{
    let anchor = Anchor::of(word);
    let count = anchor.count as usize;
    has_first(n, word) && count <= n && group <= n - count
}
