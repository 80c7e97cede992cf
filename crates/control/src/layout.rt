// The layout of the control memory: each column with the type of its numbers, how many there are, and its first byte, in
// the order of the columns. These are the numbers of specs/Layout.antt; each column is proved to be a line of it.
ghost use Rattle.std.specs.Prelude.{◌≡◌, map};
ghost use Rattle.control.specs.Layout.{layout, start_of};

use crate::column::Column;
use limits::{DESCRIPTORS, LISTS, REGIONS, SLOTS, TASKS, UNITS, WORD_MARKS};
use std::marker::PhantomData;

// How many words the marks of all units take.
pub const MARK_WORDS: usize = UNITS / WORD_MARKS;

// How many words the tree of the free pieces of strips takes: two nodes to a slot.
pub const TREE_WORDS: usize = SLOTS * 2 / WORD_MARKS;

// The caches stand task by task, with room for so many classes of a task.
pub const CACHES_OF_TASK: usize = 16;

// How many caches there is room for.
pub const CACHES: usize = CACHES_OF_TASK * TASKS;

// What stands in the place of a unit while a task leaves: the first number that is no unit, of either memory.
pub const LEAVING: u16 = limits::BOTH_UNITS as u16;

// The head word of a list: first those of the partial descriptors of each class, then the spare descriptors, then the
// spare regions.
pub const HEADS: Column<u64, LISTS> = Column {
    start: 0,
    of: PhantomData,
};

// A descriptor's anchor.
pub const ANCHORS: Column<u64, DESCRIPTORS> = Column {
    start: 256,
    of: PhantomData,
};

// 64 marks, of the units 64 × k to 64 × k + 63.
pub const UNIT_MARKS: Column<u64, MARK_WORDS> = Column {
    start: 768,
    of: PhantomData,
};

// The head word that a task noted.
pub const TASK_HEADS: Column<u64, TASKS> = Column {
    start: 4864,
    of: PhantomData,
};

// The anchor that a task noted.
pub const TASK_ANCHORS: Column<u64, TASKS> = Column {
    start: 4928,
    of: PhantomData,
};

// The top block of a cache: its unit, 8,192 for none.
pub const CACHE_TOPS: Column<u16, CACHES> = Column {
    start: 4992,
    of: PhantomData,
};

// How many blocks a cache has.
pub const CACHE_COUNTS: Column<u16, CACHES> = Column {
    start: 5248,
    of: PhantomData,
};

// The unit of the block or strip that a task frees; LEAVING from the beginning of leaving to that of a free.
pub const TASK_UNITS: Column<u16, TASKS> = Column {
    start: 5504,
    of: PhantomData,
};

// The index of the block that a task moves or carves next.
pub const TASK_INDEXES: Column<u16, TASKS> = Column {
    start: 5520,
    of: PhantomData,
};

// How many blocks of a taken chain are left to move.
pub const TASK_LEFTS: Column<u16, TASKS> = Column {
    start: 5536,
    of: PhantomData,
};

// The index of the first block of a task's group.
pub const GROUP_FIRSTS: Column<u16, TASKS> = Column {
    start: 5552,
    of: PhantomData,
};

// The index of the last block of a task's group.
pub const GROUP_LASTS: Column<u16, TASKS> = Column {
    start: 5568,
    of: PhantomData,
};

// How many blocks a task's group has.
pub const GROUP_COUNTS: Column<u16, TASKS> = Column {
    start: 5584,
    of: PhantomData,
};

// How many exchanges a task has lost in the request that it has in hand, or had last.
pub const TASK_LOSTS: Column<u32, TASKS> = Column {
    start: 5600,
    of: PhantomData,
};

// A task's place in the step list: one of Places, and `step_list` of the stepped pool is their list.
pub const TASK_PLACES: Column<u8, TASKS> = Column {
    start: 5632,
    of: PhantomData,
};

// The class of the block that a task's request is for, or the order of its strip; in leaving, that of the cache that
// is returned.
pub const TASK_CLASSES: Column<u8, TASKS> = Column {
    start: 5640,
    of: PhantomData,
};

// The item's next that a pop noted: a number plus one, 0 for none.
pub const TASK_NEXTS: Column<u8, TASKS> = Column {
    start: 5648,
    of: PhantomData,
};

// The descriptor that a task has in hand; in a return, the group's.
pub const TASK_DESCRIPTORS: Column<u8, TASKS> = Column {
    start: 5656,
    of: PhantomData,
};

// The region that a task has in hand; in a return, the group's.
pub const TASK_REGIONS: Column<u8, TASKS> = Column {
    start: 5664,
    of: PhantomData,
};

// The state in which a return found the anchor that it exchanged.
pub const TASK_STATES: Column<u8, TASKS> = Column {
    start: 5672,
    of: PhantomData,
};

// The next of a descriptor on its list: a number plus one, 0 for none.
pub const DESCRIPTOR_NEXTS: Column<u8, DESCRIPTORS> = Column {
    start: 5696,
    of: PhantomData,
};

// The next of a spare region: a number plus one, 0 for none.
pub const REGION_NEXTS: Column<u8, REGIONS> = Column {
    start: 5760,
    of: PhantomData,
};

// A descriptor's region.
pub const DESCRIPTOR_REGIONS: Column<u8, DESCRIPTORS> = Column {
    start: 5776,
    of: PhantomData,
};

// A descriptor's class.
pub const DESCRIPTOR_CLASSES: Column<u8, DESCRIPTORS> = Column {
    start: 5840,
    of: PhantomData,
};

// "A map entry for each region names its descriptor, or none": its number plus one, 0 for none.
pub const MAP_ENTRIES: Column<u8, REGIONS> = Column {
    start: 5904,
    of: PhantomData,
};

// The started number of tasks, 0 while the pool is not started.
pub const STARTED_TASKS: Column<u8, 1> = Column {
    start: 5944,
    of: PhantomData,
};

// The started number of regions.
pub const STARTED_REGIONS: Column<u8, 1> = Column {
    start: 5945,
    of: PhantomData,
};

// The strips: one bit each for a free piece, 64 nodes of the tree in a word.
pub const FREE_NODES: Column<u64, TREE_WORDS> = Column {
    start: 6016,
    of: PhantomData,
};

// What begins at a slot: 0 no strip, 1 + k a strip of order k in hand, 9 + k one whose free has begun.
pub const BYTES_OF_SLOTS: Column<u8, SLOTS> = Column {
    start: 6048,
    of: PhantomData,
};

// How many columns there are.
const COLUMNS: usize = 29;

// Where the columns start: each constant is the column of its name.
pub fn starts() -> [usize; COLUMNS]
    ensures { result ≡ map start_of layout }
{
    [
        HEADS.start,
        ANCHORS.start,
        UNIT_MARKS.start,
        TASK_HEADS.start,
        TASK_ANCHORS.start,
        CACHE_TOPS.start,
        CACHE_COUNTS.start,
        TASK_UNITS.start,
        TASK_INDEXES.start,
        TASK_LEFTS.start,
        GROUP_FIRSTS.start,
        GROUP_LASTS.start,
        GROUP_COUNTS.start,
        TASK_LOSTS.start,
        TASK_PLACES.start,
        TASK_CLASSES.start,
        TASK_NEXTS.start,
        TASK_DESCRIPTORS.start,
        TASK_REGIONS.start,
        TASK_STATES.start,
        DESCRIPTOR_NEXTS.start,
        REGION_NEXTS.start,
        DESCRIPTOR_REGIONS.start,
        DESCRIPTOR_CLASSES.start,
        MAP_ENTRIES.start,
        STARTED_TASKS.start,
        STARTED_REGIONS.start,
        FREE_NODES.start,
        BYTES_OF_SLOTS.start,
    ]
}
