// How many there are of each thing, by name, for the code: the numbers of specs/Limits.antt. Beside them the types of
// numbers that lie in such a range, and why a call is refused.
#![tactic(auto)]

pub mod index;
pub mod refusal;
#[cfg(test)]
mod tests;

// Control memory is so many bytes.
pub const CONTROL_BYTES: usize = 8192;

// The area is 1 to 16 regions of 4,096 bytes.
pub const REGIONS: usize = 16;

pub const REGION_BYTES: usize = 4096;

pub const AREA_BYTES: usize = 65536;

// A unit is 8 bytes; a region has 512 of them, the largest area 8,192, which is also the bottom of a cache.
pub const UNIT_BYTES: usize = 8;

pub const REGION_UNITS: usize = 512;

pub const UNITS: usize = 8192;

// The marks of so many units stand in one word.
pub const WORD_MARKS: usize = 64;

// 1 to 8 tasks.
pub const TASKS: usize = 8;

// The classes of small blocks, and the largest size of one.
pub const CLASSES: usize = 13;

pub const LARGEST_SIZE: usize = 256;

// The strips' memory: 128 slots of 512 bytes, each of 64 units, behind those of the area.
pub const STRIPS_BYTES: usize = 65536;

pub const SLOT_BYTES: usize = 512;

pub const SLOTS: usize = 128;

pub const SLOT_UNITS: usize = 64;

pub const BOTH_UNITS: usize = 16384;

// A strip of order k has 2^k slots: the order of the whole memory, how many orders there are, and the largest size.
pub const WHOLE_ORDER: usize = 7;

pub const ORDERS: usize = 8;

pub const LARGEST_STRIP: usize = 65536;

// There are 64 descriptors.
pub const DESCRIPTORS: usize = 64;

// The most blocks that a region has.
pub const MOST_BLOCKS: usize = 512;

// The lists by number: the partial descriptors of each class, the spare descriptors, the spare regions.
pub const SPARE_DESCRIPTORS: usize = CLASSES;

pub const SPARE_REGIONS: usize = CLASSES + 1;

pub const LISTS: usize = CLASSES + 2;
