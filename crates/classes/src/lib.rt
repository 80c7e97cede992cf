// The classes of blocks: which class serves a size, and where the blocks of a class lie in a region.
// A block is named by its first unit.
#![tactic(auto)]

pub mod geometry;
pub mod size;
pub mod table;
