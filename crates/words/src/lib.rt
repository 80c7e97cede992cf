// The 64-bit words of the pool's control memory, each by value: the head word of a list, the anchor of a
// descriptor, and the words that hold the marks of a region's units. Nothing here reads or writes memory.
#![tactic(auto)]

pub mod anchor;
pub mod head;
pub mod mark;
