// The steps of an allocation that take: 1 takes a block from the cache, 3 takes the chain of a descriptor. Each
// function is one step, or the rest of one from where the values that it needs are known.
#![tactic(auto)]

pub mod anchor;
pub mod cache;
