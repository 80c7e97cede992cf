// What the pops and the pushes of the step list share: what the reason of a move decides, head words, items, and where
// a return goes on after a won exchange.
#![tactic(auto)]

pub mod follow;
pub mod heads;
pub mod items;
pub mod reason;
pub mod shared;
