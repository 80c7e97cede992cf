// The tree of the free pieces of the strips' memory, by value: its search, halving and joining.
#![tactic(auto)]

pub mod find;
pub mod halve;
pub mod join;
pub mod nodes;
pub mod size;
pub mod states;
pub mod tree;
pub mod units;
