// The steps of a free, and of leaving, that return a group to its region: 3, and the first of 4. One function for each
// definition of the step list, with the answer and every byte of control memory and area afterwards.
#![tactic(auto)]

pub mod anchor;
pub mod exchange;
pub mod map;
