// The steps of a free that handle its cache: 1 puts the block on it, 2 takes it, a group of blocks of one region at a
// time. Step 2 is one of leaving, too. One function for each definition of the step list, with the answer and every
// byte of control memory and area afterwards.
#![tactic(auto)]

pub mod cache;
pub mod group;
