// Leaving: the search for the next cache that is not empty, the beginning and the last step. Between them a cache is
// returned by the steps of a free.
#![tactic(auto)]

pub mod begin;
pub mod end;
pub mod next;
