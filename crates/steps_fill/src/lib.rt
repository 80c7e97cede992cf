// The steps of an allocation that fill the cache: 4 moves a taken chain to it, 7 and 8 open a region and carve it. Each
// public function is one step.
#![tactic(auto)]

mod cache;
pub mod chain;
pub mod region;
