// One step of a task: the step list by place.
#![tactic(auto)]

mod allocate;
mod free;
mod last;
mod moves;
pub mod step;
