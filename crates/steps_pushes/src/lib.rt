// The pushes of the step list, one function for each step.
#![tactic(auto)]

pub mod pushes;
