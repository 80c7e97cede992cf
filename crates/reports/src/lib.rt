// What the reports share: the row of numbers that a report writes.
#![tactic(auto)]

pub mod row;
