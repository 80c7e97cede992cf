// The tests that every call but a start makes first, and the beginnings of the three requests.
#![tactic(auto)]

pub mod allocate;
pub mod free;
pub mod idle;
pub mod leave;
pub mod tests;
