// The control memory: its columns, what a call answers, and the reasons of the list moves.
#![tactic(auto)]

pub mod answer;
pub mod column;
pub mod layout;
pub mod losts;
pub mod moves;
pub mod places;
pub mod request;
