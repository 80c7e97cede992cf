// Won and lost exchanges along a run, and that the lost ones are paid for: definitions and laws. It has no code, and no
// crate of code needs it.
#![tactic(auto)]
