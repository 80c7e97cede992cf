// The plain pool: document 01's whole run, as definitions. It has no code; the crates above compare the code's pool
// with it.
#![tactic(auto)]
