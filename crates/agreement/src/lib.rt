// The agreement of the stepped pool with the plain pool: definitions and laws. It has no code, and no crate of code
// needs it.
#![tactic(auto)]
