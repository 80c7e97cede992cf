// Definitions and laws only: the pieces of the strips' memory in the plain pool.
#![tactic(auto)]
