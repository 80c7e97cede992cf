// Laws only: the tree and the slots' bytes follow the pieces of the plain pool.
#![tactic(auto)]
