// The table that the stand writes is the plain pool's: laws over the agreement of the two pools. It has no code.
#![tactic(auto)]
