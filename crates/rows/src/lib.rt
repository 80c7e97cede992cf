// Definitions and laws only: rows, what is counted in them, and functions of numbers changed at one index.
#![tactic(auto)]
