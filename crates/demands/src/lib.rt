// The three demands, restated of the exported functions: definitions and laws. It has no code.
#![tactic(auto)]
