// The stepped pool: document 01's step list over the fields of the control memory, as definitions. It has no code; the
// code's contracts cite it.
#![tactic(auto)]
