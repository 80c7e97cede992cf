// What the reports tell of the plain pool. There is no code here.
#![tactic(auto)]
