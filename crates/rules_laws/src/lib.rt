// What normalising gives by the rules that its caller names, and that it keeps the value:
// definitions and laws.
#![tactic(auto)]
