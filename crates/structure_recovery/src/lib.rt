// Recovering structure: the groups of a form in turn.
#![tactic(auto)]

pub mod recover;
