// Recovering within a group: entries with complement masks.
#![tactic(auto)]

pub mod pair;
