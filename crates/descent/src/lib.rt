// The descent of normalising: what is collected on the way down.
#![tactic(auto)]

pub mod collect;
