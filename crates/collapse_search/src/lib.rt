// The three entries of a collapse: the third is found along links.
#![tactic(auto)]

pub mod find;
pub mod links;
