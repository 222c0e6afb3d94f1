// What is put into a lent slice; and the limits of document 01.
#![tactic(auto)]

pub mod limits;
pub mod refusal;
pub mod write;
