// The atom table of a form that is being made: the front door, the begin and the end of a pass.
#![tactic(auto)]

pub mod pass;
pub mod read;
pub mod table;
