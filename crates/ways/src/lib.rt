// Where the descent of normalising stands in a file and where it can go on, by the marks of its records.
#![tactic(auto)]

pub mod marks;
pub mod side;
