// The semilinear form (document 01: sheet): its records, its validity, and the answer of its writers.
#![tactic(auto)]

pub mod items;
pub mod outcome;
pub mod scan;
