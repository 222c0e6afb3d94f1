// Stored answers (docs/VECTORS.md): their entries read, results held to them, and the lines printed.
#![tactic(auto)]

pub mod answer;
pub mod entry;
pub mod kind;
pub mod report;
pub mod result;
pub mod tally;
pub mod words;
