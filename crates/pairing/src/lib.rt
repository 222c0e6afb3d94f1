// What recovering a pair needs: the search for its partner, and the Xor that it becomes.
#![tactic(auto)]

pub mod partner;
pub mod xored;
