// What normalising gives: definitions and laws, without code.
#![tactic(auto)]
