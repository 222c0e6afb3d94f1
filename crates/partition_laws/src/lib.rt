// What the partition classes are: definitions and laws, without code.
#![tactic(auto)]
