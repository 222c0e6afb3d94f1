// What refining gives, and that it keeps the value.
#![tactic(auto)]
