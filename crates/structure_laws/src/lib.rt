// What recovering, coalescing and flattening give: definitions and laws, without code.
#![tactic(auto)]
