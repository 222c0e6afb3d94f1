// The theorems about lists of calls and the worked examples.
#![tactic(auto)]
