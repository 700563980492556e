// What a split keeps: theory alone, no function.
#![tactic(auto)]
