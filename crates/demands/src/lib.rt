// The three demands on one page: theory alone, no function.
#![tactic(auto)]
