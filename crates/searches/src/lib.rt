// A search over any machine that holds a stack of subproblems: definitions and laws in specs/ and proofs/, and no function.
#![tactic(auto)]

pub use problem::verdict;
