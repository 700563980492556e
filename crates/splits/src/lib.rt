// The splits: a subproblem, a request, and the five splits.
#![tactic(auto)]

mod around;
pub mod at_once;
pub mod checks;
pub mod kind;
pub mod refusal;
pub mod split;
pub mod subproblem;
mod words;
