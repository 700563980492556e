// The problem: masks, what each two variables allow, the first checks that speak of it alone, and the row of what is allowed beside a value.
#![tactic(auto)]

pub mod beside;
pub mod first_checks;
pub mod mask;
pub mod matrix;
pub mod refusal;
mod symmetry;
pub mod tables;
pub mod verdict;
