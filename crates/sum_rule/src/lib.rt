// The sum rule, apart from the others since it takes longest to prove.
#![tactic(auto)]

pub mod frame;
pub mod sum;
