// The solver: rules are stated on a shape, and a search hands out regions where all of them hold.
#![tactic(auto)]

pub mod classify;
pub mod lent;
mod readings;
pub mod refine;
pub mod solver;
mod steps;
