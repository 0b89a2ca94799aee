// What the parts of the solver share: the line's records, the faults, and what a shape and a rule mean.
#![tactic(auto)]

pub mod cut;
pub mod extent;
pub mod fault;
pub mod guard;
pub mod home;
pub mod node;
pub mod point;
pub mod reading;
pub mod rule;
pub mod shape;
pub mod verdict;
