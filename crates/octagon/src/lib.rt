// The octagon as a shape: the tightly closed matrix of a home and its cuts.
#![tactic(auto)]

mod lowering;
pub mod matrix;
mod points;
pub mod shape;
mod split;
