// What the rules share: bounds as cuts.
#![tactic(auto)]

pub mod bounds;
