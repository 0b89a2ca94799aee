// The solver at the octagon, for every rule: the call that carries the whole promise.
#![tactic(auto)]

pub mod call;
pub mod law;
