// A problem text: its home and its rules, or the first fault and the line that has it.
#![tactic(auto)]

pub mod any_rule;
pub mod front;
pub mod problem;
mod reading;
