// The lines that answer a problem: regions from their limits and points alone, the end, or the one fault.
#![tactic(auto)]

pub mod ending;
pub mod pairs;
pub mod point_line;
pub mod ranges;
pub mod refusal;
pub mod region;
