// The rules, a file each, a rule of either of two, and from these the rule of any of them.
#![tactic(auto)]

pub mod any;
pub mod apart;
pub mod joined;
pub mod pair;
pub mod step;
