// A problem solved by calls: each rule is stated, the search begins and runs once.
#![tactic(auto)]

pub mod law;
