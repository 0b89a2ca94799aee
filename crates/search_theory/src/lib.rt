// The solver's calls as mathematics: plain data that the code shares, a model of every call, and what holds of every sequence of calls.
#![tactic(auto)]

pub mod checkpoint;
pub mod fate;
pub mod law;
pub mod outcome;
pub mod phase;
pub mod region;
pub mod reply;
pub mod report;
pub mod request;
