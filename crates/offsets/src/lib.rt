// The entry point: a problem text in, the lines that answer it out.
#![tactic(auto)]

pub mod entry;
mod memory;
mod regions;
mod searching;
