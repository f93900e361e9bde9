//! Programs of at most one script have one history, but for the order of its names.
#![tactic(auto)]

pub mod laws;
