//! The judgement of method bodies, its faults, and the derivations that show it, with their laws.
#![tactic(auto)]

pub mod ill;
pub mod laws;
pub mod raw;
