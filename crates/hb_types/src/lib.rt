//! The types of the language, their order, and the numbers by which its things are known.
#![tactic(auto)]

pub mod env;
pub mod ids;
pub mod laws;
pub mod types;
