//! The runs of a program, against one history of its tables.
#![tactic(auto)]

mod going;
pub mod laws;

pub use going::run_to_end;
