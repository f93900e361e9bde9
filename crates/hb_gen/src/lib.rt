//! Programs that are made from a number.
#![tactic(auto)]

mod blocks;
pub mod laws;
mod texts;

pub use texts::{GenFail, NUMBER_MAX, SCRIPTS_MAX, generate};
