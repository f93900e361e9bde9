//! Callers that each know a front of one history, and how these fronts make the history.
#![tactic(auto)]

mod caller;
pub mod laws;

pub use caller::{CallerOptions, run_caller};
