//! The report of a program's runs, and the trace of their history.
#![tactic(auto)]

mod callers;
mod lines;
mod places;
mod sections;
mod traces;
mod words;

pub use callers::{journals, kept_entries};
pub use sections::{all_done, report};
pub use traces::trace;
