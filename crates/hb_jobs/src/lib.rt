//! The job that the words of the command line ask for.
#![tactic(auto)]

mod command;
mod given;
mod jobs;
mod numbers;
pub mod options;
mod orders;

pub use jobs::job_asked;
pub use options::{Job, RunOptions, Size};
