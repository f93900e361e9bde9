//! The setup of a program and then its scripts in threads, over shared tables and names.
#![tactic(auto)]

mod forking;
mod gate;
mod gated;
mod job;
mod program;
mod run;
mod script;
mod setup;

pub use gate::{Gate, OpenGate, Point};
pub use program::run_program;
pub use run::ThreadRun;
