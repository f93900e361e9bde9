//! The runs of a program by turns: its setup, and then its scripts in an order.
#![tactic(auto)]

mod finishing;
mod ordered;
mod player;
mod playing_out;
mod run;
mod turns;

pub use run::{OrderedRun, run_ordered};
