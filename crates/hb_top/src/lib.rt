//! The top call: a job's words, bytes in and bytes out, and what is due for them. The program is `main` over it.
#![tactic(auto)]

mod derive;
pub mod due;
mod faults;
pub mod in_turns;
mod reports;
mod runs;
mod sources;
mod texts;
mod top;
mod verify;
mod work;

pub use top::hbird;
