//! Derivations that scripts in threads publish to one another, over cells that are set once and take no lock.
//! (docs/ARCHITECTURE.md, "Derivations that scripts publish")
#![tactic(auto)]

mod cells;
mod notes;
mod shared;
mod turns;

pub use cells::{CALLER_CELLS, CELLS_MAX, Published};
pub use notes::Notes;
pub use shared::SharedDerivations;
