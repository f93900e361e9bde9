//! What is true of the canonical text of every program, and of the way back from it.
#![tactic(auto)]

mod again;
mod canonical;
mod simulation;
mod source;

pub use again::reads_back;
pub use canonical::{canonical_deeds, canonical_tokens};
pub use simulation::{deeds_calm, simulated};
pub use source::{deeds_build, source_depth, source_words};
