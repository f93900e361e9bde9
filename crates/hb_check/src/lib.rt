//! The checker of method bodies: it is exactly the judgement.
#![tactic(auto)]

mod bodies;
mod expressions;
mod looking;
pub mod lookup;
mod notes;
mod rules;

pub use bodies::{Checked, check};
pub use rules::all_below;
