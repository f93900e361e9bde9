//! The checks that a script keeps: for each method's key at most one, until a type that it used or the definition changes.
#![tactic(auto)]

mod cache;
mod kept;
pub mod laws;

pub use cache::Cache;
pub use kept::{Kept, Seen};
