//! A program under construction: its tables so far, and the trees that are no parts yet.
#![tactic(auto)]

mod draft;
mod laws;
mod pieces;
mod words;

pub use draft::Draft;
pub use laws::one_table;
