//! The texts of derivations: how one is written, and what a text says.
#![tactic(auto)]

mod finding;
mod fitting;
mod index;
pub mod laws;
mod lines;
mod maps;
pub mod pieces;
mod stage;
mod texts;
mod words;
mod writing;

pub use fitting::{fits, to_raw};
pub use index::Finder;
pub use texts::{DerivFail, read_text, read_with};
pub use writing::write_text;
