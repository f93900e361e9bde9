//! Programs: their nodes, which contracts see as trees, with names, texts and places, and their canonical text.
#![tactic(auto)]

mod forms;
pub mod limits;
pub mod node;
pub mod parts;
pub mod print;
pub mod program;
mod sheet;
mod words;
