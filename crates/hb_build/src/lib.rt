//! What the actions of the grammar build: a program, or its first fault.
#![tactic(auto)]

mod act;
mod blocks;
pub mod builder;
mod checks;
pub mod faults;
pub mod held;
mod lists;
mod methods;
mod nodes;
mod tops;
mod words;
