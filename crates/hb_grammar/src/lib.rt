//! The grammar of the language: what is done on the way through a text, and where the text stops to follow it.
#![tactic(auto)]

mod actions;
mod course;
mod laws;
mod sight;
mod starts;
mod symbols;
mod table;
mod wanted;

pub use actions::Action;
pub use course::{Course, Step};
pub use laws::one_answer;
pub use symbols::{Sort, Symbol};
pub use wanted::Wanted;
