//! Tokens to programs: the program that a text says, or its first fault.
#![tactic(auto)]

mod laws;
mod parser;

pub use hb_build::faults::{Limit, ParseFail};
pub use hb_grammar::Wanted;
pub use laws::{different_places, one_answer, one_program};
pub use parser::parse;
