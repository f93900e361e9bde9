//! Bytes to tokens: the longest token is taken, and a line feed separates under a rule.
#![tactic(auto)]

mod bytes;
mod faults;
mod kinds;
mod laws;
mod lexer;
mod literals;
mod marks;
mod places;
mod spans;
mod words;

pub use faults::LexFail;
pub use kinds::TokenKind;
pub use laws::{bytes_are_of_kind, one_answer, tokens_stand};
pub use lexer::lex;
pub use literals::{number_value, text_value};
pub use places::{place_behind, place_of};
pub use spans::{Token, Tokens};
