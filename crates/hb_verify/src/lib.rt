//! The verifier of derivations: it walks over a body with the uses and steps of a derivation in hand.
#![tactic(auto)]

mod bodies;
mod expressions;
pub mod laws;
mod progress;
mod rules;

pub use bodies::{VerifyFail, verify};
