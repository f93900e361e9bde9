//! What is true of every run of a program: an entered body stops only for a named cause.
#![tactic(auto)]

pub mod laws;
