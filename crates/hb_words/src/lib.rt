//! Tables that threads share without a lock: a type word and a def word for each key, which change in single atomic
//! steps, and stand under one legal history. (docs/ARCHITECTURE.md, "Tables without a lock")
#![tactic(auto)]

mod calls;
mod changing;
mod close;
pub mod closed;
pub mod desk;
pub mod laws;
pub mod layout;
mod making;
mod plays;
mod steps;
pub mod view;
pub mod words;
