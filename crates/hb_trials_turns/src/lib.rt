//! Scripts that take turns in one thread, each by a seat of its own at the words of the tables without a lock. No part
//! stands on these tests, so none is proved again for them.
#![tactic(auto)]

pub mod comparing;
pub mod pair;
#[cfg(test)]
mod rows;
pub mod script;
