//! The cells in which scripts publish, tried: from one thread, and from two at once. No part stands on these tests, so none is proved again for them.
#![tactic(auto)]

pub mod publishing;
#[cfg(test)]
mod rows;
#[cfg(test)]
mod threads;
