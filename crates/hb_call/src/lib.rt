//! Calls: how one is decided, and what its frame holds.
#![tactic(auto)]

mod answers;
mod call;
mod comparing;
mod entering;
mod frame;
mod keeping;
pub mod laws;
mod ruling;
mod share;

pub use entering::enter;
pub use frame::{CallFail, Entered, Frame, leave, leave_lent};
pub use share::{COLLECTED_MAX, Share};
