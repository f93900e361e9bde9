//! Bundles: a program with derivations for it, how one is written, opened and verified.
#![tactic(auto)]

mod ends;
mod opening;
mod verdicts;
mod verifying;
mod writing;

pub use opening::{Opened, open_bundle};
pub use verdicts::Verdicts;
pub use verifying::{TextsFail, verify_texts};
pub use writing::bundle;
