//! The row of names, tried: by seats in one thread, and by seats in threads of their own. No part stands on these tests, so none is proved again for them.
#![tactic(auto)]

pub mod asking;
#[cfg(test)]
mod seats;
#[cfg(test)]
mod threads;
