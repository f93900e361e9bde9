//! What reads a text, tried from its bytes to its program. No part stands on these tests, so none is proved again for
//! them.
#![tactic(auto)]

#[cfg(test)]
mod devices;
#[cfg(test)]
mod drafts;
#[cfg(test)]
mod interruptions;
#[cfg(test)]
mod parsing;
#[cfg(test)]
mod programs;
#[cfg(test)]
mod tokens;
#[cfg(test)]
mod ways;
