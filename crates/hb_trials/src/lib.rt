//! Whole texts through the parts that stand on programs. It has the tests that need a reader of texts, which no part
//! below the parser has, and for them a lookup and steps by hand at a desk.
#![tactic(auto)]

#[cfg(test)]
mod calls;
#[cfg(test)]
mod checks;
#[cfg(test)]
mod counted;
pub mod declarations;
pub mod desks;
#[cfg(test)]
mod hands;
#[cfg(test)]
mod journals;
#[cfg(test)]
mod own;
#[cfg(test)]
mod runs;
#[cfg(test)]
mod texts;
#[cfg(test)]
mod values;
