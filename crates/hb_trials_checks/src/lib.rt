//! Derivations, bundles and generated programs: which derivations the verifier takes, and which text is made from a number.
#![tactic(auto)]

#[cfg(test)]
mod bundles;
#[cfg(test)]
mod derivation_texts;
#[cfg(test)]
mod derivations;
#[cfg(test)]
mod generated;
pub mod lookups;
#[cfg(test)]
mod texts;
