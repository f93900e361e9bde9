//! What calls stand on, tried: types, names, derivations, kept checks and the tables. No part stands on these tests, so
//! none is proved again for them.
#![tactic(auto)]

#[cfg(test)]
mod cache;
#[cfg(test)]
mod derivations;
#[cfg(test)]
mod desk;
#[cfg(test)]
mod names;
#[cfg(test)]
mod types;
