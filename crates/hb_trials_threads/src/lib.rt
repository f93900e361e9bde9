//! Programs whose scripts run at once, from their texts to their reports.
#![tactic(auto)]

pub mod gates;
#[cfg(test)]
mod reports;
#[cfg(test)]
mod texts;
