//! The row of names that callers in several threads share. (docs/ARCHITECTURE.md, "The row of names")
#![tactic(auto)]

mod door;
mod gather;
mod known;
pub mod laws;
mod plays;
mod row;
mod seat;
mod spelling;
mod steps;
mod tries;
pub mod view;

pub use door::NameDoor;
pub use known::KnownNames;
pub use row::NameRow;
pub use seat::NameSeat;
