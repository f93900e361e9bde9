//! What one caller asks the row with.

use crate::known::KnownNames;
use crate::view::Place;

/// A caller's seat: what it knows of the row, and what was asked of it.
#[derive(Drop)]
pub struct NameSeat {
    pub(crate) caller: u8,
    /// In caller 0's seat: how many callers were made.
    pub(crate) made: u8,
    /// The offer in which it spells the next name.
    pub(crate) offer: u16,
    pub(crate) place: Place,
    pub(crate) names: KnownNames,
}
