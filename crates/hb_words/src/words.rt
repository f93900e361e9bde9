//! The words that threads share, and a caller's seat at them. (docs/ARCHITECTURE.md, "Tables without a lock")

ghost use Rattle.std.specs.Prelude.{◌≡◌, ◌≤◌, ◌<◌, [], ◌∷◌};
ghost use Rattle.hb_tables.specs.declared.entry.TheConstants.{VERSIONS_MAX};
ghost use Rattle.hb_words.specs.declared.layout.TheConstants.{WORDS};

use crate::view::{Law, Place, View};
use atomic_table::Table;
use hb_types::ids::CallerId;
use std::alloc::Global;

/// The type words and def words of all keys, which threads share. Nobody waits at them.
#[derive(Drop)]
pub struct MethodWords {
    pub(crate) table: Table<(), View, u32, Law, Global>,
    /// How often a type or a definition may be changed.
    pub(crate) versions: u32,
    ghost wide: { (table.shared.table_id.words ≡ WORDS) × (table.shared.table_id.slots ≡ 0) },
    ghost limit: { table.shared.key ≡ versions },
    ghost low: { versions ≤ VERSIONS_MAX },
}

/// A caller's seat at the words, without which it can do nothing there.
#[derive(Drop)]
pub struct WordSeat {
    pub(crate) caller: CallerId,
    /// In caller 0's seat: how many callers were made.
    pub(crate) made: u8,
    pub(crate) place: Place,
    ghost named: { place.me.0.caller ≡ caller.0 },
    ghost counted: { place.me.0.made ≡ made },
    ghost own: { place.me.0.owns ≡ place.me.0.caller ∷ [] },
}
