//! The steps on the row.

ghost use Rattle.std.specs.Prelude.{◌≡◌, ◌<◌, ◌≤◌, ◌+◌, false, true, length, None};
ghost use mathlib.Core.Option.{none};
ghost use Rattle.atomic_table.specs.Table.{step};
ghost use Rattle.hb_names.specs.Names.{place as place_of};
ghost use Rattle.hb_row.specs.Row.{words_max, offers_max, row_at, offer_at, offer_name, IsDrafted, IsValid, with_draft, places, reads, spells};
ghost use Rattle.hb_row.specs.Seats.{IsPlaceOf, IsSamePlace};

use crate::plays::{Drafts, Offered, Places, Reads, Spells};
use crate::view::{Place, Steps};
use hb_names::NAMES_MAX;
use hb_types::ids::ClassId;

/// Stores word `i` of the seat's offer.
pub(crate) fn draft(row: &Steps, seat: &mut Place, word: usize, i: usize, x: u64)
    requires seat { IsPlaceOf row.now.table_id seat.old }
    requires room { (i ≤ length seat.old.me.0.draft) × (i < 9) × (seat.old.me.0.offer < offers_max) }
    requires at { word ≡ offer_at seat.old.me.0.offer + i }
    ensures same { IsSamePlace seat.old seat.new }
    ensures drafted { seat.new.me.0 ≡ with_draft seat.old.me.0 i x }
{
    row.store::<Drafts>(seat, word, x);
}

/// Tries the first unknown place for the name that was drafted.
pub(crate) fn place<A: Offered>(
    row: &Steps,
    seat: &mut Place,
    class: ClassId,
    name: &[u8],
    word: usize,
    offer: u64,
) -> u64
    requires asked { A.name ≡ (class.0, name.now) }
    requires seat { IsPlaceOf row.now.table_id seat.old }
    requires room { (seat.old.me.0.offer < offers_max) × (length seat.old.me.0.known < NAMES_MAX) }
    requires ready { IsDrafted (class.0, name.now) seat.old.me.0.draft }
    requires fresh { place_of seat.old.me.0.known (class.0, name.now) ≡ None }
    requires valid { IsValid (class.0, name.now) }
    requires at { (word ≡ row_at (length seat.old.me.0.known)) × (offer ≡ offer_name seat.old.me.0.offer) }
    ensures same { IsSamePlace seat.old seat.new }
    ensures placed { places (class.0, name.now) (step 0 word 0 offer none) seat.old.me result seat.new.me }
{
    row.compare_exchange::<Places<A>>(seat, word, 0, offer)
}

/// Reads the first unknown place.
pub(crate) fn read(row: &Steps, seat: &mut Place, word: usize) -> u64
    requires seat { IsPlaceOf row.now.table_id seat.old }
    requires at { (word ≡ row_at (length seat.old.me.0.known)) × (length seat.old.me.0.known < NAMES_MAX) }
    ensures same { IsSamePlace seat.old seat.new }
    ensures read { reads (step 0 word 0 0 none) seat.old.me result seat.new.me }
{
    row.load::<Reads>(seat, word)
}

/// Reads a word of an offer that stands in a place.
pub(crate) fn spell(row: &Steps, seat: &mut Place, word: usize) -> u64
    requires seat { IsPlaceOf row.now.table_id seat.old }
    requires at { word < words_max }
    ensures same { IsSamePlace seat.old seat.new }
    ensures spelt { spells (step 0 word 0 0 none) seat.old.me result seat.new.me }
{
    row.load::<Spells>(seat, word)
}
