//! What a seat does at one place of the row.

ghost use Rattle.std.specs.Prelude.{◌≡◌, ◌<◌, ◌≤◌, ◌+◌, length, None, IfSome, IfNone};
ghost use Rattle.hb_names.specs.Names.{Name, place as place_of};
ghost use Rattle.hb_row.specs.Row.{offers_max, offer_name, offer_at, redrafted, IsDrafted, IsValid, IsOfferOf, Learns, Gains};
ghost use Rattle.hb_row.specs.Seats.{IsPlaceOf, IsSamePlace};
ghost use Rattle.hb_row.specs.Spelling.{said};

use crate::spelling::{OFFER_WORDS, Spelled, decode, offer_word};
use crate::steps;
use crate::view::{Place, Steps};
use hb_names::{NAME_BYTES_MAX, NAMES_MAX};
use hb_types::ids::ClassId;
use std::marker::Brand;

/// The row word of an offer.
fn row_word(offer: u16) -> u64
    ensures { result ≡ offer_name offer }
{
    1 + offer as u64
}

/// The first word of an offer, by its row word.
pub(crate) fn offer_start(word: u64) -> usize
    requires { word ≤ offers_max }
    ensures { result ≡ Rattle.hb_row.specs.Row.offer_start word }
{
    9 * word as usize + (NAMES_MAX - 8)
}

/// Spells a name in the seat's offer.
fn draft(row: &Steps, place: &mut Place, start: usize, class: ClassId, name: &[u8])
    requires place { IsPlaceOf row.now.table_id place.old }
    requires room { place.old.me.0.offer < offers_max }
    requires start { start ≡ offer_at place.old.me.0.offer }
    requires short { length name.now ≤ NAME_BYTES_MAX }
    ensures place { IsPlaceOf row.now.table_id place.new }
    ensures same { IsSamePlace place.old place.new }
    ensures view { place.new.me.0 ≡ redrafted place.old.me.0 place.new.me.0.draft }
    ensures drafted { IsDrafted (class.0, name.now) place.new.me.0.draft }
{
    for i in 0..OFFER_WORDS {
        steps::draft(row, place, start + i, i, offer_word(class, name, i));
    }
}

/// Tries the first unknown place for a name. What it answers is the word of another name that stands there.
pub(crate) fn try_place(
    row: &Steps,
    place: &mut Place,
    offer: u16,
    count: usize,
    class: ClassId,
    name: &[u8],
) -> Option<u64>
    requires place { IsPlaceOf row.now.table_id place.old }
    requires offer { (place.old.me.0.offer ≡ offer) × (offer < offers_max) }
    requires room { (length place.old.me.0.known ≡ count) × (count < NAMES_MAX) }
    requires fresh { place_of place.old.me.0.known (class.0, name.now) ≡ None }
    requires valid { IsValid (class.0, name.now) }
    ensures place { IsPlaceOf row.now.table_id place.new }
    ensures same { IsSamePlace place.old place.new }
    ensures placed { IfNone result (Gains place.old.me.0 (class.0, name.now) place.new.me.0) }
    ensures taken { IfSome result (λ word. Learns place.old.me.0 word place.new.me.0) }
{
    let found = steps::read(row, place, 1 + count);
    if found != 0 {
        return Some(found);
    }
    let word = row_word(offer);
    draft(row, place, offer_start(word), class, name);
    let found = steps::place::<Brand>(row, place, class, name, 1 + count, word);
    if found != 0 {
        return Some(found);
    }
    None
}

/// The name of an offer that stands in a known place.
pub(crate) fn spell(row: &Steps, place: &mut Place, word: u64) -> Spelled
    requires place { IsPlaceOf row.now.table_id place.old }
    requires there { (p : Name) × IsValid p × IsOfferOf place.old.me.0 word p }
    requires low { word ≤ offers_max }
    ensures place { IsPlaceOf row.now.table_id place.new }
    ensures same { IsSamePlace place.old place.new }
    ensures view { place.new.me.0 ≡ place.old.me.0 }
    ensures said { (p : Name) → IsValid p → IsOfferOf place.old.me.0 word p → said result ≡ p }
{
    let start = offer_start(word);
    let mut words = [0; OFFER_WORDS];
    for i in 0..OFFER_WORDS {
        words[i] = steps::spell(row, place, start + i);
    }
    decode(&words)
}
