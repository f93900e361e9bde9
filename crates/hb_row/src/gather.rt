//! The end of the row: the seats are put together, and the names are one list.

ghost use Rattle.std.specs.Prelude.{◌≡◌, ◌<◌, ◌≤◌, ◌+◌, ◌∷◌, List, ℕ, length, All, IfOk, OnOk};
ghost use Rattle.core.specs.Mem.Slots.{slots_items, slots_len, IsFull};
ghost use mathlib.Core.List.{IsPrefix};
ghost use Rattle.hb_names.specs.Names.{Name};
ghost use Rattle.hb_row.specs.Row.{words_max, offers_max, IsValid, joined};
ghost use Rattle.hb_row.specs.Seats.{IsHeadOf, IsSeatOf, seat_view, seat_caller, seat_made, HasAll, IsGathered, Tells};
ghost use Rattle.hb_row.specs.Spelling.{IsSpeltAt, said};
ghost use Rattle.hb_row.specs.declared.seat.NameSeat.{NameSeat};

use crate::row::NameRow;
use crate::seat::NameSeat;
use crate::spelling::{OFFER_WORDS, Spelled, decode};
use crate::tries::offer_start;
use crate::view::{Gathers, Place, Steps};
use atomic_table::Closed;
use hb_names::{NAMES_MAX, NameList, NameStore};
use std::alloc::{AllocError, Global};

// Puts another seat together with caller 0's place.
fn take_in(row: &Steps, place: &mut Place, other: NameSeat)
    requires place { IsHeadOf row.now.table_id place.old }
    requires other { IsSeatOf row.now.table_id other }
    ensures place { IsHeadOf row.now.table_id place.new }
    ensures joined { place.new.me.0 ≡ joined place.old.me.0 (seat_view other) }
{
    let NameSeat { place: gone, .. } = other;
    row.join_seat::<Gathers>(place, gone);
}

// The name of an offer, once nobody changes the words.
fn read_offer(words: &Closed<(), Global>, word: u64) -> Spelled
    requires full { IsFull words.now.words × (slots_len words.now.words ≡ words_max) }
    requires low { (0 < word) × (word ≤ offers_max) }
    requires there { (name : Name) × IsValid name × IsSpeltAt (slots_items words.now.words) word name }
    ensures { (name : Name) → IsValid name → IsSpeltAt (slots_items words.now.words) word name → said result ≡ name }
{
    let start = offer_start(word);
    let mut read = [0; OFFER_WORDS];
    for i in 0..OFFER_WORDS {
        read[i] = words.word(start + i);
    }
    decode(&read)
}

// Adds the names that stand in the row behind those of the store.
fn read_rest(words: &Closed<(), Global>, store: &mut NameStore) -> Result<(), AllocError>
    requires full { IsFull words.now.words × (slots_len words.now.words ≡ words_max) }
    requires row { (names : List Name) × Tells (slots_items words.now.words) names × IsPrefix store.old.names names }
    ensures { OnOk result ((names : List Name) → Tells (slots_items words.now.words) names → IsPrefix store.old.names names → store.new.names ≡ names) }
{
    let mut count = store.len();
    while count < NAMES_MAX {
        let word = words.word(1 + count);
        if word == 0 {
            return Ok(());
        }
        let spelled = read_offer(words, word);
        store.reserve()?;
        store.push(spelled.class, spelled.bytes.as_slice());
        count += 1;
    }
    Ok(())
}

impl NameRow {
    /// One list of all the names, with which the names of each seat begin. It takes the seats of all callers that were made.
    ///
    /// # Errors
    ///
    /// There is no memory for the names that caller 0 does not know.
    pub fn gather(self, first: NameSeat, mut others: Vec<NameSeat>) -> Result<NameList, AllocError>
        requires first { IsSeatOf self.table.shared.table_id first × (seat_caller first ≡ 0) }
        requires others { All (IsSeatOf self.table.shared.table_id) others.items }
        requires all { HasAll (seat_made first) (first ∷ others.items) }
        ensures { IfOk result (λ list. IsGathered (first ∷ others.items) list) }
    {
        let NameRow { table, .. } = self;
        let NameSeat {
            mut place,
            names,
            ..
        } = first;
        while let Some(other) = others.pop() {
            take_in(&table.shared, &mut place, other);
        }
        let words = table.close_with(place);
        let mut store = names.into_store();
        let read = read_rest(&words, &mut store);
        words.free();
        read?;
        Ok(store.into_list())
    }
}
