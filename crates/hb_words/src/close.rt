//! The end of the words: the seats are put together.

ghost use Rattle.std.specs.Prelude.{◌≡◌, ◌<◌, ◌∷◌, map, All};
ghost use Rattle.hb_tables.specs.History.{spot};
ghost use Rattle.hb_words.specs.Layout.{type_word, def_word};
ghost use Rattle.hb_words.specs.Words.{IsSeatOf, IsPlaceOf, Covers, IsWhole, joined};
ghost use Rattle.hb_words.specs.Seats.{IsSeatAt, view_of, seat_front, seat_caller, history};
ghost use Rattle.hb_words.specs.declared.words.WordSeat.{WordSeat};

use crate::closed::Closed;
use crate::layout::{def_index, type_index};
use crate::view::{Gathers, Place, Remembers, Steps};
use crate::words::{MethodWords, WordSeat};
use hb_names::NAMES_MAX;
use hb_types::ids::KeyId;

impl Closed {
    /// The type word of a key.
    pub fn type_word(&self, key: KeyId) -> u64
        requires { key.0 < NAMES_MAX }
        ensures { result ≡ type_word (spot key.0 (history self.now)) }
    {
        self.words.word(type_index(key))
    }

    /// The def word of a key.
    pub fn def_word(&self, key: KeyId) -> u64
        requires { key.0 < NAMES_MAX }
        ensures { result ≡ def_word (spot key.0 (history self.now)) }
    {
        self.words.word(def_index(key))
    }
}

// Takes one more seat in.
fn take_in(words: &Steps, place: &mut Place, other: WordSeat)
    requires place { IsPlaceOf words.now.table_id words.now.key place.old }
    requires other { IsSeatOf words.now.table_id words.now.key other.place }
    ensures place { IsPlaceOf words.now.table_id words.now.key place.new }
    ensures joined { place.new.me.0 ≡ joined place.old.me.0 other.place.me.0 }
{
    let WordSeat { place: gone, .. } = other;
    words.join_seat::<Gathers>(place, gone);
}

impl MethodWords {
    /// Puts all seats together, so that no thread changes the words any more.
    pub fn close(self, first: WordSeat, mut others: Vec<WordSeat>) -> Closed
        requires first { IsSeatAt self first × ((view_of first).caller ≡ 0) }
        requires others { All (λ (o : WordSeat). IsSeatAt self o) others.items }
        requires all { Covers (view_of first) (map seat_caller others.items) }
        ensures { IsWhole (history result) (view_of first).limit (view_of first).made (seat_front first ∷ map seat_front others.items) }
    {
        let MethodWords { table, .. } = self;
        let WordSeat { mut place, .. } = first;
        while let Some(other) = others.pop() {
            take_in(&table.shared, &mut place, other);
        }
        let memory = table.shared.split_seat::<Remembers>(&mut place);
        Closed {
            words: table.close_with(place),
            memory,
        }
    }
}
