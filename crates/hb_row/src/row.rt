//! The row of names that callers in several threads share.

ghost use Rattle.std.specs.Prelude.{◌≡◌, ◌<◌, ◌≤◌, ◌+◌, ◌↔◌, [], ◌∷◌, ◌++◌, length, None, Some, IfOk, OnOk, OnErr, IfSome, IfNone, IsErrOf, slice_index, ℕ};
ghost use mathlib.Core.List.{IsPrefix};
ghost use Rattle.hb_names.specs.Names.{Name, place as place_of, with_name, Differ, IsFull};
ghost use Rattle.hb_row.specs.{Spelling.said, Known.AreNamed};
ghost use Rattle.hb_row.specs.Row.{words_max, callers_max, newcomer, forked, IsValid};
ghost use Rattle.hb_row.specs.Seats.{IsSeatOf, seat_view, seat_caller, seat_made, known_of, asked_by, Finds};

use crate::known::KnownNames;
use crate::seat::NameSeat;
use crate::spelling::{OFFER_WORDS, Spelled};
use crate::tries::{spell, try_place};
use crate::view::{Forks, Law, View};
use atomic_table::Table;
use hb_names::{NAME_BYTES_MAX, NAMES_MAX, NameFail};
use hb_types::ids::{ClassId, KeyId};
use std::alloc::{AllocError, Global};

/// How many callers share a row at most: the setup, and 16 scripts.
const CALLERS_MAX: usize = 17;

/// How many words a row has: word 0, which is not used, a word for each place, and the words of each offer. Each caller has an
/// offer from the start, and each place one, in which who takes the place spells the next name.
const WORDS_MAX: usize = 1 + NAMES_MAX + (CALLERS_MAX + NAMES_MAX) * OFFER_WORDS;

/// Names that callers in several threads share, one key for each. (docs/ARCHITECTURE.md, "The row of names")
#[derive(Drop)]
pub struct NameRow {
    pub(crate) table: Table<(), View, (), Law, Global>,
    alloc: Global,
    ghost wide: { (table.shared.table_id.words ≡ words_max) × (table.shared.table_id.slots ≡ 0) },
}

// So many words that are 0. No clause computes the list of them, which is long.
fn zeros(alloc: Global, count: usize) -> Result<Vec<u64>, AllocError>
    ensures count { IfOk result (λ v. length v.items ≡ count) }
    ensures zero { IfOk result (λ v. (k : ℕ) → slice_index v.items k ≡ 0) }
{
    let zeros = vec![in alloc; 0u64; count]?;
    Ok(zeros)
}

impl NameRow {
    /// A row without names, and the seat of the setup, which is caller 0's.
    ///
    /// # Errors
    ///
    /// There is no memory.
    pub fn make(alloc: Global) -> Result<(NameRow, NameSeat), AllocError>
        ensures seat { IfOk result (λ r. IsSeatOf r.0.table.shared.table_id r.1) }
        ensures view { IfOk result (λ r. seat_view r.1 ≡ newcomer 0 1) }
        ensures known { IfOk result (λ r. known_of r.1 ≡ []) }
        ensures asked { IfOk result (λ r. asked_by r.1 ≡ []) }
    {
        let zeros = zeros(alloc, WORDS_MAX)?;
        let (table, place) = Table::of_words(alloc, zeros.as_slice(), &())?;
        let seat = NameSeat {
            caller: 0,
            made: 1,
            offer: 0,
            place,
            names: KnownNames::new(alloc),
        };
        Ok((NameRow { table, alloc }, seat))
    }

    /// The seat of the next caller, which knows no name yet. Caller 0's seat makes it.
    pub fn fork(&self, first: &mut NameSeat) -> NameSeat
        requires seat { IsSeatOf self.now.table.shared.table_id first.old }
        requires first { seat_caller first.old ≡ 0 }
        requires room { seat_made first.old < callers_max }
        ensures seat { IsSeatOf self.now.table.shared.table_id first.new }
        ensures view { seat_view first.new ≡ forked (seat_view first.old) }
        ensures known { known_of first.new ≡ known_of first.old }
        ensures asked { asked_by first.new ≡ asked_by first.old }
        ensures new_seat { IsSeatOf self.now.table.shared.table_id result }
        ensures new_view { seat_view result ≡ newcomer (seat_made first.old) 0 }
        ensures new_known { known_of result ≡ [] }
        ensures new_asked { asked_by result ≡ [] }
    {
        let NameSeat { made, place, .. } = first;
        let next = self.table.shared.split_seat::<Forks>(place);
        let caller = *made;
        *made = caller + 1;
        NameSeat {
            caller,
            made: 0,
            offer: caller as u16,
            place: next,
            names: KnownNames::new(self.alloc),
        }
    }

    /// The key of a name, which goes last in the row where it is new.
    pub(crate) fn key(
        &self,
        seat: &mut NameSeat,
        class: ClassId,
        name: &[u8],
    ) -> Result<KeyId, NameFail>
        requires seat { IsSeatOf self.now.table.shared.table_id seat.old }
        requires some { 0 < length name.now }
        requires short { length name.now ≤ NAME_BYTES_MAX }
        ensures seat { IsSeatOf self.now.table.shared.table_id seat.new }
        ensures caller { (seat.new.caller ≡ seat.old.caller) × (seat.new.made ≡ seat.old.made) }
        ensures kept { IsPrefix (known_of seat.old) (known_of seat.new) }
        ensures differ { Differ (known_of seat.new) }
        ensures few { length (known_of seat.new) ≤ NAMES_MAX }
        ensures key { IfOk result (λ key. place_of (known_of seat.new) (class.0, name.now) ≡ Some key.0) }
        ensures asked { OnOk result (asked_by seat.new ≡ with_name (asked_by seat.old) (class.0, name.now)) }
        ensures full { IsErrOf result NameFail.Full ↔ IsFull (known_of seat.new) (class.0, name.now) }
        ensures unknown { OnErr result (place_of (known_of seat.new) (class.0, name.now) ≡ None) }
        ensures unasked { OnErr result (asked_by seat.new ≡ asked_by seat.old) }
    {
        if let Some(key) = seat.names.find(class, name) {
            seat.names.mark(key);
            return Ok(key);
        }
        self.search(seat, class, name)
    }

    // Goes through the row from the first unknown place. Each place is tried once.
    #[inline(never)]
    fn search(&self, seat: &mut NameSeat, class: ClassId, name: &[u8]) -> Result<KeyId, NameFail>
        requires seat { IsSeatOf self.now.table.shared.table_id seat.old }
        requires valid { IsValid (class.0, name.now) }
        requires unknown { place_of (known_of seat.old) (class.0, name.now) ≡ None }
        ensures seat { IsSeatOf self.now.table.shared.table_id seat.new }
        ensures caller { (seat.new.caller ≡ seat.old.caller) × (seat.new.made ≡ seat.old.made) }
        ensures kept { IsPrefix (known_of seat.old) (known_of seat.new) }
        ensures differ { Differ (known_of seat.new) }
        ensures few { length (known_of seat.new) ≤ NAMES_MAX }
        ensures key { IfOk result (λ key. place_of (known_of seat.new) (class.0, name.now) ≡ Some key.0) }
        ensures asked { OnOk result (asked_by seat.new ≡ with_name (asked_by seat.old) (class.0, name.now)) }
        ensures full { IsErrOf result NameFail.Full ↔ IsFull (known_of seat.new) (class.0, name.now) }
        ensures unknown { OnErr result (place_of (known_of seat.new) (class.0, name.now) ≡ None) }
        ensures unasked { OnErr result (asked_by seat.new ≡ asked_by seat.old) }
    {
        loop {
            let found = self.advance(seat, class, name);
            // What it ensures of the names is what is ensured here.
            let _count = seat.names.len();
            match found {
                Ok(Some(key)) => return Ok(key),
                Ok(None) => {}
                Err(fail) => return Err(fail),
            }
        }
    }

    // Learns or takes one more place of the row. What it answers is the name's key, where the name is known then.
    fn advance(
        &self,
        seat: &mut NameSeat,
        class: ClassId,
        name: &[u8],
    ) -> Result<Option<KeyId>, NameFail>
        requires seat { IsSeatOf self.now.table.shared.table_id seat.old }
        requires valid { IsValid (class.0, name.now) }
        requires unknown { place_of (known_of seat.old) (class.0, name.now) ≡ None }
        ensures seat { IsSeatOf self.now.table.shared.table_id seat.new }
        ensures caller { (seat.new.caller ≡ seat.old.caller) × (seat.new.made ≡ seat.old.made) }
        ensures kept { IsPrefix (known_of seat.old) (known_of seat.new) }
        ensures more { OnOk result (length (known_of seat.new) ≡ length (known_of seat.old) + 1) }
        ensures finds { IfOk result (Finds (class.0, name.now) seat.old seat.new) }
        ensures full { IsErrOf result NameFail.Full ↔ (length (known_of seat.old) ≡ NAMES_MAX) }
        ensures err { OnErr result ((known_of seat.new ≡ known_of seat.old) × (asked_by seat.new ≡ asked_by seat.old)) }
    {
        let count = seat.names.len();
        if count == NAMES_MAX {
            return Err(NameFail::Full);
        }
        if seat.names.reserve().is_err() {
            return Err(NameFail::NoMemory);
        }
        let row = &self.table.shared;
        match try_place(row, &mut seat.place, seat.offer, count, class, name) {
            None => {
                seat.offer = (CALLERS_MAX + count) as u16;
                let key = seat.names.push(class, name);
                seat.names.mark(key);
                Ok(Some(key))
            }
            Some(word) => {
                let spelled = spell(row, &mut seat.place, word);
                Ok(learn(&mut seat.names, &spelled, class, name))
            }
        }
    }
}

// Notes a name that was read, which may be the one that is asked for.
fn learn(names: &mut KnownNames, spelled: &Spelled, class: ClassId, name: &[u8]) -> Option<KeyId>
    requires new { place_of names.old.known (said spelled.now) ≡ None }
    requires unknown { place_of names.old.known (class.0, name.now) ≡ None }
    requires spare { 0 < names.old.spare }
    requires few { length names.old.known < NAMES_MAX }
    ensures known { names.new.known ≡ names.old.known ++ said spelled.now ∷ [] }
    ensures kept { IsPrefix names.old.asked names.new.asked }
    ensures answers { AreNamed names.new.asked names.new.known }
    ensures found { IfSome result (λ key. (place_of names.new.known (class.0, name.now) ≡ Some key.0) × (names.new.asked ≡ with_name names.old.asked (class.0, name.now))) }
    ensures other { IfNone result ((place_of names.new.known (class.0, name.now) ≡ None) × (names.new.asked ≡ names.old.asked)) }
{
    let key = names.push(spelled.class, spelled.bytes.as_slice());
    if spelled.is(class, name) {
        names.mark(key);
        return Some(key);
    }
    None
}
