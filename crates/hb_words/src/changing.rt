//! Changes of types and definitions. Each is tried until no other change came between. (docs/ARCHITECTURE.md, "Tables without a lock")

ghost use Rattle.std.specs.Prelude.{◌≡◌, ◌<◌};
ghost use Rattle.hb_words.specs.Layout.{pins_in, changes_in, redefs_in};
ghost use Rattle.hb_words.specs.Seats.{IsSeatAt, view_of};
ghost use Rattle.hb_words.specs.Tries.{TypeTells, TypeTries, TypeSays, DefTells, DefTries, DefSays, IsOther};

use crate::layout::{changes_of, pins_of, redefined, redefs_of, retyped};
use crate::steps;
use crate::words::{MethodWords, WordSeat};
use hb_names::NAMES_MAX;
use hb_tables::desk::{DefAnswer, TypeAnswer};
use hb_tables::entry::BODIES_MAX;
use hb_tree::limits::TYPES_MAX;
use hb_types::ids::{BodySite, KeyId, TypeSite};
use std::marker::Brand;

// The answer to a change, or the word at which to try again.
enum Tried<A> {
    Answer(A),
    Again(u64),
}

impl MethodWords {
    // What a type word says to a change that is not made at it.
    fn read_type(&self, word: u64) -> Tried<TypeAnswer>
        ensures { TypeSays self.now.versions word result }
    {
        let pins = pins_of(word);
        if pins > 0 {
            Tried::Answer(TypeAnswer::Busy { pins })
        } else if changes_of(word) == self.versions {
            Tried::Answer(TypeAnswer::Worn)
        } else {
            Tried::Again(word)
        }
    }

    fn look_at_type(&self, seat: &mut WordSeat, key: KeyId, site: TypeSite) -> Tried<TypeAnswer>
        requires seat { IsSeatAt self.now seat.old }
        requires key { key.0 < NAMES_MAX }
        ensures seat { IsSeatAt self.now seat.new }
        ensures tells { TypeTries (view_of seat.old) key site (view_of seat.new) result }
    {
        let found = steps::look_at_type::<Brand>(&self.table.shared, &mut seat.place, key);
        self.read_type(found)
    }

    // Changes the type where its word is still the one that was looked at.
    fn try_type(
        &self,
        seat: &mut WordSeat,
        key: KeyId,
        site: TypeSite,
        old: u64,
    ) -> Tried<TypeAnswer>
        requires seat { IsSeatAt self.now seat.old }
        requires key { key.0 < NAMES_MAX }
        requires site { site.0 < TYPES_MAX }
        requires old { (pins_in old ≡ 0) × (changes_in old < (view_of seat.old).limit) }
        ensures seat { IsSeatAt self.now seat.new }
        ensures tells { TypeTries (view_of seat.old) key site (view_of seat.new) result }
        ensures other { IsOther old result }
    {
        let new = retyped(site, old);
        let found = steps::retype::<Brand>(
            &self.table.shared,
            &mut seat.place,
            key,
            site,
            old,
            new,
        );
        if found == old {
            Tried::Answer(TypeAnswer::Done)
        } else {
            self.read_type(found)
        }
    }

    /// Gives the key a type, where no call holds it and its type may be changed once more.
    pub fn set_type(&self, seat: &mut WordSeat, key: KeyId, site: TypeSite) -> TypeAnswer
        requires seat { IsSeatAt self.now seat.old }
        requires key { key.0 < NAMES_MAX }
        requires site { site.0 < TYPES_MAX }
        ensures seat { IsSeatAt self.now seat.new }
        ensures tells { TypeTells (view_of seat.old) key site (view_of seat.new) result }
    {
        let mut found = match self.look_at_type(seat, key, site) {
            Tried::Answer(answer) => return answer,
            Tried::Again(word) => word,
        };
        loop {
            match self.try_type(seat, key, site, found) {
                Tried::Answer(answer) => return answer,
                Tried::Again(word) => found = word,
            }
        }
    }

    // What a def word says to a change that is not made at it.
    fn read_def(&self, word: u64) -> Tried<DefAnswer>
        ensures { DefSays self.now.versions word result }
    {
        if redefs_of(word) == self.versions {
            Tried::Answer(DefAnswer::Worn)
        } else {
            Tried::Again(word)
        }
    }

    fn look_for_def(&self, seat: &mut WordSeat, key: KeyId, site: BodySite) -> Tried<DefAnswer>
        requires seat { IsSeatAt self.now seat.old }
        requires key { key.0 < NAMES_MAX }
        ensures seat { IsSeatAt self.now seat.new }
        ensures tells { DefTries (view_of seat.old) key site (view_of seat.new) result }
    {
        let found = steps::try_def::<Brand>(&self.table.shared, &mut seat.place, key);
        self.read_def(found)
    }

    // Changes the definition where its word is still the one that was looked at.
    fn try_def(&self, seat: &mut WordSeat, key: KeyId, site: BodySite, old: u64) -> Tried<DefAnswer>
        requires seat { IsSeatAt self.now seat.old }
        requires key { key.0 < NAMES_MAX }
        requires site { site.0 < BODIES_MAX }
        requires old { redefs_in old < (view_of seat.old).limit }
        ensures seat { IsSeatAt self.now seat.new }
        ensures tells { DefTries (view_of seat.old) key site (view_of seat.new) result }
        ensures other { IsOther old result }
    {
        let new = redefined(site, old);
        let found = steps::redefine::<Brand>(
            &self.table.shared,
            &mut seat.place,
            key,
            site,
            old,
            new,
        );
        if found == old {
            Tried::Answer(DefAnswer::Done)
        } else {
            self.read_def(found)
        }
    }

    /// Gives the key a definition, where it may be changed once more.
    pub fn set_def(&self, seat: &mut WordSeat, key: KeyId, site: BodySite) -> DefAnswer
        requires seat { IsSeatAt self.now seat.old }
        requires key { key.0 < NAMES_MAX }
        requires site { site.0 < BODIES_MAX }
        ensures seat { IsSeatAt self.now seat.new }
        ensures tells { DefTells (view_of seat.old) key site (view_of seat.new) result }
    {
        let mut found = match self.look_for_def(seat, key, site) {
            Tried::Answer(answer) => return answer,
            Tried::Again(word) => word,
        };
        loop {
            match self.try_def(seat, key, site, found) {
                Tried::Answer(answer) => return answer,
                Tried::Again(word) => found = word,
            }
        }
    }
}
