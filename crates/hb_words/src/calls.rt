//! What a caller's calls do at the words: each is one step. (docs/ARCHITECTURE.md, "Tables without a lock")

ghost use Rattle.std.specs.Prelude.{◌≡◌, ◌<◌, List, length};
ghost use mathlib.Core.List.{IsPrefix};
ghost use Rattle.hb_tables.specs.declared.entry.Entry.{Entry};
ghost use Rattle.hb_tables.specs.declared.entry.Act.TheVariants.{Hold, Free};
ghost use Rattle.hb_tables.specs.History.{spot, times, of_caller, IsLegal};
ghost use Rattle.hb_tables.specs.Answers.{IsLookAt, Decides};
ghost use Rattle.hb_words.specs.Seats.{IsSeatAt, view_of};
ghost use Rattle.hb_words.specs.Words.{Extends, Looks, seeing};

use crate::layout::{held_of, look_of};
use crate::steps;
use crate::words::{MethodWords, WordSeat};
use hb_names::NAMES_MAX;
use hb_tables::desk::{Held, Look};
use hb_tables::entry::{ArgKinds, HOLDS_MAX, Verdict};
use hb_types::ids::{CallNo, KeyId};
use std::marker::Brand;

impl MethodWords {
    /// The call holds the key from here on.
    pub fn hold(&self, seat: &mut WordSeat, q: CallNo, key: KeyId) -> Held
        requires seat { IsSeatAt self.now seat.old }
        requires key { key.0 < NAMES_MAX }
        requires free { times ((view_of seat.old).caller, q.0) (spot key.0 (view_of seat.old).seen).calls ≡ 0 }
        requires few { length (of_caller (view_of seat.old).caller (spot key.0 (view_of seat.old).seen).calls) < HOLDS_MAX }
        ensures seat { IsSeatAt self.now seat.new }
        ensures entry { Extends (view_of seat.old) (Hold key q result.ty result.changes) (view_of seat.new) }
    {
        let found = steps::hold::<Brand>(&self.table.shared, &mut seat.place, q, key);
        held_of(found)
    }

    /// The call holds the key no longer.
    pub fn free(&self, seat: &mut WordSeat, q: CallNo, key: KeyId)
        requires seat { IsSeatAt self.now seat.old }
        requires key { key.0 < NAMES_MAX }
        requires held { times ((view_of seat.old).caller, q.0) (spot key.0 (view_of seat.old).seen).calls ≡ 1 }
        ensures seat { IsSeatAt self.now seat.new }
        ensures entry { Extends (view_of seat.old) (Free key q) (view_of seat.new) }
    {
        steps::free::<Brand>(&self.table.shared, &mut seat.place, q, key);
    }

    /// The definition of the key as it is now.
    pub fn look(&self, seat: &mut WordSeat, key: KeyId) -> Look
        requires seat { IsSeatAt self.now seat.old }
        requires key { key.0 < NAMES_MAX }
        ensures seat { IsSeatAt self.now seat.new }
        ensures looks { Looks (view_of seat.old) (view_of seat.new) }
        ensures look { IsLookAt key.0 result (view_of seat.new).seen }
    {
        let found = steps::look_at_def::<Brand>(&self.table.shared, &mut seat.place, key);
        look_of(found)
    }

    /// Decides the call where the definition of the owner is still that of the look, and else answers the newer one.
    pub fn decide(
        &self,
        seat: &mut WordSeat,
        q: CallNo,
        key: KeyId,
        owner: KeyId,
        look: Look,
        args: ArgKinds,
        verdict: Verdict,
    ) -> Result<(), Look>
        requires seat { IsSeatAt self.now seat.old }
        requires key { owner.0 < NAMES_MAX }
        requires look { (before : List Entry) × IsPrefix before (view_of seat.old).seen × IsLookAt owner.0 look before }
        ensures seat { IsSeatAt self.now seat.new }
        ensures same { view_of seat.new ≡ seeing (view_of seat.old) (view_of seat.new).seen }
        ensures answer { Decides (view_of seat.old).caller (view_of seat.old).seen (view_of seat.new).seen q key owner look args verdict result }
        ensures legal { IsLegal (view_of seat.old).limit (view_of seat.new).seen }
    {
        let found = steps::decide::<Brand>(
            &self.table.shared,
            &mut seat.place,
            q,
            key,
            owner,
            look,
            args,
            verdict,
        );
        let newer = look_of(found);
        if newer.changes == look.changes {
            Ok(())
        } else {
            Err(newer)
        }
    }
}
