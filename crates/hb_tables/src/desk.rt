//! One caller's door to the tables.

ghost use Rattle.std.specs.Prelude.{◌≡◌, ◌+◌, ◌<◌, ◌≤◌, ℕ, List, length, IfOk};
ghost use mathlib.Core.List.{IsPrefix};
ghost use Rattle.hb_tables.specs.declared.entry.Entry.{Entry};
ghost use Rattle.hb_tables.specs.declared.entry.Act.TheVariants.{Hold, Free};
ghost use Rattle.hb_tables.specs.History.{spot, times, of_caller, IsLegal, Adds, Learns};
ghost use Rattle.hb_tables.specs.Answers.{Fixed, TypeAdds, IsLookAt, DefAdds, Decides};

use crate::entry::{ArgKinds, BODIES_MAX, HOLDS_MAX, Verdict};
use hb_names::NAMES_MAX;
use hb_tree::limits::TYPES_MAX;
use hb_types::ids::{BodySite, CallNo, CallerId, KeyId, TypeSite};
use std::alloc::{AllocError, Global};

/// What a hold found: the type, and how often it was changed.
#[derive(Clone, Copy, Debug, PartialEq, Eq)]
pub struct Held {
    pub ty: Option<TypeSite>,
    pub changes: u32,
}

/// What became of a type to be set.
#[derive(Clone, Copy, Debug, PartialEq, Eq)]
pub enum TypeAnswer {
    Done,
    /// So many calls hold the key, and its type is as before.
    Busy { pins: u32 },
    /// The type was changed as often as may be, and is as before.
    Worn,
}

/// What a look found: the definition, and how often it was changed.
#[derive(Clone, Copy, Debug, PartialEq, Eq)]
pub struct Look {
    pub site: Option<BodySite>,
    pub changes: u32,
}

/// What became of a definition to be set.
#[derive(Clone, Copy, Debug, PartialEq, Eq)]
pub enum DefAnswer {
    Done,
    /// The definition was changed as often as may be, and is as before.
    Worn,
}

/// One caller's door to the tables. A call that has an entry adds just this entry to what its caller knows, at its own
/// place in one legal history; a call that has none may learn entries of others. Each answer is true at that place.
pub trait Desk {
    /// The entries that the caller knows.
    ghost front: { Self → List Entry };

    /// The caller's number, the limit of changes, and what the desk was made with.
    ghost fixed: { Self → Fixed };

    /// For how many entries there is room.
    ghost spare: { Self → ℕ };

    /// Whose door this is.
    fn caller(&self) -> CallerId
        ensures { result.0 ≡ (fixed self.now).caller };

    /// Makes room for `n` entries.
    fn reserve(&mut self, alloc: Global, n: u32) -> Result<(), AllocError>
        ensures front { front self.new ≡ front self.old }
        ensures fixed { fixed self.new ≡ fixed self.old }
        ensures spare { IfOk result (λ _. n ≤ spare self.new) }
        ensures kept { spare self.old ≤ spare self.new };

    /// The call holds the key from here on. It takes the room of its `free` too.
    fn hold(&mut self, q: CallNo, key: KeyId) -> Held
        requires key { key.0 < NAMES_MAX }
        requires free { times ((fixed self.old).caller, q.0) (spot key.0 (front self.old)).calls ≡ 0 }
        requires few { length (of_caller (fixed self.old).caller (spot key.0 (front self.old)).calls) < HOLDS_MAX }
        requires spare { 2 ≤ spare self.old }
        ensures entry { Adds (fixed self.old).caller (front self.old) (front self.new) (Hold key q result.ty result.changes) }
        ensures legal { IsLegal (fixed self.old).limit (front self.new) }
        ensures fixed { fixed self.new ≡ fixed self.old }
        ensures spare { spare self.old ≤ spare self.new + 2 };

    /// The call holds the key no longer.
    fn free(&mut self, q: CallNo, key: KeyId)
        requires key { key.0 < NAMES_MAX }
        requires held { times ((fixed self.old).caller, q.0) (spot key.0 (front self.old)).calls ≡ 1 }
        ensures entry { Adds (fixed self.old).caller (front self.old) (front self.new) (Free key q) }
        ensures legal { IsLegal (fixed self.old).limit (front self.new) }
        ensures fixed { fixed self.new ≡ fixed self.old }
        ensures spare { spare self.old ≤ spare self.new };

    /// Gives the key a type, where no call holds it and its type may be changed once more.
    fn set_type(&mut self, key: KeyId, site: TypeSite) -> TypeAnswer
        requires key { key.0 < NAMES_MAX }
        requires site { site.0 < TYPES_MAX }
        requires spare { 1 ≤ spare self.old }
        ensures entry { TypeAdds (fixed self.old).caller (front self.old) (front self.new) key site result }
        ensures legal { IsLegal (fixed self.old).limit (front self.new) }
        ensures fixed { fixed self.new ≡ fixed self.old }
        ensures spare { spare self.old ≤ spare self.new + 1 };

    /// The definition of the key as it is now.
    fn look(&mut self, key: KeyId) -> Look
        requires key { key.0 < NAMES_MAX }
        ensures seen { Learns (fixed self.old).caller (front self.old) (front self.new) × IsLookAt key.0 result (front self.new) }
        ensures legal { IsLegal (fixed self.old).limit (front self.new) }
        ensures fixed { fixed self.new ≡ fixed self.old }
        ensures spare { spare self.old ≤ spare self.new };

    /// Gives the key a definition, where it may be changed once more.
    fn set_def(&mut self, key: KeyId, site: BodySite) -> DefAnswer
        requires key { key.0 < NAMES_MAX }
        requires site { site.0 < BODIES_MAX }
        requires spare { 1 ≤ spare self.old }
        ensures entry { DefAdds (fixed self.old).caller (front self.old) (front self.new) key site result }
        ensures legal { IsLegal (fixed self.old).limit (front self.new) }
        ensures fixed { fixed self.new ≡ fixed self.old }
        ensures spare { spare self.old ≤ spare self.new + 1 };

    /// Decides the call where the definition of the owner is still that of the look, and else answers the newer one. The verdict is written down as it is.
    fn decide(
        &mut self,
        q: CallNo,
        key: KeyId,
        owner: KeyId,
        look: Look,
        args: ArgKinds,
        verdict: Verdict,
    ) -> Result<(), Look>
        requires key { key.0 < NAMES_MAX }
        requires owner { owner.0 < NAMES_MAX }
        requires held { times ((fixed self.old).caller, q.0) (spot key.0 (front self.old)).calls ≡ 1 }
        requires owned { times ((fixed self.old).caller, q.0) (spot owner.0 (front self.old)).calls ≡ 1 }
        requires look { (before : List Entry) × IsPrefix before (front self.old) × IsLookAt owner.0 look before }
        requires spare { 1 ≤ spare self.old }
        ensures answer { Decides (fixed self.old).caller (front self.old) (front self.new) q key owner look args verdict result }
        ensures legal { IsLegal (fixed self.old).limit (front self.new) }
        ensures fixed { fixed self.new ≡ fixed self.old }
        ensures spare { spare self.old ≤ spare self.new + 1 };
}
