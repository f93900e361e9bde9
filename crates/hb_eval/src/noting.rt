//! A door that notes what comes through it.

ghost use Rattle.std.specs.Prelude.{◌≡◌, ℕ, ◌∷◌, [], ◌++◌, List, false};
ghost use Rattle.hb_types.specs.declared.ids.CallerId.{CallerId};
ghost use Rattle.hb_tables.specs.declared.entry.Entry.{Entry};
ghost use Rattle.hb_tables.specs.Answers.{DefAdds, TypeAdds};
ghost use Rattle.hb_tables.specs.Frames.{acts};
ghost use Rattle.hb_tables.specs.History.{Adds};
ghost use Rattle.std.proofs.Props.{props};
ghost use Rattle.hb_eval.specs.Noting.{HasNoted};

use hb_tables::desk::{DefAnswer, Desk, Held, Look, TypeAnswer};
use hb_tables::entry::{Act, ArgKinds, Entry, Verdict};
use hb_types::ids::{BodySite, CallNo, CallerId, KeyId, TypeSite};
use std::alloc::{AllocError, Global};
use std::marker::{Brand, PhantomData};

/// Whose entries are noted, and which it had when that began. Proofs alone see it.
pub(crate) trait Begun {
    ghost caller: { CallerId };

    ghost before: { List Entry };
}

impl Begun for Brand {
    ghost caller = { record { 0 = 0 } };

    ghost before = { [] };
}

/// A door that is lent.
#[derive(Drop)]
pub struct Lent<'a, D: Desk> {
    pub desk: &'a mut D,
}

/// A door, and notes of what its caller does through it.
#[derive(Drop)]
pub(crate) struct Noting<D: Desk, B: Begun> {
    pub(crate) desk: D,
    pub(crate) caller: CallerId,
    pub(crate) notes: Vec<Entry>,
    /// There was no memory for a note.
    pub(crate) missed: bool,
    pub(crate) begun: PhantomData<B>,
    ghost whose: { caller ≡ B.caller } by { Prim.hlevel props },
    ghost noted: { HasNoted caller (acts (D.fixed desk).caller (D.front desk)) B.before notes.items missed } by { Prim.hlevel props },
}

// Notes an act, or that there was no memory for it.
fn note(notes: &mut Vec<Entry>, missed: &mut bool, caller: CallerId, act: Act)
    ensures { missed.new ≡ false → (missed.old ≡ false) × (notes.new.items ≡ notes.old.items ++ record { caller = caller; act = act } ∷ []) }
{
    if notes.push(Entry { caller, act }).is_err() {
        *missed = true;
    }
}

// The act of an answer to a type that is to be set.
fn act_of_type(key: KeyId, site: TypeSite, answer: TypeAnswer) -> Act
    ensures { (c : ℕ) (old new : List Entry) → TypeAdds c old new key site answer → Adds c old new result }
{
    match answer {
        TypeAnswer::Done => Act::Retype { key, site },
        TypeAnswer::Busy { pins } => Act::Busy { key, pins },
        TypeAnswer::Worn => Act::WornType { key },
    }
}

// The act of an answer to a definition that is to be set.
fn act_of_def(key: KeyId, site: BodySite, answer: DefAnswer) -> Act
    ensures { (c : ℕ) (old new : List Entry) → DefAdds c old new key site answer → Adds c old new result }
{
    match answer {
        DefAnswer::Done => Act::Define { key, site },
        DefAnswer::Worn => Act::WornDef { key },
    }
}

impl<D: Desk> Desk for Lent<'_, D> {
    ghost use Rattle.std.specs.Prelude.{◌∷◌};

    ghost front = { λ d. D.front d.desk.now };

    ghost fixed = { λ d. record { caller = (D.fixed d.desk.now).caller; limit = (D.fixed d.desk.now).limit; made_with = d.desk.ghost_name ∷ (D.fixed d.desk.now).made_with } };

    ghost spare = { λ d. D.spare d.desk.now };

    fn caller(&self) -> CallerId {
        self.desk.caller()
    }

    fn reserve(&mut self, alloc: Global, n: u32) -> Result<(), AllocError> {
        self.desk.reserve(alloc, n)
    }

    fn hold(&mut self, q: CallNo, key: KeyId) -> Held {
        self.desk.hold(q, key)
    }

    fn free(&mut self, q: CallNo, key: KeyId) {
        self.desk.free(q, key)
    }

    fn set_type(&mut self, key: KeyId, site: TypeSite) -> TypeAnswer {
        self.desk.set_type(key, site)
    }

    fn look(&mut self, key: KeyId) -> Look {
        self.desk.look(key)
    }

    fn set_def(&mut self, key: KeyId, site: BodySite) -> DefAnswer {
        self.desk.set_def(key, site)
    }

    fn decide(
        &mut self,
        q: CallNo,
        key: KeyId,
        owner: KeyId,
        look: Look,
        args: ArgKinds,
        verdict: Verdict,
    ) -> Result<(), Look> {
        self.desk.decide(q, key, owner, look, args, verdict)
    }
}

impl<D: Desk, B: Begun> Desk for Noting<D, B> {
    ghost front = { λ d. D.front d.desk };

    ghost fixed = { λ d. D.fixed d.desk };

    ghost spare = { λ d. D.spare d.desk };

    fn caller(&self) -> CallerId {
        self.desk.caller()
    }

    fn reserve(&mut self, alloc: Global, n: u32) -> Result<(), AllocError> {
        self.desk.reserve(alloc, n)
    }

    fn hold(&mut self, q: CallNo, key: KeyId) -> Held {
        let held = self.desk.hold(q, key);
        let act = Act::Hold {
            key,
            q,
            ty: held.ty,
            changes: held.changes,
        };
        note(&mut self.notes, &mut self.missed, self.caller, act);
        held
    }

    fn free(&mut self, q: CallNo, key: KeyId) {
        self.desk.free(q, key);
        note(
            &mut self.notes,
            &mut self.missed,
            self.caller,
            Act::Free { key, q },
        );
    }

    fn set_type(&mut self, key: KeyId, site: TypeSite) -> TypeAnswer {
        let answer = self.desk.set_type(key, site);
        let act = act_of_type(key, site, answer);
        note(&mut self.notes, &mut self.missed, self.caller, act);
        answer
    }

    fn look(&mut self, key: KeyId) -> Look {
        self.desk.look(key)
    }

    fn set_def(&mut self, key: KeyId, site: BodySite) -> DefAnswer {
        let answer = self.desk.set_def(key, site);
        let act = act_of_def(key, site, answer);
        note(&mut self.notes, &mut self.missed, self.caller, act);
        answer
    }

    fn decide(
        &mut self,
        q: CallNo,
        key: KeyId,
        owner: KeyId,
        look: Look,
        args: ArgKinds,
        verdict: Verdict,
    ) -> Result<(), Look> {
        match self.desk.decide(q, key, owner, look, args, verdict) {
            Ok(()) => {
                let act = Act::Call {
                    key,
                    q,
                    site: look.site,
                    args,
                    verdict,
                };
                note(&mut self.notes, &mut self.missed, self.caller, act);
                Ok(())
            }
            Err(newer) => Err(newer),
        }
    }
}
