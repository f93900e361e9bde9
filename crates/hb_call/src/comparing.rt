//! The comparison of a call with the check that is kept, and the check of its body.

ghost use Rattle.std.specs.Prelude.{◌≡◌, ◌<◌, ◌≤◌, ℕ, take, List, [], ◌∷◌, ◌++◌, length, None, Some, slice_get, Ok, true, false, IfErr, IfOk, OnOk};
ghost use Rattle.hb_tree.specs.Program.{IsProgram};
ghost use Rattle.hb_names.specs.Names.{place};
ghost use Rattle.hb_cache.specs.Kept.{kept_at};
ghost use Rattle.hb_tables.specs.declared.entry.Act.TheVariants.{Hold};
ghost use Rattle.hb_tables.specs.History.{Adds, IsLegal, spot, times};
ghost use Rattle.hb_call.specs.Calling.{FitsSince, HasBody, IsCalling, IsLive, IsSame};
ghost use Rattle.hb_call.specs.Comparing.{HasCompared, HasDiffered, HasEnded, MarksKept, TakesArgs, answers_differing, answers_kept};
ghost use Rattle.hb_call.specs.Entering.{IsFullFor, IsRightlyFor};
ghost use Rattle.hb_call.specs.OwnCache.{IsTrueCheck};
ghost use Rattle.hb_call.specs.Seen.{GoesOn, IsHolding, IsRuledNow, IsUnderWay, KeepsOwn, given_of, moment_of};

use crate::answers::Answer;
use crate::call::Call;
use crate::frame::CallFail;
use crate::ruling::{Ruling, told};
use hb_cache::Kept;
use hb_check::check;
use hb_names::{NAMES_MAX, Names};
use hb_tables::desk::{Desk, Held};
use hb_types::ids::{BodySite, KeyId, TypeSite};
use std::alloc::{AllocError, Global};

impl<D: Desk, N: Names> Call<'_, '_, '_, '_, D, N> {
    /// Checks the body afresh, at the type that is declared at this site.
    #[cold]
    #[inline(never)]
    pub fn checked(
        &mut self,
        alloc: Global,
        body: BodySite,
        declared: TypeSite,
    ) -> Result<Ruling, CallFail>
        requires calling { IsUnderWay D.fixed D.front N.known N.asked self.old }
        requires named { (bytes : List ℕ) × (place (N.known self.old.names.now) (self.old.class.0, bytes) ≡ Some self.old.key.0) }
        requires takes { TakesArgs (given_of D.fixed self.old) }
        requires defined { HasBody (D.fixed self.old.desk.now).caller self.old.q self.old.key (Some body) (D.front self.old.desk.now) }
        requires body { body.0 < length self.old.prog.now.bodies }
        requires declared { self.old.own.ty ≡ Some declared }
        requires known { declared.0 < length self.old.prog.now.types }
        requires fresh { (self.old.answers.now.items ≡ []) × (self.old.refused ≡ None) }
        requires differed { HasDiffered (given_of D.fixed self.old) body self.old.compared.now.items }
        ensures holding { IsHolding D.fixed D.front N.known N.asked self.new }
        ensures alike { GoesOn D.fixed D.front N.known N.asked self.old self.new }
        ensures live { IsLive (D.fixed self.old.desk.now).caller self.old.q.0 (D.front self.old.desk.now) (D.front self.new.desk.now) }
        ensures rules { FitsSince (given_of D.fixed self.old) (moment_of D.front N.known N.asked self.old) (moment_of D.front N.known N.asked self.new) }
        ensures names { N.alike self.old.names.now self.new.names.now }
        ensures ruled { IfOk result (IsRuledNow D.fixed D.front N.known N.asked self.new (Some body)) }
        ensures marks { IfOk result (MarksKept self.new.key self.new.cache.now self.new.held.now.items) }
        ensures full { IfErr result (IsFullFor (given_of D.fixed self.new) (N.known self.new.names.now)) }
        ensures rightly { IfErr result (IsRightlyFor self.new.prog.now (N.known self.new.names.now) (D.fixed self.new.desk.now).caller self.new.q self.new.key (D.front self.new.desk.now)) }
    {
        let found = check(alloc, self.prog, self.class, body, declared, self)?;
        Ok(told(body, found))
    }

    /// Whether the check that is kept may be taken again: it is of this body, and no type that it used was changed since.
    #[inline]
    pub fn agrees(&mut self, alloc: Global, body: BodySite) -> Result<bool, CallFail>
        requires calling { IsUnderWay D.fixed D.front N.known N.asked self.old }
        requires named { (bytes : List ℕ) × (place (N.known self.old.names.now) (self.old.class.0, bytes) ≡ Some self.old.key.0) }
        requires takes { TakesArgs (given_of D.fixed self.old) }
        requires defined { HasBody (D.fixed self.old.desk.now).caller self.old.q self.old.key (Some body) (D.front self.old.desk.now) }
        requires own { KeepsOwn None D.fixed D.front N.known N.asked self.old }
        requires few { length (N.known self.old.names.now) ≤ NAMES_MAX }
        requires fresh { (self.old.answers.now.items ≡ []) × (self.old.compared.now.items ≡ []) × (self.old.refused ≡ None) }
        ensures ended { HasEnded (given_of D.fixed self.old) (given_of D.fixed self.new) (moment_of D.front N.known N.asked self.old) (moment_of D.front N.known N.asked self.new) self.new.held.now.items self.new.compared.now.items body result }
        ensures names { self.new.names ≡ self.old.names }
        ensures fresh { (self.new.answers.now.items ≡ []) × (self.new.refused ≡ None) }
    {
        let cache = self.cache;
        let Some(kept) = cache.find(self.key, body) else {
            return Ok(false);
        };
        if kept.changes != self.own.changes {
            return Ok(false);
        }
        self.compare(alloc, kept)
    }

    // Holds the keys of the uses in their order, up to one whose type was changed since. Whether there was none.
    #[inline]
    fn compare(&mut self, alloc: Global, kept: &Kept) -> Result<bool, CallFail>
        requires calling { IsUnderWay D.fixed D.front N.known N.asked self.old }
        requires named { (bytes : List ℕ) × (place (N.known self.old.names.now) (self.old.class.0, bytes) ≡ Some self.old.key.0) }
        requires takes { TakesArgs (given_of D.fixed self.old) }
        requires defined { HasBody (D.fixed self.old.desk.now).caller self.old.q self.old.key (Some kept.now.derivation.body) (D.front self.old.desk.now) }
        requires own { KeepsOwn None D.fixed D.front N.known N.asked self.old }
        requires few { length (N.known self.old.names.now) ≤ NAMES_MAX }
        requires fresh { (self.old.answers.now.items ≡ []) × (self.old.compared.now.items ≡ []) × (self.old.refused ≡ None) }
        requires kept { kept_at self.old.cache.now self.old.key.0 ≡ Some kept.now }
        requires key { kept.now.key.0 ≡ self.old.key.0 }
        requires count { kept.now.changes ≡ self.old.own.changes }
        ensures ended { HasEnded (given_of D.fixed self.old) (given_of D.fixed self.new) (moment_of D.front N.known N.asked self.old) (moment_of D.front N.known N.asked self.new) self.new.held.now.items self.new.compared.now.items kept.now.derivation.body result }
        ensures names { self.new.names ≡ self.old.names }
        ensures fresh { (self.new.answers.now.items ≡ []) × (self.new.refused ≡ None) }
    {
        // Its count tells that it is a program, whose names differ.
        let _nodes = self.prog.nodes();
        for i in 0..kept.counts.len() {
            if let Some(held) = self.compare_at(alloc, kept, i)? {
                note(self.compared, kept, i, held)?;
                return Ok(false);
            }
        }
        Ok(true)
    }

    // Holds the key of one use, unless it is the call's own. What the hold found, where the type was changed since.
    #[inline]
    fn compare_at(
        &mut self,
        alloc: Global,
        kept: &Kept,
        at: usize,
    ) -> Result<Option<Held>, CallFail>
        requires at { at < length kept.now.counts.items }
        requires program { IsProgram self.old.prog.now }
        requires calling { IsCalling self.old.prog.now (D.fixed self.old.desk.now) self.old.q.0 (N.known self.old.names.now) (N.asked self.old.names.now) (D.front self.old.desk.now) self.old.key self.old.own self.old.held.now.items (take at (answers_kept kept.now)) }
        requires few { length (N.known self.old.names.now) ≤ NAMES_MAX }
        requires check { IsTrueCheck self.old.prog.now (N.known self.old.names.now) (N.asked self.old.names.now) (D.front self.old.desk.now) kept.now }
        requires key { kept.now.key.0 ≡ self.old.key.0 }
        requires count { kept.now.changes ≡ self.old.own.changes }
        ensures holding { IsHolding D.fixed D.front N.known N.asked self.new }
        ensures one { IfOk result (HasCompared (given_of D.fixed self.new) (moment_of D.front N.known N.asked self.old) (moment_of D.front N.known N.asked self.new) self.new.held.now.items kept.now at) }
        ensures alike { GoesOn D.fixed D.front N.known N.asked self.old self.new }
        ensures failed { IfErr result (λ e. (e ≡ CallFail.NoMemory) × (self.new.held.now.items ≡ self.old.held.now.items) × (D.front self.new.desk.now ≡ D.front self.old.desk.now)) }
        ensures names { self.new.names ≡ self.old.names }
        ensures compared { self.new.compared ≡ self.old.compared }
        ensures answers { self.new.answers ≡ self.old.answers }
        ensures refused { self.new.refused ≡ self.old.refused }
    {
        let seen = kept.counts[at];
        // A use has the key of none before it, since their methods differ. It may have the called method's.
        if seen.key == self.key {
            return Ok(None);
        }
        let held = self.hold(alloc, seen.key)?;
        if held.changes == seen.changes {
            return Ok(None);
        }
        Ok(Some(held))
    }

    // Holds one more key.
    #[inline]
    fn hold(&mut self, alloc: Global, key: KeyId) -> Result<Held, CallFail>
        requires calling { IsHolding D.fixed D.front N.known N.asked self.old }
        requires below { key.0 < NAMES_MAX }
        requires free { times ((D.fixed self.old.desk.now).caller, self.old.q.0) (spot key.0 (D.front self.old.desk.now)).calls ≡ 0 }
        ensures same { IsSame (given_of D.fixed self.old) (given_of D.fixed self.new) }
        ensures held { IfOk result (λ h. (self.new.held.now.items ≡ self.old.held.now.items ++ key ∷ []) × Adds (D.fixed self.old.desk.now).caller (D.front self.old.desk.now) (D.front self.new.desk.now) (Hold key self.old.q h.ty h.changes)) }
        ensures legal { IfOk result (λ h. IsLegal (D.fixed self.old.desk.now).limit (D.front self.new.desk.now)) }
        ensures failed { IfErr result (λ e. (e ≡ CallFail.NoMemory) × (self.new.held.now.items ≡ self.old.held.now.items) × (D.front self.new.desk.now ≡ D.front self.old.desk.now)) }
        ensures names { self.new.names ≡ self.old.names }
        ensures compared { self.new.compared ≡ self.old.compared }
        ensures answers { self.new.answers ≡ self.old.answers }
        ensures refused { self.new.refused ≡ self.old.refused }
    {
        self.held.reserve(1)?;
        self.desk.reserve(alloc, 2)?;
        let held = self.desk.hold(self.q, key);
        self.held.push_reserved(key);
        Ok(held)
    }
}

// Notes what the holds of a comparison found: what is kept, and this at the last.
#[cold]
#[inline(never)]
fn note(compared: &mut Vec<Answer>, kept: &Kept, last: usize, held: Held) -> Result<(), AllocError>
    requires last { last < length kept.now.counts.items }
    requires counts { length kept.now.counts.items ≡ length kept.now.derivation.uses.items }
    requires none { compared.old.items ≡ [] }
    ensures { OnOk result (compared.new.items ≡ answers_differing kept.now last held) }
{
    for i in 0..last {
        let answer = kept_answer(kept, i);
        compared.push(answer)?;
    }
    let answer = Answer {
        held,
        ..kept_answer(kept, last)
    };
    compared.push(answer)?;
    Ok(())
}

// The answer that the use at this place had.
fn kept_answer(kept: &Kept, at: usize) -> Answer
    requires at { at < length kept.now.counts.items }
    requires counts { length kept.now.counts.items ≡ length kept.now.derivation.uses.items }
    ensures { slice_get (answers_kept kept.now) at ≡ Some result }
{
    let used = kept.derivation.uses[at];
    let seen = kept.counts[at];
    Answer {
        class: used.class,
        name: used.name,
        key: seen.key,
        held: Held {
            ty: seen.site,
            changes: seen.changes,
        },
    }
}
