//! A call that is being decided.

ghost use Rattle.std.specs.Prelude.{◌≡◌, ◌<◌, ◌≤◌, ℕ, length, List, [], ◌∷◌, ◌++◌, Option, None, Some, IfErr, IfOk, IfSome, IsErrOf, OnErr, OnOk};
ghost use Rattle.hb_types.specs.Types.{IsMethodTy};
ghost use Rattle.hb_types.specs.declared.ids.ClassId.{ClassId};
ghost use Rattle.hb_types.specs.declared.ids.NameId.{NameId};
ghost use Rattle.hb_check.specs.Asked.{asked};
ghost use Rattle.hb_names.specs.Names.{IsFull, place};
ghost use Rattle.hb_tables.specs.declared.entry.Act.{Act};
ghost use Rattle.hb_tables.specs.History.{IsLegal};
ghost use Rattle.hb_tables.specs.Names.{name_of};
ghost use Rattle.hb_tables.specs.Rows.{kinds_of};
ghost use Rattle.hb_tables.specs.Verdicts.{takes};
ghost use Rattle.hb_call.specs.Held.{Holds, frees};
ghost use Rattle.hb_tables.specs.declared.entry.Entry.{Entry};
ghost use Rattle.hb_tables.specs.Frames.{acts};
ghost use Rattle.hb_call.specs.Growth.{EachNew};
ghost use Rattle.hb_call.specs.Rules.{EntersBy};
ghost use Rattle.hb_call.specs.Calling.{FitsSince, Grew, HasBody, HasLooked, IsArgKinds, IsAskedFor, IsCalling, IsHeldFrom, IsLive, IsRefusedRightly, IsSame, MayRetreat, StaysUnfit, Went, answers_of, held_among};
ghost use Rattle.hb_call.specs.Comparing.{AsksNoMore, EndsAsking, MarksKept};
ghost use Rattle.hb_call.specs.Deciding.{Decided, IsOwnBehind, site_by, verdict_by};
ghost use Rattle.hb_call.specs.Entering.{Finished, IsEndedWell, IsFullFor, IsOwnAtEnd, IsRightlyFor, IsTold};
ghost use Rattle.hb_call.specs.Seen.{AsksOn, GoesOn, HasSpare, IsHolding, IsRuledNow, IsUnderWay, KeepsOwn, given_of, moment_of};

use crate::answers::{Answer, Refused, found};
use crate::frame::{CallFail, Frame, free_keys};
use crate::ruling::{Ended, Ruling};
use hb_cache::Cache;
use hb_check::all_below;
use hb_check::lookup::{LookFail, Lookup};
use hb_names::{NAMES_MAX, NameFail, Names};
use hb_tables::desk::{Desk, Held, Look};
use hb_tables::entry::{ArgKinds, Verdict};
use hb_tree::limits::TYPES_MAX;
use hb_tree::program::Program;
use hb_types::ids::{BodySite, CallNo, ClassId, KeyId, NameId, TypeSite};
use hb_types::types::MethodTy;
use std::alloc::{AllocError, Global};
use std::mem;

/// A call that is being decided. It is the lookup of its body's check: each type at which the check looks is held first.
#[derive(Drop)]
pub struct Call<'p, 'd, 'n, 'k, D: Desk, N: Names> {
    pub prog: &'p Program,
    pub q: CallNo,
    pub class: ClassId,
    pub args: ArgKinds,
    pub desk: &'d mut D,
    pub names: &'n mut N,
    /// The keys that it holds, in the order of its holds.
    pub held: &'k mut Vec<KeyId>,
    /// The called method.
    pub key: KeyId,
    /// What the hold of this key found.
    pub own: Held,
    /// What the script keeps of its checks.
    pub cache: &'k Cache,
    /// What a comparison with a check that is kept found, where the types had changed.
    pub compared: &'k mut Vec<Answer>,
    /// What the check of the body was answered.
    pub answers: &'k mut Vec<Answer>,
    pub refused: Option<Refused>,
}

impl<D: Desk, N: Names> Call<'_, '_, '_, '_, D, N> {
    /// Decides the call, by the definition that was looked at, or by a newer one that is there by then.
    pub fn decide(&mut self, alloc: Global, first: Look) -> Result<Ruling, CallFail>
        requires calling { IsUnderWay D.fixed D.front N.known N.asked self.old }
        requires args { IsArgKinds self.old.args }
        requires fresh { (self.old.answers.now.items ≡ []) × (self.old.compared.now.items ≡ []) × (self.old.refused ≡ None) }
        requires named { (bytes : List ℕ) × (place (N.known self.old.names.now) (self.old.class.0, bytes) ≡ Some self.old.key.0) }
        requires own { KeepsOwn None D.fixed D.front N.known N.asked self.old }
        requires few { length (N.known self.old.names.now) ≤ NAMES_MAX }
        requires looked { HasLooked (D.fixed self.old.desk.now).caller self.old.q self.old.key first (D.front self.old.desk.now) }
        ensures same { IsSame (given_of D.fixed self.old) (given_of D.fixed self.new) }
        ensures desk { self.new.desk.ghost_name ≡ self.old.desk.ghost_name }
        ensures names { self.new.names.ghost_name ≡ self.old.names.ghost_name }
        ensures alike { N.alike self.old.names.now self.new.names.now }
        ensures went { Went (given_of D.fixed self.old) (moment_of D.front N.known N.asked self.old) (moment_of D.front N.known N.asked self.new) }
        ensures grew { Grew (given_of D.fixed self.old) (moment_of D.front N.known N.asked self.old) (moment_of D.front N.known N.asked self.new) }
        ensures goes { OnErr result (GoesOn D.fixed D.front N.known N.asked self.old self.new) }
        ensures holds { Holds (D.fixed self.new.desk.now).caller self.new.q.0 self.new.held.now.items (D.front self.new.desk.now) }
        ensures first { (others : List KeyId) × (self.new.held.now.items ≡ self.new.key ∷ others) }
        ensures decided { IfOk result (λ r. Decided (given_of D.fixed self.new) (N.known self.new.names.now) (D.front self.old.desk.now) (D.front self.new.desk.now) (verdict_by r) (site_by r)) }
        ensures own { (past : Option (List Act)) → KeepsOwn past D.fixed D.front N.known N.asked self.old → IsOwnBehind (given_of D.fixed self.new) past (N.known self.new.names.now) (N.asked self.new.names.now) (D.front self.new.desk.now) self.new.held.now.items self.new.answers.now.items result }
        ensures ways { (past : List Act) → KeepsOwn (Some past) D.fixed D.front N.known N.asked self.old → EachNew (EntersBy (D.fixed self.old.desk.now).caller past) (D.fixed self.old.desk.now).caller (D.front self.old.desk.now) (D.front self.new.desk.now) }
        ensures asks { IfOk result (AsksNoMore (given_of D.fixed self.old) (moment_of D.front N.known N.asked self.old) (moment_of D.front N.known N.asked self.new)) }
        ensures full { IfErr result (IsFullFor (given_of D.fixed self.new) (N.known self.new.names.now)) }
        ensures rightly { IfErr result (IsRightlyFor self.new.prog.now (N.known self.new.names.now) (D.fixed self.new.desk.now).caller self.new.q self.new.key (D.front self.new.desk.now)) }
    {
        let mut look = first;
        loop {
            let ruling = self.ruling(alloc, look.site)?;
            self.desk.reserve(alloc, 1)?;
            let verdict = ruling.verdict();
            match self
                .desk
                .decide(self.q, self.key, self.key, look, self.args, verdict)
            {
                Ok(()) => return Ok(ruling),
                Err(newer) => {
                    self.retreat();
                    look = newer;
                }
            }
        }
    }

    /// Decides the call, and frees what it holds where its body may not run.
    pub fn finish(&mut self, alloc: Global, first: Look) -> Result<Ended, CallFail>
        requires calling { IsUnderWay D.fixed D.front N.known N.asked self.old }
        requires args { IsArgKinds self.old.args }
        requires fresh { (self.old.answers.now.items ≡ []) × (self.old.compared.now.items ≡ []) × (self.old.refused ≡ None) }
        requires named { (bytes : List ℕ) × (place (N.known self.old.names.now) (self.old.class.0, bytes) ≡ Some self.old.key.0) }
        requires own { KeepsOwn None D.fixed D.front N.known N.asked self.old }
        requires few { length (N.known self.old.names.now) ≤ NAMES_MAX }
        requires looked { HasLooked (D.fixed self.old.desk.now).caller self.old.q self.old.key first (D.front self.old.desk.now) }
        ensures desk { self.new.desk.ghost_name ≡ self.old.desk.ghost_name }
        ensures names { self.new.names.ghost_name ≡ self.old.names.ghost_name }
        ensures answers { self.new.answers.ghost_name ≡ self.old.answers.ghost_name }
        ensures alike { N.alike self.old.names.now self.new.names.now }
        ensures fixed { D.fixed self.new.desk.now ≡ D.fixed self.old.desk.now }
        ensures went { Went (given_of D.fixed self.old) (moment_of D.front N.known N.asked self.old) (moment_of D.front N.known N.asked self.new) }
        ensures grew { IsTold result → Grew (given_of D.fixed self.old) (moment_of D.front N.known N.asked self.old) (moment_of D.front N.known N.asked self.new) }
        ensures ways { (past : List Act) → KeepsOwn (Some past) D.fixed D.front N.known N.asked self.old → EachNew (EntersBy (D.fixed self.old.desk.now).caller past) (D.fixed self.old.desk.now).caller (D.front self.old.desk.now) (D.front self.new.desk.now) }
        ensures finished { Finished (given_of D.fixed self.old) (N.known self.new.names.now) (D.front self.old.desk.now) (D.front self.new.desk.now) result }
        ensures ended { IfOk result (IsEndedWell (D.fixed self.old.desk.now).caller self.old.q (D.front self.new.desk.now)) }
        ensures asks { IfOk result (EndsAsking (given_of D.fixed self.old) (moment_of D.front N.known N.asked self.old) (moment_of D.front N.known N.asked self.new)) }
        ensures own { (past : Option (List Act)) → KeepsOwn past D.fixed D.front N.known N.asked self.old → IsOwnAtEnd (given_of D.fixed self.old) past (N.known self.new.names.now) (N.asked self.new.names.now) (D.front self.new.desk.now) self.new.answers.now.items result }
    {
        match self.decide(alloc, first) {
            Ok(Ruling::Kept(body)) => Ok(Ended::Own(self.frame(alloc, body))),
            Ok(Ruling::Checked(derivation)) => {
                Ok(Ended::Fresh(self.frame(alloc, derivation.body), derivation))
            }
            Ok(Ruling::Refused(_, verdict)) => {
                free_keys(self.desk, self.q, self.held);
                Ok(Ended::Refused(verdict))
            }
            Err(cause) => {
                free_keys(self.desk, self.q, self.held);
                Err(cause)
            }
        }
    }

    // The frame of the call, which takes the keys over.
    fn frame(&mut self, alloc: Global, body: BodySite) -> Frame
        ensures frame { (result.q ≡ self.old.q) × (result.key ≡ self.old.key) × (result.body ≡ body) × (result.held ≡ self.old.held.now) }
        ensures desk { self.new.desk ≡ self.old.desk }
        ensures names { self.new.names ≡ self.old.names }
        ensures answers { self.new.answers ≡ self.old.answers }
    {
        Frame {
            q: self.q,
            key: self.key,
            body,
            held: mem::replace(self.held, Vec::new(alloc)),
        }
    }

    // What the call comes to with this definition. The keys on which that rests are held.
    fn ruling(&mut self, alloc: Global, site: Option<BodySite>) -> Result<Ruling, CallFail>
        requires calling { IsUnderWay D.fixed D.front N.known N.asked self.old }
        requires args { IsArgKinds self.old.args }
        requires fresh { (self.old.answers.now.items ≡ []) × (self.old.compared.now.items ≡ []) × (self.old.refused ≡ None) }
        requires named { (bytes : List ℕ) × (place (N.known self.old.names.now) (self.old.class.0, bytes) ≡ Some self.old.key.0) }
        requires own { KeepsOwn None D.fixed D.front N.known N.asked self.old }
        requires few { length (N.known self.old.names.now) ≤ NAMES_MAX }
        requires defined { HasBody (D.fixed self.old.desk.now).caller self.old.q self.old.key site (D.front self.old.desk.now) }
        ensures holding { IsHolding D.fixed D.front N.known N.asked self.new }
        ensures alike { GoesOn D.fixed D.front N.known N.asked self.old self.new }
        ensures names { N.alike self.old.names.now self.new.names.now }
        ensures ruled { IfOk result (IsRuledNow D.fixed D.front N.known N.asked self.new site) }
        ensures marks { IfOk result (MarksKept self.new.key self.new.cache.now self.new.held.now.items) }
        ensures unfit { StaysUnfit (given_of D.fixed self.old) (D.front self.old.desk.now) (D.front self.new.desk.now) self.new.held.now.items }
        ensures live { IsLive (D.fixed self.old.desk.now).caller self.old.q.0 (D.front self.old.desk.now) (D.front self.new.desk.now) }
        ensures rules { FitsSince (given_of D.fixed self.old) (moment_of D.front N.known N.asked self.old) (moment_of D.front N.known N.asked self.new) }
        ensures full { IfErr result (IsFullFor (given_of D.fixed self.new) (N.known self.new.names.now)) }
        ensures rightly { IfErr result (IsRightlyFor self.new.prog.now (N.known self.new.names.now) (D.fixed self.new.desk.now).caller self.new.q self.new.key (D.front self.new.desk.now)) }
    {
        let Some(body) = site else {
            return Ok(Ruling::Refused(site, Verdict::NoBody));
        };
        if body.0 as usize >= self.prog.bodies() {
            return Ok(Ruling::Refused(site, Verdict::NoBody));
        }
        let Some(declared) = self.own.ty else {
            return Ok(Ruling::Refused(site, Verdict::NoType));
        };
        if declared.0 as usize >= self.prog.types() {
            return Ok(Ruling::Refused(site, Verdict::NoType));
        }
        if !takes(&self.prog.type_of(declared), &self.args) {
            return Ok(Ruling::Refused(site, Verdict::BadArgs));
        }
        if self.agrees(alloc, body)? {
            return Ok(Ruling::Kept(body));
        }
        self.checked(alloc, body, declared)
    }

    // Gives back all keys but the called method's own.
    fn retreat(&mut self)
        requires holding { IsHolding D.fixed D.front N.known N.asked self.old }
        requires may { MayRetreat (D.fixed self.old.desk.now).caller self.old.q self.old.key (D.front self.old.desk.now) }
        ensures calling { IsUnderWay D.fixed D.front N.known N.asked self.new }
        ensures alike { GoesOn D.fixed D.front N.known N.asked self.old self.new }
        ensures names { self.new.names ≡ self.old.names }
        ensures freed { (others : List KeyId) × (self.old.held.now.items ≡ self.old.key ∷ others) × (acts (D.fixed self.old.desk.now).caller (D.front self.new.desk.now) ≡ acts (D.fixed self.old.desk.now).caller (D.front self.old.desk.now) ++ frees self.old.q others) }
        ensures rules { FitsSince (given_of D.fixed self.old) (moment_of D.front N.known N.asked self.old) (moment_of D.front N.known N.asked self.new) }
        ensures fresh { (self.new.answers.now.items ≡ []) × (self.new.compared.now.items ≡ []) × (self.new.refused ≡ None) }
    {
        free_keys(self.desk, self.q, &self.held[1..]);
        self.held.truncate(1);
        self.compared.clear();
        self.answers.clear();
        self.refused = None;
    }

    // The type of a method, which is held from here on.
    fn answer(
        &mut self,
        alloc: Global,
        class: ClassId,
        name: NameId,
    ) -> Result<Option<TypeSite>, LookFail>
        requires calling { IsUnderWay D.fixed D.front N.known N.asked self.old }
        requires name { name.0 < length self.old.prog.now.names }
        ensures calling { IsUnderWay D.fixed D.front N.known N.asked self.new }
        ensures alike { GoesOn D.fixed D.front N.known N.asked self.old self.new }
        ensures names { N.alike self.old.names.now self.new.names.now }
        ensures asks { AsksOn D.fixed D.front N.known N.asked self.old self.new }
        ensures below { IfOk result (λ site. IfSome site (λ s. s.0 < TYPES_MAX)) }
        ensures answer { IfOk result (λ site. answers_of self.new.answers.now.items ≡ answers_of self.old.answers.now.items ++ asked class name site ∷ []) }
        ensures none { OnErr result (self.new.answers.now.items ≡ self.old.answers.now.items) }
        ensures compared { self.new.compared.now.items ≡ self.old.compared.now.items }
        ensures refused { self.new.refused ≡ self.old.refused }
        ensures full { IsErrOf result LookFail.Full → IsFull (N.known self.new.names.now) (name_of self.old.prog.now (class.0, name.0)) }
    {
        // There is room for the hold before the name is asked for, so that no name is asked for in vain.
        if self.make_room(alloc).is_err() {
            return Err(LookFail::NoMemory);
        }
        let key = match self.names.key(alloc, class, self.prog.name(name)) {
            Ok(key) => key,
            Err(NameFail::Full) => return Err(LookFail::Full),
            Err(NameFail::NoMemory) => return Err(LookFail::NoMemory),
        };
        let held = self.type_held(key);
        self.answers.push_reserved(Answer {
            class,
            name,
            key,
            held,
        });
        Ok(held.ty)
    }

    // Makes room for one more hold and its answer.
    fn make_room(&mut self, alloc: Global) -> Result<(), AllocError>
        requires calling { IsUnderWay D.fixed D.front N.known N.asked self.old }
        ensures calling { IsUnderWay D.fixed D.front N.known N.asked self.new }
        ensures alike { GoesOn D.fixed D.front N.known N.asked self.old self.new }
        ensures front { D.front self.new.desk.now ≡ D.front self.old.desk.now }
        ensures names { self.new.names ≡ self.old.names }
        ensures compared { self.new.compared.now.items ≡ self.old.compared.now.items }
        ensures answers { self.new.answers.now.items ≡ self.old.answers.now.items }
        ensures refused { self.new.refused ≡ self.old.refused }
        ensures room { OnOk result (HasSpare D.spare self.new) }
    {
        self.answers.reserve(1)?;
        self.held.reserve(1)?;
        self.desk.reserve(alloc, 2)
    }

    // What the hold of a key found, where it was compared or answered.
    fn known(&self, key: KeyId) -> Option<Held>
        ensures { result ≡ held_among (self.now.compared.now.items ++ self.now.answers.now.items) key.0 }
    {
        match found(self.compared, key) {
            Some(held) => Some(held),
            None => found(self.answers, key),
        }
    }

    // The type of a key that the call holds, or that it takes now.
    fn type_held(&mut self, key: KeyId) -> Held
        requires calling { IsUnderWay D.fixed D.front N.known N.asked self.old }
        requires below { key.0 < NAMES_MAX }
        requires asked { IsAskedFor (N.known self.old.names.now) (N.asked self.old.names.now) key.0 }
        requires room { HasSpare D.spare self.old }
        ensures same { IsSame (given_of D.fixed self.old) (given_of D.fixed self.new) }
        ensures finds { IsHeldFrom (D.fixed self.old.desk.now).caller self.old.q key result (D.front self.old.desk.now) (D.front self.new.desk.now) }
        ensures calling { (class : ClassId) (name : NameId) → place (N.known self.old.names.now) (name_of self.old.prog.now (class.0, name.0)) ≡ Some key.0
            → IsCalling self.old.prog.now (D.fixed self.old.desk.now) self.old.q.0 (N.known self.old.names.now) (N.asked self.old.names.now) (D.front self.new.desk.now) self.old.key self.old.own self.new.held.now.items ((self.old.compared.now.items ++ self.old.answers.now.items) ++ record { class = class; name = name; key = key; held = result } ∷ []) }
        ensures legal { IsLegal (D.fixed self.old.desk.now).limit (D.front self.new.desk.now) }
        ensures below { IfSome result.ty (λ s. s.0 < TYPES_MAX) }
        ensures names { self.new.names ≡ self.old.names }
        ensures compared { self.new.compared ≡ self.old.compared }
        ensures answers { self.new.answers ≡ self.old.answers }
        ensures refused { self.new.refused ≡ self.old.refused }
    {
        if key.0 == self.key.0 {
            return self.own;
        }
        if let Some(held) = self.known(key) {
            return held;
        }
        let held = self.desk.hold(self.q, key);
        self.held.push_reserved(key);
        held
    }
}

// Whether a method of this type may be called with these arguments.
fn takes(ty: &MethodTy, args: &ArgKinds) -> bool
    requires form { IsMethodTy ty.now }
    requires args { IsArgKinds args.now }
    ensures { result ≡ takes ty.now (kinds_of args.now) }
{
    if args.count != ty.count {
        return false;
    }
    let count = args.count as usize;
    all_below(&args.kinds[..count], &ty.params[..count])
}

impl<D: Desk, N: Names> Lookup for Call<'_, '_, '_, '_, D, N> {
    ghost use Rattle.std.proofs.Common.{length, refl, ap, ◌∙◌};
    ghost use Rattle.hb_tree.specs.declared.limits.TheConstants.{TYPES_MAX};
    ghost use Rattle.hb_call.specs.Calling.{Given, IsRefusedRightly, answers_of, refusal_of};
    ghost use Rattle.hb_call.specs.Seen.{AsksOn, GoesOn, IsUnderWay, given_of, moment_of};
    ghost use Rattle.hb_call.specs.Alike.{alike_itself, alike_on, asking_itself, asking_on};

    ghost answers = { λ s. answers_of s.answers.now.items };

    ghost refused = { λ s. refusal_of s.refused };

    ghost bound = { λ s. TYPES_MAX };

    ghost names = { λ s. length s.prog.now.names };

    ghost alike = { λ a b. GoesOn D.fixed D.front N.known N.asked a b × N.alike a.names.now b.names.now × AsksOn D.fixed D.front N.known N.asked a b × (a.compared.now.items ≡ b.compared.now.items) };

    ghost alike_itself = { λ a. (alike_itself (given_of D.fixed a) (moment_of D.front N.known N.asked a), N.alike_itself a.names.now, asking_itself (given_of D.fixed a) (moment_of D.front N.known N.asked a) a.answers.now.items, refl) };

    ghost alike_on = { λ a b c p q. (alike_on (given_of D.fixed a) (given_of D.fixed b) (given_of D.fixed c) (moment_of D.front N.known N.asked a) (moment_of D.front N.known N.asked b) (moment_of D.front N.known N.asked c) p.0 q.0, N.alike_on a.names.now b.names.now c.names.now p.1 q.1, asking_on (given_of D.fixed a) (given_of D.fixed b) (moment_of D.front N.known N.asked a) (moment_of D.front N.known N.asked b) (moment_of D.front N.known N.asked c) a.answers.now.items b.answers.now.items c.answers.now.items p.0.same q.0.goes.went p.2 q.2, p.3 ∙ q.3) };

    ghost bound_stays = { λ a b e. refl };

    ghost names_stay = { λ a b e. ap (λ (g : Given). length g.t.names) e.0.same };

    ghost ready = { λ s. IsUnderWay D.fixed D.front N.known N.asked s × IsRefusedRightly s.prog.now (N.known s.names.now) s.refused };

    fn type_of(
        &mut self,
        alloc: Global,
        class: ClassId,
        name: NameId,
    ) -> Result<Option<TypeSite>, LookFail> {
        let found = self.answer(alloc, class, name);
        if let Err(cause) = found {
            self.refused = Some(Refused { class, name, cause });
        }
        found
    }
}
