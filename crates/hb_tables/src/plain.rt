//! Plain tables: a history, and the state of each key.

ghost use Rattle.std.specs.Prelude.{◌≡◌, ◌+◌, ◌<◌, ◌≤◌, ◌∷◌, [], ◌++◌, List, length, drop, IfOk};
ghost use mathlib.Core.List.{IsPrefix};
ghost use Rattle.hb_tables.specs.declared.entry.Entry.{Entry};
ghost use Rattle.hb_tables.specs.declared.entry.Act.TheVariants.{Hold, Free};
ghost use Rattle.hb_tables.specs.History.{spot, times, of_caller, key_of, done, entry, FitsAct, IsLegal, Adds};
ghost use Rattle.hb_tables.specs.Answers.{TypeAdds, DefAdds, IsLookAt, Decides};
ghost use Rattle.hb_tables.specs.Plain.{Matches, AreOwn};

use crate::desk::{DefAnswer, Held, Look, TypeAnswer};
use crate::entry::{Act, ArgKinds, BODIES_MAX, Entry, HOLDS_MAX, VERSIONS_MAX, Verdict};
use crate::plain_desk::PlainDesk;
use hb_names::NAMES_MAX;
use hb_tree::limits::TYPES_MAX;
use hb_types::ids::{BodySite, CallNo, CallerId, KeyId, TypeSite};
use std::alloc::{AllocError, Global};
use std::marker::Model;

/// The state of a key.
#[derive(Clone, Copy)]
struct KeyState {
    ty: Option<TypeSite>,
    /// How often the type was changed.
    changes: u32,
    body: Option<BodySite>,
    /// How often the definition was changed.
    redefs: u32,
    /// How many calls hold the key.
    pins: u32,
}

/// The state of a key before all entries.
const BLANK: KeyState = KeyState {
    ty: None,
    changes: 0,
    body: None,
    redefs: 0,
    pins: 0,
};

/// Tables for callers that take turns. Contracts see the history of all entries, which is legal.
#[derive(Drop)]
pub struct PlainTables {
    history: Vec<Entry>,
    states: Vec<KeyState>,
    /// How many holds stand, each of which will want room for one more entry.
    owed: usize,
    versions: u32,
    /// Whose door was opened last.
    caller: CallerId,
    /// How many entries there were then.
    opened: usize,
}

impl Model for PlainTables {
    ghost use Rattle.std.specs.Prelude.{◌+◌, ◌-◌, ◌≤◌, vec_len, vec_capacity};
    ghost use Rattle.hb_tables.specs.Plain.{Tables, AreTables, IsOpen};

    ghost Value = { Tables };

    ghost view = { λ t. record { caller = t.caller.0; opened = t.opened; log = t.history.items; limit = t.versions; spare = vec_capacity t.history - (vec_len t.history + t.owed) } };

    ghost invariant = { λ t. AreTables t.versions t.history.items t.states.items t.owed × (vec_len t.history + t.owed ≤ vec_capacity t.history) × IsOpen t.caller.0 t.opened t.history.items };
}

impl PlainTables {
    /// Tables in which a type and a definition may be changed `versions` times each, with no entry yet, for the setup.
    pub fn new(alloc: Global, versions: u32) -> Result<PlainTables, AllocError>
        requires { (1 ≤ versions) × (versions ≤ VERSIONS_MAX) }
        ensures { IfOk result (λ t. (t.log ≡ []) × (t.limit ≡ versions) × (t.caller ≡ 0) × (t.opened ≡ 0)) }
    {
        Ok(PlainTables {
            history: Vec::new(alloc),
            states: vec![in alloc; BLANK; NAMES_MAX]?,
            owed: 0,
            versions,
            caller: CallerId(0),
            opened: 0,
        })
    }

    /// The door of a caller. When it ends, the history is what it knew last.
    pub fn desk(&mut self, caller: CallerId) -> PlainDesk<'_>
        ensures reference { result.tables.ghost_name ≡ self.entry.ghost_name }
        ensures tables { result.tables.now ≡ record self.old { caller = caller.0; opened = length self.old.log } }
    {
        self.caller = caller;
        self.opened = self.history.len();
        PlainDesk { tables: self }
    }

    /// All entries so far. Those that were made since the last door was opened are its caller's.
    pub fn history(&self) -> &[Entry]
        ensures all { result.now ≡ self.now.log }
        ensures legal { IsLegal self.now.limit self.now.log }
        ensures own { AreOwn self.now.caller (drop self.now.opened self.now.log) }
    {
        &self.history
    }

    /// All entries, where no door will be opened any more.
    pub fn into_history(self) -> Vec<Entry>
        ensures { result.items ≡ self.log }
    {
        let PlainTables { history, .. } = self;
        history
    }

    pub(crate) fn reserve(&mut self, n: u32) -> Result<(), AllocError>
        ensures log { self.new.log ≡ self.old.log }
        ensures door { (self.new.caller ≡ self.old.caller) × (self.new.opened ≡ self.old.opened) }
        ensures limit { self.new.limit ≡ self.old.limit }
        ensures spare { IfOk result (λ _. n ≤ self.new.spare) }
        ensures kept { self.old.spare ≤ self.new.spare }
    {
        let wanted = self.owed.checked_add(n as usize).ok_or(AllocError)?;
        self.history.reserve(wanted)
    }

    pub(crate) fn caller(&self) -> CallerId
        ensures { result.0 ≡ self.now.caller }
    {
        self.caller
    }

    fn state(&self, key: KeyId) -> KeyState
        requires { key.0 < NAMES_MAX }
        ensures state { Matches result (spot key.0 self.now.log) }
        ensures legal { IsLegal self.now.limit self.now.log }
        ensures low { self.now.limit ≤ VERSIONS_MAX }
    {
        self.states[key.0 as usize]
    }

    // Writes an act down that is no hold and no free, with the state of its key behind it.
    fn write(&mut self, act: Act, key: KeyId, next: KeyState)
        requires key { (key.0 < NAMES_MAX) × (key_of act ≡ key.0) }
        requires fits { FitsAct self.old.limit self.old.caller (spot key.0 self.old.log) act }
        requires next { Matches next (done self.old.caller (spot key.0 self.old.log) act) }
        requires calls { length (done self.old.caller (spot key.0 self.old.log) act).calls ≡ length (spot key.0 self.old.log).calls }
        requires room { 1 ≤ self.old.spare }
        ensures log { self.new.log ≡ self.old.log ++ entry self.old.caller act ∷ [] }
        ensures adds { Adds self.old.caller self.old.log self.new.log act }
        ensures door { (self.new.caller ≡ self.old.caller) × (self.new.opened ≡ self.old.opened) }
        ensures limit { self.new.limit ≡ self.old.limit }
        ensures spare { self.old.spare ≤ self.new.spare + 1 }
        ensures legal { IsLegal self.new.limit self.new.log }
    {
        let PlainTables {
            history,
            states,
            caller,
            ..
        } = self;
        states[key.0 as usize] = next;
        history.push_reserved(Entry {
            caller: *caller,
            act,
        });
    }

    pub(crate) fn hold(&mut self, q: CallNo, key: KeyId) -> Held
        requires key { key.0 < NAMES_MAX }
        requires free { times (self.old.caller, q.0) (spot key.0 self.old.log).calls ≡ 0 }
        requires few { length (of_caller self.old.caller (spot key.0 self.old.log).calls) < HOLDS_MAX }
        requires room { 2 ≤ self.old.spare }
        ensures adds { Adds self.old.caller self.old.log self.new.log (Hold key q result.ty result.changes) }
        ensures door { (self.new.caller ≡ self.old.caller) × (self.new.opened ≡ self.old.opened) }
        ensures limit { self.new.limit ≡ self.old.limit }
        ensures spare { self.old.spare ≤ self.new.spare + 2 }
        ensures legal { IsLegal self.new.limit self.new.log }
    {
        let PlainTables {
            history,
            states,
            owed,
            caller,
            ..
        } = self;
        let state = states[key.0 as usize];
        let held = Held {
            ty: state.ty,
            changes: state.changes,
        };
        states[key.0 as usize].pins += 1;
        *owed += 1;
        history.push_reserved(Entry {
            caller: *caller,
            act: Act::Hold {
                key,
                q,
                ty: held.ty,
                changes: held.changes,
            },
        });
        held
    }

    pub(crate) fn free(&mut self, q: CallNo, key: KeyId)
        requires key { key.0 < NAMES_MAX }
        requires held { times (self.old.caller, q.0) (spot key.0 self.old.log).calls ≡ 1 }
        ensures adds { Adds self.old.caller self.old.log self.new.log (Free key q) }
        ensures door { (self.new.caller ≡ self.old.caller) × (self.new.opened ≡ self.old.opened) }
        ensures limit { self.new.limit ≡ self.old.limit }
        ensures spare { self.old.spare ≤ self.new.spare }
        ensures legal { IsLegal self.new.limit self.new.log }
    {
        let PlainTables {
            history,
            states,
            owed,
            caller,
            ..
        } = self;
        states[key.0 as usize].pins -= 1;
        *owed -= 1;
        history.push_reserved(Entry {
            caller: *caller,
            act: Act::Free { key, q },
        });
    }

    pub(crate) fn set_type(&mut self, key: KeyId, site: TypeSite) -> TypeAnswer
        requires key { key.0 < NAMES_MAX }
        requires site { site.0 < TYPES_MAX }
        requires room { 1 ≤ self.old.spare }
        ensures adds { TypeAdds self.old.caller self.old.log self.new.log key site result }
        ensures door { (self.new.caller ≡ self.old.caller) × (self.new.opened ≡ self.old.opened) }
        ensures limit { self.new.limit ≡ self.old.limit }
        ensures spare { self.old.spare ≤ self.new.spare + 1 }
        ensures legal { IsLegal self.new.limit self.new.log }
    {
        let state = self.state(key);
        let pins = state.pins;
        if pins > 0 {
            self.write(Act::Busy { key, pins }, key, state);
            return TypeAnswer::Busy { pins };
        }
        if state.changes == self.limit() {
            self.write(Act::WornType { key }, key, state);
            return TypeAnswer::Worn;
        }
        let next = KeyState {
            ty: Some(site),
            changes: state.changes + 1,
            ..state
        };
        self.write(Act::Retype { key, site }, key, next);
        TypeAnswer::Done
    }

    fn limit(&self) -> u32
        ensures { result ≡ self.now.limit }
    {
        self.versions
    }

    pub(crate) fn look(&self, key: KeyId) -> Look
        requires { key.0 < NAMES_MAX }
        ensures seen { IsLookAt key.0 result self.now.log }
        ensures legal { IsLegal self.now.limit self.now.log }
    {
        let state = self.state(key);
        Look {
            site: state.body,
            changes: state.redefs,
        }
    }

    pub(crate) fn set_def(&mut self, key: KeyId, site: BodySite) -> DefAnswer
        requires key { key.0 < NAMES_MAX }
        requires site { site.0 < BODIES_MAX }
        requires room { 1 ≤ self.old.spare }
        ensures adds { DefAdds self.old.caller self.old.log self.new.log key site result }
        ensures door { (self.new.caller ≡ self.old.caller) × (self.new.opened ≡ self.old.opened) }
        ensures limit { self.new.limit ≡ self.old.limit }
        ensures spare { self.old.spare ≤ self.new.spare + 1 }
        ensures legal { IsLegal self.new.limit self.new.log }
    {
        let state = self.state(key);
        if state.redefs == self.limit() {
            self.write(Act::WornDef { key }, key, state);
            return DefAnswer::Worn;
        }
        let next = KeyState {
            body: Some(site),
            redefs: state.redefs + 1,
            ..state
        };
        self.write(Act::Define { key, site }, key, next);
        DefAnswer::Done
    }

    pub(crate) fn decide(
        &mut self,
        q: CallNo,
        key: KeyId,
        owner: KeyId,
        look: Look,
        args: ArgKinds,
        verdict: Verdict,
    ) -> Result<(), Look>
        requires key { key.0 < NAMES_MAX }
        requires owner { owner.0 < NAMES_MAX }
        requires look { (before : List Entry) × IsPrefix before self.old.log × IsLookAt owner.0 look before }
        requires room { 1 ≤ self.old.spare }
        ensures answer { Decides self.old.caller self.old.log self.new.log q key owner look args verdict result }
        ensures door { (self.new.caller ≡ self.old.caller) × (self.new.opened ≡ self.old.opened) }
        ensures limit { self.new.limit ≡ self.old.limit }
        ensures spare { self.old.spare ≤ self.new.spare + 1 }
        ensures legal { IsLegal self.new.limit self.new.log }
    {
        let newer = self.look(owner);
        if newer.changes > look.changes {
            return Err(newer);
        }
        let state = self.state(key);
        let act = Act::Call {
            key,
            q,
            site: look.site,
            args,
            verdict,
        };
        self.write(act, key, state);
        Ok(())
    }
}
