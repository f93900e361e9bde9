//! What the machine does at a `def` or a `type` whose name is there.

ghost use Rattle.std.specs.Prelude.{◌≡◌, ◌<◌, ◌≤◌, ℕ, length, IfOk, OnOk, None};
ghost use mathlib.Core.List.{IsPrefix};
ghost use Rattle.hb_tree.specs.Table.{Table};
ghost use Rattle.hb_names.specs.Names.{Differ};
ghost use Rattle.hb_tables.specs.History.{IsLegal};
ghost use Rattle.hb_call.specs.Held.{stands};
ghost use Rattle.hb_call.specs.Growth.{Grown};
ghost use Rattle.hb_call.specs.OwnCache.{KeepsChecks};
ghost use Rattle.hb_eval.specs.Methods as methods;
ghost use Rattle.hb_eval.specs.Steps.{IsPlain, Still, AreKnown, Keeps, weigh_push};
ghost use Rattle.hb_eval.specs.Tables.{ActsOn};

use crate::moves::{give, halt};
use crate::state::{Move, State};
use crate::stop::Stop;
use crate::tables;
use hb_names::{NAME_BYTES_MAX, NAMES_MAX, NameFail, Names};
use hb_tables::desk::Desk;
use hb_tables::entry::BODIES_MAX;
use hb_tree::limits::TYPES_MAX;
use hb_types::ids::{BodySite, ClassId, NodeId, TypeSite};
use std::alloc::{AllocError, Global};

/// The method of this class and name gets the body of a site.
pub(crate) fn define<D: Desk, N: Names>(
    alloc: Global,
    desk: &mut D,
    names: &mut N,
    id: NodeId,
    class: ClassId,
    name: &[u8],
    site: BodySite,
    state: &mut State,
) -> Result<Move, AllocError>
    requires some { 0 < length name.now }
    requires short { length name.now ≤ NAME_BYTES_MAX }
    requires site { site.0 < BODIES_MAX }
    ensures acts { IfOk result (λ m. ActsOn (N.known names.new) (D.fixed desk.old).caller (D.front desk.old) (D.front desk.new)
        (λ w s. methods.define w.names id.0 (class.0, name.now) site.0 s) state.old state.new m) }
    ensures keeps { (t : Table) → IfOk result (Keeps t None state.old state.new) }
    ensures known { (t : Table) → AreKnown t state.old → OnOk result (AreKnown t state.new) }
    ensures light { IfOk result (λ m. weigh_push m.under < 1) }
    ensures plain { IfOk result (λ m. IsPlain m.under × IsPlain m.push) }
    ensures still { Still state.old state.new }
    ensures kept { IsPrefix (D.front desk.old) (D.front desk.new) }
    ensures others { (q : ℕ) → stands (D.fixed desk.old).caller q (D.front desk.new) ≡ stands (D.fixed desk.old).caller q (D.front desk.old) }
    ensures grown { (t : Table) → OnOk result (Grown t (D.fixed desk.old).caller (N.known names.new) (N.asked names.old) (N.asked names.new) (D.front desk.old) (D.front desk.new)) }
    ensures own { (t : Table) → OnOk result (KeepsChecks t (D.fixed desk.old).caller (N.known names.old) (N.known names.new) (N.asked names.old) (N.asked names.new) (D.front desk.old) (D.front desk.new) state.old.cache state.new.cache) }
    ensures legal { IsLegal (D.fixed desk.old).limit (D.front desk.old) → IsLegal (D.fixed desk.old).limit (D.front desk.new) }
    ensures fixed { D.fixed desk.new ≡ D.fixed desk.old }
    ensures named { IsPrefix (N.known names.old) (N.known names.new) }
    ensures few { length (N.known names.old) ≤ NAMES_MAX → length (N.known names.new) ≤ NAMES_MAX }
    ensures names_differ { Differ (N.known names.old) → Differ (N.known names.new) }
    ensures alike { N.alike names.old names.new }
{
    desk.reserve(alloc, 1)?;
    match names.key(alloc, class, name) {
        Ok(key) => match tables::define(desk, &mut state.cache, key, site) {
            Ok(value) => Ok(give(state, value)),
            Err(stop) => Ok(halt(state, stop, id)),
        },
        Err(NameFail::Full) => Ok(halt(state, Stop::Full, id)),
        Err(NameFail::NoMemory) => Err(AllocError),
    }
}

/// The method of this class and name gets the type of a site. One that asks tells whether it did.
pub(crate) fn declare<D: Desk, N: Names>(
    alloc: Global,
    desk: &mut D,
    names: &mut N,
    id: NodeId,
    class: ClassId,
    name: &[u8],
    site: TypeSite,
    asks: bool,
    state: &mut State,
) -> Result<Move, AllocError>
    requires some { 0 < length name.now }
    requires short { length name.now ≤ NAME_BYTES_MAX }
    requires site { site.0 < TYPES_MAX }
    ensures acts { IfOk result (λ m. ActsOn (N.known names.new) (D.fixed desk.old).caller (D.front desk.old) (D.front desk.new)
        (λ w s. methods.declare w.names id.0 asks (class.0, name.now) site.0 s) state.old state.new m) }
    ensures keeps { (t : Table) → IfOk result (Keeps t None state.old state.new) }
    ensures known { (t : Table) → AreKnown t state.old → OnOk result (AreKnown t state.new) }
    ensures light { IfOk result (λ m. weigh_push m.under < 1) }
    ensures plain { IfOk result (λ m. IsPlain m.under × IsPlain m.push) }
    ensures still { Still state.old state.new }
    ensures kept { IsPrefix (D.front desk.old) (D.front desk.new) }
    ensures others { (q : ℕ) → stands (D.fixed desk.old).caller q (D.front desk.new) ≡ stands (D.fixed desk.old).caller q (D.front desk.old) }
    ensures grown { (t : Table) → OnOk result (Grown t (D.fixed desk.old).caller (N.known names.new) (N.asked names.old) (N.asked names.new) (D.front desk.old) (D.front desk.new)) }
    ensures own { (t : Table) → OnOk result (KeepsChecks t (D.fixed desk.old).caller (N.known names.old) (N.known names.new) (N.asked names.old) (N.asked names.new) (D.front desk.old) (D.front desk.new) state.old.cache state.new.cache) }
    ensures legal { IsLegal (D.fixed desk.old).limit (D.front desk.old) → IsLegal (D.fixed desk.old).limit (D.front desk.new) }
    ensures fixed { D.fixed desk.new ≡ D.fixed desk.old }
    ensures named { IsPrefix (N.known names.old) (N.known names.new) }
    ensures few { length (N.known names.old) ≤ NAMES_MAX → length (N.known names.new) ≤ NAMES_MAX }
    ensures names_differ { Differ (N.known names.old) → Differ (N.known names.new) }
    ensures alike { N.alike names.old names.new }
{
    desk.reserve(alloc, 1)?;
    match names.key(alloc, class, name) {
        Ok(key) => match tables::declare(desk, &mut state.cache, key, site, asks) {
            Ok(value) => Ok(give(state, value)),
            Err(stop) => Ok(halt(state, stop, id)),
        },
        Err(NameFail::Full) => Ok(halt(state, Stop::Full, id)),
        Err(NameFail::NoMemory) => Err(AllocError),
    }
}
