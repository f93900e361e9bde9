//! Frames of calls, and what becomes of a call.

ghost use Rattle.std.specs.Prelude.{◌≡◌, ℕ, Option, List, [], ◌++◌};
ghost use Rattle.hb_cache.specs.declared.kept.Kept.{Kept};
ghost use Rattle.hb_call.specs.OwnCache.{KeepsChecks};
ghost use mathlib.Core.List.{IsPrefix};
ghost use Rattle.hb_tables.specs.Frames.{acts};
ghost use Rattle.hb_tables.specs.History.{IsLegal};
ghost use Rattle.hb_tree.specs.Table.{Table};
ghost use Rattle.hb_names.specs.Names.{Name};
ghost use Rattle.hb_call.specs.Growth.{Grown};
ghost use Rattle.hb_call.specs.Held.{HasCall, HasRoom, Holds, MayFree, frees, stands};

use hb_cache::Cache;
use hb_check::lookup::LookFail;
use hb_names::NameFail;
use hb_tables::desk::Desk;
use hb_tables::entry::{By, Verdict};
use hb_types::ids::{BodySite, CallNo, KeyId};
use std::alloc::{AllocError, AllocFailed};

/// A call whose body runs. The types of the keys that it holds stay while it does.
#[derive(Debug, Drop)]
pub struct Frame {
    pub q: CallNo,
    /// The method that is called.
    pub key: KeyId,
    pub body: BodySite,
    /// The keys that it holds, in the order of its holds.
    pub held: Vec<KeyId>,
}

/// A call that was decided.
#[derive(Debug, Drop)]
pub enum Entered {
    /// Its body may run.
    Frame(Frame, By),
    /// It may not, for this reason.
    Refused(Verdict),
}

/// Why a call was not decided.
#[derive(Clone, Copy, Debug, PartialEq, Eq)]
pub enum CallFail {
    /// The list of names is full, and a name that was asked for is none of them.
    Full,
    NoMemory,
}

impl From<NameFail> for CallFail {
    ghost use Rattle.std.specs.Prelude.{◌≡◌};
    ghost use Rattle.hb_call.specs.Causes.{name_cause};

    ghost from_gives = { λ cause e. e ≡ name_cause cause };

    fn from(cause: NameFail) -> Self {
        match cause {
            NameFail::Full => CallFail::Full,
            NameFail::NoMemory => CallFail::NoMemory,
        }
    }
}

impl From<LookFail> for CallFail {
    ghost use Rattle.std.specs.Prelude.{◌≡◌};
    ghost use Rattle.hb_call.specs.Causes.{look_cause};

    ghost from_gives = { λ cause e. e ≡ look_cause cause };

    fn from(cause: LookFail) -> Self {
        match cause {
            LookFail::Full => CallFail::Full,
            LookFail::NoMemory => CallFail::NoMemory,
        }
    }
}

impl From<AllocError> for CallFail {
    ghost use Rattle.std.specs.Prelude.{◌≡◌};
    ghost use Rattle.hb_call.specs.declared.frame.CallFail.TheVariants.{NoMemory};

    ghost from_gives = { λ _ e. e ≡ NoMemory };

    fn from(_: AllocError) -> Self {
        CallFail::NoMemory
    }
}

impl<T: Drop> From<AllocFailed<T>> for CallFail {
    ghost use Rattle.std.specs.Prelude.{◌≡◌};
    ghost use Rattle.hb_call.specs.declared.frame.CallFail.TheVariants.{NoMemory};

    ghost from_gives = { λ _ e. e ≡ NoMemory };

    fn from(_: AllocFailed<T>) -> Self {
        CallFail::NoMemory
    }
}

/// Ends a frame: its call gives its keys back, in the order of its holds.
pub fn leave<D: Desk>(frame: Frame, desk: &mut D)
    requires held { Holds (D.fixed desk.old).caller frame.q.0 frame.held.items (D.front desk.old) }
    ensures acts { acts (D.fixed desk.old).caller (D.front desk.new) ≡ acts (D.fixed desk.old).caller (D.front desk.old) ++ frees frame.q frame.held.items }
    ensures none { stands (D.fixed desk.old).caller frame.q.0 (D.front desk.new) ≡ [] }
    ensures kept { IsPrefix (D.front desk.old) (D.front desk.new) }
    ensures legal { IsLegal (D.fixed desk.old).limit (D.front desk.old) → IsLegal (D.fixed desk.old).limit (D.front desk.new) }
    ensures others { (p : ℕ) → (p ≡ frame.q.0 → ⊥) → stands (D.fixed desk.old).caller p (D.front desk.new) ≡ stands (D.fixed desk.old).caller p (D.front desk.old) }
    ensures grown { (t : Table) (names asked : List Name) → HasCall (D.fixed desk.old).caller frame.q.0 (D.front desk.old) → Grown t (D.fixed desk.old).caller names asked asked (D.front desk.old) (D.front desk.new) }
    ensures own { (t : Table) (names asked : List Name) (cache : List (Option Kept)) → KeepsChecks t (D.fixed desk.old).caller names names asked asked (D.front desk.old) (D.front desk.new) cache cache }
    ensures fixed { D.fixed desk.new ≡ D.fixed desk.old }
{
    free_keys(desk, frame.q, &frame.held);
}

/// Ends a frame as `leave` does, and keeps its list for the calls to come.
pub fn leave_lent<D: Desk>(frame: Frame, desk: &mut D, cache: &mut Cache)
    requires held { Holds (D.fixed desk.old).caller frame.q.0 frame.held.items (D.front desk.old) }
    ensures acts { acts (D.fixed desk.old).caller (D.front desk.new) ≡ acts (D.fixed desk.old).caller (D.front desk.old) ++ frees frame.q frame.held.items }
    ensures none { stands (D.fixed desk.old).caller frame.q.0 (D.front desk.new) ≡ [] }
    ensures kept { IsPrefix (D.front desk.old) (D.front desk.new) }
    ensures legal { IsLegal (D.fixed desk.old).limit (D.front desk.old) → IsLegal (D.fixed desk.old).limit (D.front desk.new) }
    ensures others { (p : ℕ) → (p ≡ frame.q.0 → ⊥) → stands (D.fixed desk.old).caller p (D.front desk.new) ≡ stands (D.fixed desk.old).caller p (D.front desk.old) }
    ensures grown { (t : Table) (names asked : List Name) → HasCall (D.fixed desk.old).caller frame.q.0 (D.front desk.old) → Grown t (D.fixed desk.old).caller names asked asked (D.front desk.old) (D.front desk.new) }
    ensures own { (t : Table) (names asked : List Name) (cache : List (Option Kept)) → KeepsChecks t (D.fixed desk.old).caller names names asked asked (D.front desk.old) (D.front desk.new) cache cache }
    ensures fixed { D.fixed desk.new ≡ D.fixed desk.old }
    ensures cache { cache.new ≡ cache.old }
{
    let Frame { q, held, .. } = frame;
    free_keys(desk, q, &held);
    cache.give_back(held);
}

/// A call gives these keys back, in their order.
pub(crate) fn free_keys<D: Desk>(desk: &mut D, q: CallNo, keys: &[KeyId])
    requires held { MayFree keys.now (stands (D.fixed desk.old).caller q.0 (D.front desk.old)) }
    ensures acts { acts (D.fixed desk.old).caller (D.front desk.new) ≡ acts (D.fixed desk.old).caller (D.front desk.old) ++ frees q keys.now }
    ensures kept { IsPrefix (D.front desk.old) (D.front desk.new) }
    ensures legal { IsLegal (D.fixed desk.old).limit (D.front desk.old) → IsLegal (D.fixed desk.old).limit (D.front desk.new) }
    ensures room { HasRoom (D.front desk.old) (D.fixed desk.old).caller q.0 → HasRoom (D.front desk.new) (D.fixed desk.old).caller q.0 }
    ensures fixed { D.fixed desk.new ≡ D.fixed desk.old }
{
    for key in keys {
        desk.free(q, *key);
    }
}
