//! What is kept of a call that was decided.

ghost use Rattle.std.specs.Prelude.{◌≡◌, ◌⊎◌, List, map, Option, None, Ok, IfErr, IfOk, OnErr, OnOk};
ghost use mathlib.Core.List.{IsPrefix};
ghost use Rattle.hb_names.specs.Names.{Name};
ghost use Rattle.hb_tables.specs.declared.entry.Act.{Act};
ghost use Rattle.hb_tables.specs.History.{IsLegal};
ghost use Rattle.hb_call.specs.Calling.{Given};
ghost use Rattle.hb_call.specs.Entering.{IsOwnAtEnd, IsUndone, MayUndo, entered_of};
ghost use Rattle.hb_call.specs.Held.{stands};
ghost use Rattle.hb_call.specs.Keeping.{IsPut, Shares, seen_of};
ghost use Rattle.hb_call.specs.OwnCache.{IsOwnCache, IsTrueCache};
ghost use Rattle.hb_call.specs.Sharing.{Collects, collected};

use crate::answers::Answer;
use crate::frame::{CallFail, Entered, free_keys};
use crate::ruling::Ended;
use crate::share::Share;
use hb_cache::{Cache, Kept, Seen};
use hb_deriv::raw::Derivation;
use hb_tables::desk::{Desk, Held};
use hb_tables::entry::By;
use hb_types::ids::KeyId;
use std::alloc::{AllocError, Global};

/// Keeps the check that the call made, and ends it where there is no memory for that.
#[inline(always)]
pub fn keep<D: Desk>(
    alloc: Global,
    ended: Ended,
    own: Held,
    answers: &[Answer],
    desk: &mut D,
    cache: &mut Cache,
    share: &mut Share,
) -> Result<Entered, CallFail>
    requires held { MayUndo (D.fixed desk.old).caller (D.front desk.old) ended }
    ensures done { IfOk result (λ e. (e ≡ entered_of ended) × (D.front desk.new ≡ D.front desk.old)) }
    ensures undone { IfErr result (λ e. (e ≡ CallFail.NoMemory) × IsUndone (D.fixed desk.old).caller (D.front desk.old) (D.front desk.new) ended) }
    ensures own { (g : Given) (past : Option (List Act)) (known asked : List Name) → g.door ≡ D.fixed desk.old → g.own ≡ own → g.cache ≡ cache.old
        → IsOwnAtEnd g past known asked (D.front desk.old) answers.now (Ok ended) → OnOk result (IsOwnCache g.t known asked g.door.caller past (D.front desk.new) cache.new) }
    ensures checks { (g : Given) (known asked : List Name) → g.door ≡ D.fixed desk.old → g.own ≡ own → g.cache ≡ cache.old
        → IsOwnAtEnd g None known asked (D.front desk.old) answers.now (Ok ended) → IsTrueCache g.t known asked g.door.caller (D.front desk.new) cache.new }
    ensures collects { (g : Given) (known asked : List Name) → g.door ≡ D.fixed desk.old → g.own ≡ own → g.cache ≡ cache.old
        → IsOwnAtEnd g None known asked (D.front desk.old) answers.now (Ok ended) → Collects g.t known (stands g.door.caller g.q.0 (D.front desk.new)) cache.new share.old share.new result }
    ensures kept { IsPrefix (D.front desk.old) (D.front desk.new) }
    ensures legal { IsLegal (D.fixed desk.old).limit (D.front desk.old) → IsLegal (D.fixed desk.old).limit (D.front desk.new) }
    ensures fixed { D.fixed desk.new ≡ D.fixed desk.old }
{
    match ended {
        Ended::Own(frame) => Ok(Entered::Frame(frame, By::Own)),
        Ended::Refused(verdict) => Ok(Entered::Refused(verdict)),
        Ended::Fresh(frame, derivation) => {
            match put(alloc, frame.key, own, answers, derivation, cache, share) {
                Ok(()) => Ok(Entered::Frame(frame, By::Fresh)),
                Err(_) => {
                    free_keys(desk, frame.q, &frame.held);
                    Err(CallFail::NoMemory)
                }
            }
        }
    }
}

// Puts the check of the key into the cache, and a copy of its derivation into the share.
#[cold]
#[inline(never)]
fn put(
    alloc: Global,
    key: KeyId,
    own: Held,
    answers: &[Answer],
    derivation: Derivation,
    cache: &mut Cache,
    share: &mut Share,
) -> Result<(), AllocError>
    ensures put { OnOk result (IsPut key own answers.now derivation cache.old cache.new) }
    ensures unput { OnErr result ((cache.new ≡ cache.old) ⊎ IsPut key own answers.now derivation cache.old cache.new) }
    ensures shared { OnOk result (Shares derivation (collected share.old) (collected share.new)) }
    ensures unshared { OnErr result (collected share.new ≡ collected share.old) }
{
    let counts = seen(alloc, answers)?;
    let copy = share.copy_for(alloc, &derivation)?;
    let kept = Kept {
        key,
        changes: own.changes,
        counts,
        derivation,
    };
    cache.put(alloc, kept)?;
    share.take(copy)
}

// What is kept of the answers.
fn seen(alloc: Global, answers: &[Answer]) -> Result<Vec<Seen>, AllocError>
    ensures { IfOk result (λ counts. counts.items ≡ map seen_of answers.now) }
{
    let mut counts = Vec::with_capacity(alloc, answers.len())?;
    for answer in answers {
        counts.push(answer.seen())?;
    }
    Ok(counts)
}
