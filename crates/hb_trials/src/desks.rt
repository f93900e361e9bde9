//! Steps by hand at a desk: a method gets a type or a definition, or is called.

ghost use Rattle.std.specs.Prelude.{◌<◌, length, IfOk, OnOk};
ghost use Rattle.hb_call.specs.Calling.{IsArgKinds};
ghost use Rattle.hb_call.specs.Entering.{IsFramed};
ghost use Rattle.hb_call.specs.OwnCache.{IsTrueCache};
ghost use Rattle.hb_trials.specs.Desks.{FreedIfRefused, HoldSame, IsAloneAt, IsReady, StaysReady};

use crate::declarations::Declared;
use hb_cache::Cache;
use hb_call::{CallFail, Entered, Share, enter, leave};
use hb_names::Names;
use hb_tables::desk::{DefAnswer, Desk, TypeAnswer};
use hb_tables::entry::{ArgKinds, BODIES_MAX, Verdict};
use hb_tree::limits::TYPES_MAX;
use hb_tree::program::Program;
use hb_types::ids::{BodySite, CallNo, TypeSite};
use std::alloc::Global;

/// The number of each call. The frame of the one before has ended.
pub const CALL: CallNo = CallNo(1);

/// Gives a method a type. Where that is done, each check that used its type is dropped.
pub fn give_type<D: Desk, N: Names>(
    alloc: Global,
    prog: &Program,
    method: Declared,
    site: TypeSite,
    desk: &mut D,
    names: &mut N,
    cache: &mut Cache,
) -> Result<TypeAnswer, CallFail>
    requires name { method.name.0 < length prog.now.names }
    requires site { site.0 < TYPES_MAX }
    ensures held { HoldSame (D.fixed desk.old) (D.fixed desk.new) (D.front desk.old) (D.front desk.new) }
    ensures ready { OnOk result (StaysReady prog.now (N.known names.old) (N.known names.new) (N.asked names.old) (N.asked names.new)
        (D.fixed desk.old) (D.fixed desk.new) (D.front desk.old) (D.front desk.new) cache.old cache.new) }
{
    let key = names.key(alloc, method.class, prog.name(method.name))?;
    desk.reserve(alloc, 1)?;
    let answer = desk.set_type(key, site);
    if answer == TypeAnswer::Done {
        cache.drop_type(key);
    }
    Ok(answer)
}

/// Gives a method a definition. Where that is done, the check of the one before is dropped.
pub fn give_def<D: Desk, N: Names>(
    alloc: Global,
    prog: &Program,
    method: Declared,
    site: BodySite,
    desk: &mut D,
    names: &mut N,
    cache: &mut Cache,
) -> Result<DefAnswer, CallFail>
    requires name { method.name.0 < length prog.now.names }
    requires site { site.0 < BODIES_MAX }
    ensures held { HoldSame (D.fixed desk.old) (D.fixed desk.new) (D.front desk.old) (D.front desk.new) }
    ensures ready { OnOk result (StaysReady prog.now (N.known names.old) (N.known names.new) (N.asked names.old) (N.asked names.new)
        (D.fixed desk.old) (D.fixed desk.new) (D.front desk.old) (D.front desk.new) cache.old cache.new) }
{
    let key = names.key(alloc, method.class, prog.name(method.name))?;
    desk.reserve(alloc, 1)?;
    let answer = desk.set_def(key, site);
    if answer == DefAnswer::Done {
        cache.drop_def(key);
    }
    Ok(answer)
}

/// Decides a call. Where it enters, its frame holds its keys.
pub fn call<D: Desk, N: Names>(
    alloc: Global,
    prog: &Program,
    method: Declared,
    args: ArgKinds,
    desk: &mut D,
    names: &mut N,
    cache: &mut Cache,
    share: &mut Share,
) -> Result<Entered, CallFail>
    requires name { method.name.0 < length prog.now.names }
    requires args { IsArgKinds args }
    requires ready { IsReady prog.now (N.known names.old) (N.asked names.old) (D.fixed desk.old) (D.front desk.old) cache.old }
    ensures framed { IfOk result (IsFramed (D.fixed desk.new).caller CALL (D.front desk.new)) }
    ensures refused { IfOk result (FreedIfRefused (D.fixed desk.new) (D.front desk.new)) }
    ensures alone { IsAloneAt CALL.0 (D.fixed desk.new) (D.front desk.new) }
    ensures checks { OnOk result (IsTrueCache prog.now (N.known names.new) (N.asked names.new) (D.fixed desk.new).caller (D.front desk.new) cache.new) }
{
    enter(
        alloc,
        prog,
        CALL,
        method.class,
        method.name,
        args,
        desk,
        names,
        cache,
        share,
    )
}

/// What becomes of a call. Where it enters, its frame ends at once.
pub fn verdict<D: Desk, N: Names>(
    alloc: Global,
    prog: &Program,
    method: Declared,
    args: ArgKinds,
    desk: &mut D,
    names: &mut N,
    cache: &mut Cache,
    share: &mut Share,
) -> Result<Verdict, CallFail>
    requires name { method.name.0 < length prog.now.names }
    requires args { IsArgKinds args }
    requires ready { IsReady prog.now (N.known names.old) (N.asked names.old) (D.fixed desk.old) (D.front desk.old) cache.old }
    ensures ready { OnOk result (IsReady prog.now (N.known names.new) (N.asked names.new) (D.fixed desk.new) (D.front desk.new) cache.new) }
{
    match call(alloc, prog, method, args, desk, names, cache, share)? {
        Entered::Frame(frame, by) => {
            leave(frame, desk);
            Ok(Verdict::Enter(by))
        }
        Entered::Refused(verdict) => Ok(verdict),
    }
}
