//! What tests do at a desk by hand.

ghost use Rattle.std.specs.Prelude.{◌<◌, length, OnOk};
ghost use Rattle.hb_call.specs.Calling.{IsArgKinds};
ghost use Rattle.hb_trials.specs.Desks.{IsReady, StaysReady};

use crate::declarations::{Declared, method_of};
use crate::desks::{give_def, give_type};
use hb_cache::Cache;
use hb_names::Names;
use hb_tables::desk::{DefAnswer, Desk, TypeAnswer};
use hb_tables::entry::{ArgKinds, BODIES_MAX};
use hb_tree::limits::TYPES_MAX;
use hb_tree::program::Program;
use hb_types::ids::{BodySite, CallerId, TypeSite};
use hb_types::types::Ty;
use std::alloc::Global;
use std::process::Abort;
use std::test::Fail;

/// A caller with no call yet.
pub const CALLER: CallerId = CallerId(1);

pub const NO_ARGUMENT: ArgKinds = ArgKinds {
    count: 0,
    kinds: [Ty::Nil; 4],
};

/// One argument of this kind.
pub fn one(kind: Ty) -> ArgKinds
    ensures { IsArgKinds result }
{
    ArgKinds {
        count: 1,
        kinds: [kind, Ty::Nil, Ty::Nil, Ty::Nil],
    }
}

/// The method of a program's declaration.
pub fn method(rt: &impl Abort, prog: &Program, site: u16) -> Declared
    ensures { result.name.0 < length prog.now.names }
{
    assert!(rt; (site as usize) < prog.types());
    method_of(prog, TypeSite(site)).expect(rt, "a plain name")
}

/// What a method is given: the declared type of this number in its program, or the definition of it. Both are of the
/// same method there.
#[derive(Clone, Copy, Debug, PartialEq, Eq)]
pub enum Change {
    Type(u16),
    Def(u16),
}

/// The types and the definitions of a program's first two methods.
pub const BOTH: [Change; 4] = [
    Change::Type(0),
    Change::Def(0),
    Change::Type(1),
    Change::Def(1),
];

/// Gives a method a type or a definition.
pub fn make_change<D: Desk, N: Names>(
    rt: &impl Abort,
    alloc: Global,
    prog: &Program,
    change: Change,
    desk: &mut D,
    names: &mut N,
    cache: &mut Cache,
) -> Result<(), Fail>
    ensures { OnOk result (StaysReady prog.now (N.known names.old) (N.known names.new) (N.asked names.old) (N.asked names.new)
        (D.fixed desk.old) (D.fixed desk.new) (D.front desk.old) (D.front desk.new) cache.old cache.new) }
{
    match change {
        Change::Type(number) => {
            let method = method(rt, prog, number);
            assert!(rt; (number as usize) < TYPES_MAX);
            let site = TypeSite(number);
            let answer = give_type(alloc, prog, method, site, desk, names, cache)?;
            assert_eq!(rt; answer, TypeAnswer::Done);
        }
        Change::Def(number) => {
            let method = method(rt, prog, number);
            assert!(rt; (number as usize) < BODIES_MAX);
            let site = BodySite(number);
            let answer = give_def(alloc, prog, method, site, desk, names, cache)?;
            assert_eq!(rt; answer, DefAnswer::Done);
        }
    }
    Ok(())
}

/// Gives methods their types and definitions, one after another.
pub fn make_changes<D: Desk, N: Names>(
    rt: &impl Abort,
    alloc: Global,
    prog: &Program,
    changes: &[Change],
    desk: &mut D,
    names: &mut N,
    cache: &mut Cache,
) -> Result<(), Fail>
    requires { IsReady prog.now (N.known names.old) (N.asked names.old) (D.fixed desk.old) (D.front desk.old) cache.old }
    ensures { OnOk result (IsReady prog.now (N.known names.new) (N.asked names.new) (D.fixed desk.new) (D.front desk.new) cache.new) }
{
    for next in changes {
        make_change(rt, alloc, prog, *next, desk, names, cache)?;
    }
    Ok(())
}
