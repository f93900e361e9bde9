//! Calls of whole programs, decided by hand.

ghost use Rattle.std.specs.Prelude.{◌<◌, length};
ghost use Rattle.hb_call.specs.Calling.{IsArgKinds};
ghost use Rattle.hb_call.specs.Held.{Holds};

use crate::declarations::Declared;
use crate::desks::{call, give_type, verdict};
use crate::hands::{BOTH, CALLER, Change, NO_ARGUMENT, make_changes, method, one};
use crate::texts::{TWO, UNLIKE, read};
use hb_cache::Cache;
use hb_call::{CallFail, Entered, Frame, Share, leave};
use hb_deriv::ill::Reason;
use hb_names::{Names, PlainNames};
use hb_tables::desk::{Desk, TypeAnswer};
use hb_tables::entry::{ArgKinds, By, VERSIONS_MAX, Verdict};
use hb_tables::plain::PlainTables;
use hb_tree::limits::TYPES_MAX;
use hb_tree::program::Program;
use hb_types::ids::TypeSite;
use hb_types::types::Ty;
use std::alloc::Global;
use std::process::Abort;
use std::test::Fail;

// What becomes of the call of a program's first method behind these changes.
fn called(
    rt: &impl Abort,
    alloc: Global,
    prog: &Program,
    changes: &[Change],
    args: ArgKinds,
) -> Result<Verdict, Fail>
    requires { IsArgKinds args }
{
    let mut tables = PlainTables::new(alloc, VERSIONS_MAX)?;
    let mut desk = tables.desk(CALLER);
    let mut names = PlainNames::new(alloc);
    let mut cache = Cache::new(alloc);
    make_changes(rt, alloc, prog, changes, &mut desk, &mut names, &mut cache)?;
    let first = method(rt, prog, 0);
    Ok(verdict(
        alloc,
        prog,
        first,
        args,
        &mut desk,
        &mut names,
        &mut cache,
        &mut Share::Off,
    )?)
}

const GREETING: &[u8] = b"class A
script main
type A.hi : (Str) -> Str
def A.hi(x) \"hi \" ++ x end
end
";

const TYPE: Change = Change::Type(0);

const DEF: Change = Change::Def(0);

/// What the method is given, the kind of the argument, and what becomes of the call.
const GREETINGS: [(&[Change], Ty, Verdict); 4] = [
    (&[TYPE, DEF], Ty::Int, Verdict::BadArgs),
    (&[DEF], Ty::Str, Verdict::NoType),
    (&[TYPE], Ty::Str, Verdict::NoBody),
    (&[TYPE, DEF], Ty::Str, Verdict::Enter(By::Fresh)),
];

#[test]
fn a_call_wants_a_definition_a_type_and_arguments(rt: HostRuntime) -> Result<(), Fail> {
    let prog = read(&rt, rt.alloc(), GREETING);
    for (changes, kind, expected) in GREETINGS {
        let verdict = called(&rt, rt.alloc(), &prog, changes, one(kind))?;
        assert_eq!(rt; verdict, expected, "{changes:?} {kind:?}");
    }
    Ok(())
}

#[test]
fn a_body_with_a_fault_is_not_entered(rt: HostRuntime) -> Result<(), Fail> {
    let prog = read(&rt, rt.alloc(), UNLIKE);
    let Verdict::IllTyped(ill) = called(&rt, rt.alloc(), &prog, &[TYPE, DEF], one(Ty::Bool))? else {
        panic!(rt; "no fault");
    };
    assert!(rt; (ill.node.0 as usize) < prog.nodes());
    assert_eq!(rt;
        (ill.reason, prog.place(ill.node)),
        (Reason::Operand, (4, 44))
    );
    Ok(())
}

// What becomes of a type that a method is given before a frame leaves, and behind that.
fn given_twice<D: Desk, N: Names>(
    alloc: Global,
    prog: &Program,
    frame: Frame,
    method: Declared,
    site: TypeSite,
    desk: &mut D,
    names: &mut N,
    cache: &mut Cache,
) -> Result<[TypeAnswer; 2], CallFail>
    requires name { method.name.0 < length prog.now.names }
    requires site { site.0 < TYPES_MAX }
    requires live { Holds (D.fixed desk.old).caller frame.q.0 frame.held.items (D.front desk.old) }
{
    let before = give_type(alloc, prog, method, site, desk, names, cache)?;
    leave(frame, desk);
    let behind = give_type(alloc, prog, method, site, desk, names, cache)?;
    Ok([before, behind])
}

#[test]
fn a_type_that_a_frame_uses_stays_until_it_leaves(rt: HostRuntime) -> Result<(), Fail> {
    let alloc = rt.alloc();
    let prog = read(&rt, alloc, TWO);
    let g = method(&rt, &prog, 0);
    let f = method(&rt, &prog, 1);
    let mut tables = PlainTables::new(alloc, VERSIONS_MAX)?;
    let mut desk = tables.desk(CALLER);
    let mut names = PlainNames::new(alloc);
    let mut cache = Cache::new(alloc);
    make_changes(&rt, alloc, &prog, &BOTH, &mut desk, &mut names, &mut cache)?;
    let entered = call(
        alloc,
        &prog,
        f,
        NO_ARGUMENT,
        &mut desk,
        &mut names,
        &mut cache,
        &mut Share::Off,
    )?;
    let Entered::Frame(frame, _) = entered else {
        panic!(rt; "no frame");
    };
    let given = given_twice(
        alloc,
        &prog,
        frame,
        g,
        TypeSite(2),
        &mut desk,
        &mut names,
        &mut cache,
    )?;
    assert_eq!(rt; given, [TypeAnswer::Busy { pins: 1 }, TypeAnswer::Done]);
    Ok(())
}
