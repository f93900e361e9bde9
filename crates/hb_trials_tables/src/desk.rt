//! One caller at its desk.

ghost use Rattle.std.specs.Prelude.{◌≡◌, ◌≤◌, length, drop, IfOk, OnOk};
ghost use Rattle.hb_tables.specs.Answers.{DefAdds};
ghost use Rattle.hb_tables.specs.Plain.{AreOwn};

use hb_tables::desk::{DefAnswer, Desk, Held, Look, TypeAnswer};
use hb_tables::entry::{ArgKinds, Verdict};
use hb_tables::plain::PlainTables;
use hb_types::ids::{BodySite, CallNo, CallerId, KeyId, TypeSite};
use hb_types::types::Ty;
use std::alloc::{AllocError, Global};
use std::test::Fail;

const KEY: KeyId = KeyId(3);

const CALL: CallNo = CallNo(1);

#[test]
fn a_held_type_is_not_changed(rt: HostRuntime) -> Result<(), Fail> {
    let mut tables = PlainTables::new(rt.alloc(), 1)?;
    let mut desk = tables.desk(CallerId(0));
    desk.reserve(rt.alloc(), 8)?;
    let held = desk.hold(CALL, KEY);
    let busy = desk.set_type(KEY, TypeSite(5));
    desk.free(CALL, KEY);
    let done = desk.set_type(KEY, TypeSite(5));
    let worn = desk.set_type(KEY, TypeSite(6));
    let expected = Held {
        ty: None,
        changes: 0,
    };
    assert_eq!(rt; held, expected);
    let rows = [
        (busy, TypeAnswer::Busy { pins: 1 }),
        (done, TypeAnswer::Done),
        (worn, TypeAnswer::Worn),
    ];
    for (answer, expected) in rows {
        assert_eq!(rt; answer, expected);
    }
    assert_eq!(rt; tables.history().len(), 5);
    Ok(())
}

#[test]
fn a_newer_definition_is_told(rt: HostRuntime) -> Result<(), Fail> {
    let mut tables = PlainTables::new(rt.alloc(), 2)?;
    let mut desk = tables.desk(CallerId(0));
    desk.reserve(rt.alloc(), 8)?;
    desk.hold(CALL, KEY);
    let first = desk.set_def(KEY, BodySite(4));
    let look = desk.look(KEY);
    let second = desk.set_def(KEY, BodySite(5));
    let args = ArgKinds {
        count: 0,
        kinds: [Ty::Nil; 4],
    };
    let late = desk.decide(CALL, KEY, KEY, look, args, Verdict::NoType);
    let third = desk.set_def(KEY, BodySite(6));
    let seen = |site, changes| Look {
        site: Some(BodySite(site)),
        changes,
    };
    assert_eq!(rt; look, seen(4, 1));
    assert_eq!(rt; late, Err(seen(5, 2)));
    let rows = [
        (first, DefAnswer::Done),
        (second, DefAnswer::Done),
        (third, DefAnswer::Worn),
    ];
    for (answer, expected) in rows {
        assert_eq!(rt; answer, expected);
    }
    Ok(())
}

#[test]
fn a_call_is_decided(rt: HostRuntime) -> Result<(), Fail> {
    let mut tables = PlainTables::new(rt.alloc(), 1)?;
    let mut desk = tables.desk(CallerId(2));
    assert_eq!(rt; desk.caller(), CallerId(2));
    desk.reserve(rt.alloc(), 3)?;
    desk.hold(CALL, KEY);
    let look = desk.look(KEY);
    let args = ArgKinds {
        count: 1,
        kinds: [Ty::Int, Ty::Nil, Ty::Nil, Ty::Nil],
    };
    let decided = desk.decide(CALL, KEY, KEY, look, args, Verdict::NoBody);
    desk.free(CALL, KEY);
    assert_eq!(rt; decided, Ok(()));
    assert_eq!(rt; tables.history().len(), 3);
    Ok(())
}

// A caller that knows no more of its desk than the trait says.
fn set<D: Desk>(desk: &mut D) -> DefAnswer
    requires { 1 ≤ D.spare desk.old }
    ensures entry { DefAdds (D.fixed desk.old).caller (D.front desk.old) (D.front desk.new) KEY (record { 0 = 4 }) result }
    ensures fixed { D.fixed desk.new ≡ D.fixed desk.old }
{
    desk.set_def(KEY, BodySite(4))
}

// Behind the desk the tables are what it knew last, and what came since it was opened is its caller's own.
fn set_plain(alloc: Global, tables: &mut PlainTables) -> Result<DefAnswer, AllocError>
    ensures entry { IfOk result (DefAdds 1 tables.old.log tables.new.log KEY (record { 0 = 4 })) }
    ensures own { OnOk result (AreOwn 1 (drop (length tables.old.log) tables.new.log)) }
{
    let mut desk = tables.desk(CallerId(1));
    desk.reserve(alloc, 1)?;
    let answer = set(&mut desk);
    tables.history();
    Ok(answer)
}

#[test]
fn the_tables_end_as_the_desk_knew_them(rt: HostRuntime) -> Result<(), Fail> {
    let mut tables = PlainTables::new(rt.alloc(), 1)?;
    let answer = set_plain(rt.alloc(), &mut tables)?;
    assert_eq!(rt; answer, DefAnswer::Done);
    assert_eq!(rt; tables.history().len(), 1);
    Ok(())
}
