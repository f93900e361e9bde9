//! Bodies of whole texts, checked.

use crate::declarations::Declarations;
use crate::texts::{TWO, UNLIKE, read};
use hb_check::{Checked, check};
use hb_deriv::ill::Reason;
use hb_lex::lex;
use hb_parse::parse;
use hb_tree::program::Program;
use hb_types::ids::{BodySite, ClassId, TypeSite};
use hb_types::types::Ty;
use std::alloc::Global;
use std::process::Abort;
use std::test::Fail;
use std::thread;

// What a check finds of a program's body with self of its first class, by its first `count` declarations.
fn checked(
    rt: &impl Abort,
    alloc: Global,
    prog: &Program,
    body: u16,
    declared: u16,
    count: usize,
) -> Result<(Checked, Declarations), Fail> {
    let mut table = Declarations::of(alloc, prog, count)?;
    assert!(rt; (body as usize) < prog.bodies());
    assert!(rt; (declared as usize) < prog.types());
    // Its count tells that it is a program, whose names a table takes.
    let _nodes = prog.nodes();
    let found = check(
        alloc,
        prog,
        ClassId(0),
        BodySite(body),
        TypeSite(declared),
        &mut table,
    );
    Ok((found.expect(rt, "an answer"), table))
}

// The reason and the place of a fault, where there is one.
fn fault_of(prog: &Program, found: &Checked) -> Option<(Reason, (u32, u32))> {
    match found {
        Checked::Bad(ill) if (ill.node.0 as usize) < prog.nodes() => {
            Some((ill.reason, prog.place(ill.node)))
        }
        _ => None,
    }
}

/// What stands before each body of the table. The body begins behind it, at column 15 of line 9.
const BEFORE: &[u8] = b"class A
class B
script s
type A.f : (Int, Str) -> Any
type A.f : (Int, Str) -> Int
type A.f : (Int) -> Any
type A.g : (Int, Any) -> Int
type B.h : () -> B
def A.f(x, y) ";

const BEHIND: &[u8] = b" end
end
";

/// What is expected of a body: the type of its last expression, or the reason of its fault and how many bytes into the
/// body the token of the fault stands.
enum Expected {
    Typed(Ty),
    Fails(Reason, u32),
}

use Expected::{Fails, Typed};

/// Bodies, the site of the declared type, and what is expected.
const BODIES: [(&[u8], u16, Expected); 54] = [
    (b"nil", 0, Typed(Ty::Nil)),
    (b"true", 0, Typed(Ty::Bool)),
    (b"false", 0, Typed(Ty::Bool)),
    (b"7", 0, Typed(Ty::Int)),
    (b"\"a\"", 0, Typed(Ty::Str)),
    (b"self", 0, Typed(Ty::Class(ClassId(0)))),
    (b"x", 0, Typed(Ty::Int)),
    (b"z", 0, Fails(Reason::Unbound, 0)),
    (b"z + q", 0, Fails(Reason::Unbound, 0)),
    (b"B.new", 0, Typed(Ty::Class(ClassId(1)))),
    (b"z = 5; z", 0, Typed(Ty::Int)),
    (b"x = y; x", 0, Typed(Ty::Str)),
    (b"z = z", 0, Fails(Reason::Unbound, 4)),
    (b"print 5", 0, Typed(Ty::Nil)),
    (b"str(5)", 0, Typed(Ty::Str)),
    (b"not 5", 0, Typed(Ty::Bool)),
    (b"1 + x", 0, Typed(Ty::Int)),
    (b"1 - y", 0, Fails(Reason::Operand, 2)),
    (b"nil * 2", 0, Typed(Ty::Int)),
    (b"y ++ \"a\"", 0, Typed(Ty::Str)),
    (b"y ++ 1", 0, Fails(Reason::Operand, 2)),
    (b"x < 1", 0, Typed(Ty::Bool)),
    (b"y < 1", 0, Fails(Reason::Operand, 2)),
    (b"x == y", 0, Typed(Ty::Bool)),
    (b"if x then 1 else 2 end", 0, Typed(Ty::Int)),
    (b"if x then 1 else y end", 0, Typed(Ty::Any)),
    (b"if x then 1 end", 0, Typed(Ty::Int)),
    (b"if x then z = 1 else z = y end; z", 0, Typed(Ty::Any)),
    (
        b"if x then z = 1 else y end; z",
        0,
        Fails(Reason::Unbound, 28),
    ),
    (b"while x < 3 do x = x + 1 end", 0, Typed(Ty::Nil)),
    (b"while x < 3 do x = y end", 0, Fails(Reason::Loop, 0)),
    (b"while (x = y) == y do x = 3 end", 0, Typed(Ty::Nil)),
    (
        b"while x < 3 do z = 1 end; z",
        0,
        Fails(Reason::Unbound, 26),
    ),
    (b"self.g(1, y)", 0, Typed(Ty::Int)),
    (b"self.g(nil, nil)", 0, Typed(Ty::Int)),
    (b"B.new.h.h", 0, Typed(Ty::Class(ClassId(1)))),
    (b"x.g", 0, Fails(Reason::Receiver, 2)),
    (b"self.k", 0, Fails(Reason::NoType, 5)),
    (b"self.k(z)", 0, Fails(Reason::Unbound, 7)),
    (b"B.new.g", 0, Fails(Reason::NoType, 6)),
    (b"self.g(1)", 0, Fails(Reason::Count, 5)),
    (b"self.g(y, 1)", 0, Fails(Reason::Argument, 5)),
    (b"def A.k() z end", 0, Typed(Ty::Nil)),
    (b"def A.(y)() z end", 0, Typed(Ty::Nil)),
    (b"def A.(x)() z end", 0, Fails(Reason::Operand, 0)),
    (b"type A.k : () -> Int", 0, Typed(Ty::Nil)),
    (b"type? A.k : () -> Int", 0, Typed(Ty::Bool)),
    (b"type A.(y) : () -> Int", 0, Typed(Ty::Nil)),
    (b"type? A.(y) : () -> Int", 0, Typed(Ty::Bool)),
    (b"type? A.(x) : () -> Int", 0, Fails(Reason::Operand, 0)),
    (b"x; y", 0, Typed(Ty::Str)),
    (b"x", 1, Typed(Ty::Int)),
    (b"y", 1, Fails(Reason::Result, 2)),
    (b"x", 2, Fails(Reason::Count, 2)),
];

#[test]
fn each_form_of_a_body_has_its_type_or_fault(rt: HostRuntime) -> Result<(), Fail> {
    for (body, declared, expected) in &BODIES {
        let mut text = Vec::from_slice(rt.alloc(), BEFORE)?;
        text.extend_from_slice(body)?;
        text.extend_from_slice(BEHIND)?;
        let prog = read(&rt, rt.alloc(), &text);
        // The body of the table is the last one to end.
        let last = prog.bodies().saturating_sub(1) as u16;
        let (found, _) = checked(&rt, rt.alloc(), &prog, last, *declared, 5)?;
        match (found, expected) {
            (Checked::Good(derivation), Typed(ty)) => {
                let last = derivation.steps.last().map(|step| step.ty);
                assert_eq!(rt; last, Some(*ty), "{body:?}");
            }
            (found, Typed(_)) => panic!(rt; "{body:?}: {found:?}"),
            (found, Fails(reason, behind)) => {
                let place = (9, behind.saturating_add(15));
                assert_eq!(rt; fault_of(&prog, &found), Some((*reason, place)), "{body:?}");
            }
        }
    }
    Ok(())
}

#[test]
fn a_derivation_has_its_uses_and_steps(rt: HostRuntime) -> Result<(), Fail> {
    let prog = read(&rt, rt.alloc(), TWO);
    let (found, _) = checked(&rt, rt.alloc(), &prog, 1, 1, 2)?;
    let Checked::Good(derivation) = found else {
        panic!(rt; "not well typed");
    };
    let uses = derivation
        .uses
        .iter()
        .map(|used| used.site.0)
        .collect::<Vec<u16>>(rt.alloc())?;
    assert_eq!(rt; uses.as_slice(), [0].as_slice());
    let mut steps = Vec::new(rt.alloc());
    for step in &derivation.steps {
        assert!(rt; (step.node.0 as usize) < prog.nodes());
        steps.push((prog.place(step.node), step.ty))?;
    }
    let expected = [((6, 11), Ty::Class(ClassId(0))), ((6, 16), Ty::Int)];
    assert_eq!(rt; steps.as_slice(), expected.as_slice());
    let (found, _) = checked(&rt, rt.alloc(), &prog, 1, 1, 3)?;
    assert_eq!(rt; fault_of(&prog, &found), Some((Reason::Result, (6, 18))));
    Ok(())
}

#[test]
fn unlike_branches_are_of_any_type(rt: HostRuntime) -> Result<(), Fail> {
    let prog = read(&rt, rt.alloc(), UNLIKE);
    let (found, _) = checked(&rt, rt.alloc(), &prog, 0, 0, 1)?;
    assert_eq!(rt; fault_of(&prog, &found), Some((Reason::Operand, (4, 44))));
    Ok(())
}

#[test]
fn a_method_that_is_called_twice_is_asked_for_once(rt: HostRuntime) -> Result<(), Fail> {
    let text =
        b"class A;script s;type A.g : () -> Int;type A.f : () -> Int;def A.f() self.g + self.g * self.g end;end";
    let prog = read(&rt, rt.alloc(), text);
    let (found, table) = checked(&rt, rt.alloc(), &prog, 0, 1, 2)?;
    let Checked::Good(derivation) = found else {
        panic!(rt; "not well typed");
    };
    assert_eq!(rt; table.answers().len(), 1);
    assert_eq!(rt; derivation.uses.len(), 1);
    assert_eq!(rt; derivation.steps.len(), 8);
    Ok(())
}

/// How many `not`s there are in a program of the greatest height. Above them are the block of the body, its definition
/// and the block of the script.
const NOTS: usize = 252;

// Whether the body of such a program is well typed. None: memory ran out, or the text is no program.
fn highest_is_good(alloc: Global) -> Option<bool> {
    let mut text = Vec::from_slice(
        alloc,
        b"class A;script s;type A.f : () -> Bool;def A.f() ",
    ).ok()?;
    for _ in 0..NOTS {
        text.extend_from_slice(b"not ").ok()?;
    }
    text.extend_from_slice(b"true end;end").ok()?;
    if text.len() > 2_000 {
        return None;
    }
    let tokens = lex(alloc, &text).ok()?;
    let prog = parse(alloc, &text, &tokens).ok()?;
    if prog.bodies() == 0 || prog.types() == 0 {
        return None;
    }
    let mut table = Declarations::of(alloc, &prog, 0).ok()?;
    let found = check(
        alloc,
        &prog,
        ClassId(0),
        BodySite(0),
        TypeSite(0),
        &mut table,
    )
    .ok()?;
    Some(matches!(found, Checked::Good(_)))
}

#[test]
fn the_highest_body_is_checked_inside_a_thread(rt: HostRuntime) -> Result<(), Fail> {
    let alloc = rt.alloc();
    let child = thread::spawn(&rt, move || highest_is_good(alloc))?;
    assert_eq!(rt; child.join(&rt), Some(true));
    Ok(())
}
