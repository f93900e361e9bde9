//! Derivations of checks, taken as they are and refused where they were changed.

use crate::lookups::OneType;
use crate::texts::{made, read};
use hb_check::{Checked, check};
use hb_deriv::raw::{Derivation, RawDerivation};
use hb_tree::program::Program;
use hb_types::ids::{BodySite, ClassId, NameId, TypeSite};
use hb_types::types::Ty;
use hb_verify::{VerifyFail, verify};
use std::alloc::Global;
use std::process::Abort;
use std::test::Fail;

// What a check of a body finds, where each method has the type of the first declaration.
pub fn derived(
    rt: &impl Abort,
    alloc: Global,
    prog: &Program,
    class: ClassId,
    body: BodySite,
    declared: TypeSite,
) -> RawDerivation {
    let mut lookup = OneType::new(alloc, TypeSite(0));
    assert!(rt; (body.0 as usize) < prog.bodies());
    assert!(rt; (declared.0 as usize) < prog.types());
    // Its count tells that it is a program, whose names a lookup takes.
    let _nodes = prog.nodes();
    let found = check(alloc, prog, class, body, declared, &mut lookup).expect(rt, "an answer");
    match found {
        Checked::Good(good) => RawDerivation {
            class: good.class,
            body: good.body,
            declared: good.declared,
            uses: good.uses,
            steps: good.steps,
        },
        Checked::Bad(ill) => panic!(rt; "{ill:?}"),
    }
}

/// What the verifier answers.
pub fn verified(
    rt: &impl Abort,
    alloc: Global,
    prog: &Program,
    raw: &RawDerivation,
) -> Result<Derivation, VerifyFail> {
    assert!(rt; (raw.body.0 as usize) < prog.bodies());
    assert!(rt; (raw.declared.0 as usize) < prog.types());
    verify(alloc, prog, raw)
}

// Why a derivation is refused; none where it is taken.
fn refusal(
    rt: &impl Abort,
    alloc: Global,
    prog: &Program,
    raw: &RawDerivation,
) -> Option<VerifyFail> {
    verified(rt, alloc, prog, raw).err()
}

#[test]
fn what_a_check_derives_is_taken(rt: HostRuntime) -> Result<(), Fail> {
    let prog = made(&rt, rt.alloc(), 2);
    for (class, site) in [(0, 0), (0, 1), (1, 2), (1, 3)] {
        let raw = derived(
            &rt,
            rt.alloc(),
            &prog,
            ClassId(class),
            BodySite(site),
            TypeSite(site),
        );
        assert_eq!(rt; refusal(&rt, rt.alloc(), &prog, &raw), None);
        let taken = verified(&rt, rt.alloc(), &prog, &raw).expect(&rt, "a derivation");
        assert_eq!(rt; taken.uses, raw.uses);
        assert_eq!(rt; taken.steps, raw.steps);
    }
    Ok(())
}

/// A change of the derivation of a sum, which has one use and 16 steps.
#[derive(Clone, Copy, Debug)]
enum Change {
    NoUse,
    UseTwice,
    UseOfAnotherName,
    UseAt(u16),
    StepOfAnotherType(usize),
    StepsInAnotherOrder(usize),
    NoLastStep,
    LastStepTwice,
    OfClass(u8),
    OfBody(u16),
    DeclaredAt(u16),
}

use Change::{
    DeclaredAt, LastStepTwice, NoLastStep, NoUse, OfBody, OfClass, StepOfAnotherType,
    StepsInAnotherOrder, UseAt, UseOfAnotherName, UseTwice,
};

/// Changes, and where the walk stops then. Step 5 is `self`, step 8 the call, and step 15 the last one.
const CHANGES: [(Change, VerifyFail); 14] = [
    (NoUse, VerifyFail::Uses(0)),
    (UseTwice, VerifyFail::Uses(1)),
    (UseOfAnotherName, VerifyFail::Uses(0)),
    (UseAt(1), VerifyFail::Step(8)),
    (UseAt(99), VerifyFail::Step(8)),
    (StepOfAnotherType(0), VerifyFail::Step(0)),
    (StepOfAnotherType(8), VerifyFail::Step(8)),
    (StepOfAnotherType(15), VerifyFail::Step(15)),
    (StepsInAnotherOrder(6), VerifyFail::Step(6)),
    (NoLastStep, VerifyFail::Step(15)),
    (LastStepTwice, VerifyFail::Step(16)),
    (OfClass(1), VerifyFail::Step(5)),
    (OfBody(3), VerifyFail::Step(0)),
    (DeclaredAt(0), VerifyFail::Step(0)),
];

fn make(rt: &impl Abort, raw: &mut RawDerivation, change: Change) -> Result<(), Fail> {
    assert!(rt; raw.uses.len() == 1);
    assert!(rt; raw.steps.len() == 16);
    let used = raw.uses[0];
    let last = raw.steps[15];
    match change {
        NoUse => raw.uses.clear(),
        UseTwice => raw.uses.push(used)?,
        UseOfAnotherName => raw.uses[0].name = NameId(100),
        UseAt(site) => raw.uses[0].site = TypeSite(site),
        StepOfAnotherType(i) => raw.steps[i % 16].ty = Ty::Any,
        StepsInAnotherOrder(i) => raw.steps.swap(i % 15, i % 15 + 1),
        NoLastStep => raw.steps.truncate(15),
        LastStepTwice => raw.steps.push(last)?,
        OfClass(class) => raw.class = ClassId(class),
        OfBody(body) => raw.body = BodySite(body),
        DeclaredAt(site) => raw.declared = TypeSite(site),
    }
    Ok(())
}

#[test]
fn a_changed_derivation_is_refused_at_its_first_fault(rt: HostRuntime) -> Result<(), Fail> {
    let prog = made(&rt, rt.alloc(), 2);
    for (change, expected) in &CHANGES {
        let mut raw = derived(&rt, rt.alloc(), &prog, ClassId(0), BodySite(1), TypeSite(1));
        make(&rt, &mut raw, *change)?;
        assert_eq!(rt;
            refusal(&rt, rt.alloc(), &prog, &raw),
            Some(*expected),
            "{change:?}"
        );
    }
    Ok(())
}

#[test]
fn a_type_above_the_declared_one_is_a_fault_behind_all_steps(rt: HostRuntime) -> Result<(), Fail> {
    let text =
        b"class A;script s;type A.f : () -> Int;type A.f : () -> Str;def A.f() 1 + 2 end;end";
    let prog = read(&rt, rt.alloc(), text);
    let mut raw = derived(&rt, rt.alloc(), &prog, ClassId(0), BodySite(0), TypeSite(0));
    raw.declared = TypeSite(1);
    assert_eq!(rt;
        refusal(&rt, rt.alloc(), &prog, &raw),
        Some(VerifyFail::Step(3))
    );
    Ok(())
}

#[test]
fn a_method_that_is_called_twice_has_one_use(rt: HostRuntime) -> Result<(), Fail> {
    let text =
        b"class A;script s;type A.g : () -> Int;type A.f : () -> Int;def A.f() self.g + self.g end;end";
    let prog = read(&rt, rt.alloc(), text);
    let mut raw = derived(&rt, rt.alloc(), &prog, ClassId(0), BodySite(0), TypeSite(1));
    assert_eq!(rt; raw.uses.len(), 1);
    assert_eq!(rt; refusal(&rt, rt.alloc(), &prog, &raw), None);
    let used = raw.uses[0];
    raw.uses.push(used)?;
    assert_eq!(rt;
        refusal(&rt, rt.alloc(), &prog, &raw),
        Some(VerifyFail::Uses(1))
    );
    Ok(())
}
