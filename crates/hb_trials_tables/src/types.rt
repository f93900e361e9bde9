//! The order of types, and the variables of a body.

use hb_types::env::{Env, EnvFull};
use hb_types::ids::{ClassId, NameId};
use hb_types::types::{Ty, below};

#[test]
fn nil_is_the_least_and_any_the_greatest(rt: HostRuntime) {
    let (a, b) = (Ty::Class(ClassId(0)), Ty::Class(ClassId(1)));
    let cases = [
        (Ty::Nil, Ty::Int, true),
        (Ty::Int, Ty::Nil, false),
        (Ty::Str, Ty::Any, true),
        (Ty::Any, Ty::Str, false),
        (Ty::Nil, Ty::Any, true),
        (Ty::Bool, Ty::Bool, true),
        (Ty::Bool, Ty::Int, false),
        (a, a, true),
        (a, b, false),
        (a, Ty::Any, true),
        (Ty::Nil, b, true),
    ];
    for (one, other, expected) in cases {
        assert_eq!(rt; below(one, other), expected, "{one:?} below {other:?}");
    }
}

#[test]
fn joins_and_loops(rt: HostRuntime) {
    let class = Ty::Class(ClassId(0));
    let cases = [
        (Some(Ty::Int), Some(Ty::Int), Some(Ty::Int), true),
        (Some(Ty::Int), Some(Ty::Nil), Some(Ty::Int), true),
        (Some(Ty::Nil), Some(Ty::Int), Some(Ty::Int), false),
        (Some(Ty::Int), Some(Ty::Str), Some(Ty::Any), false),
        (Some(class), Some(Ty::Nil), Some(class), true),
        (Some(Ty::Any), Some(class), Some(Ty::Any), true),
        (Some(Ty::Int), None, None, false),
        (None, Some(Ty::Int), None, true),
    ];
    let name = NameId(7);
    for (first, second, joined, kept) in cases {
        let (one, other) = (with(name, first), with(name, second));
        assert_eq!(rt;
            one.join(&other).get(name),
            joined,
            "{first:?} and {second:?}"
        );
        assert_eq!(rt; one.keeps(&other), kept, "{first:?} and {second:?}");
        assert_eq!(rt; one.copied().get(name), first, "{first:?}");
    }
}

#[test]
fn has_room_for_32(rt: HostRuntime) {
    let mut env = Env::new();
    for name in 0..32 {
        assert_eq!(rt; env.set(NameId(name), Ty::Int), Ok(()), "{name}");
    }
    assert_eq!(rt; env.set(NameId(32), Ty::Int), Err(EnvFull));
    assert_eq!(rt; env.set(NameId(31), Ty::Str), Ok(()));
    assert_eq!(rt; env.get(NameId(31)), Some(Ty::Str));
    assert_eq!(rt; env.get(NameId(32)), None);
}

fn with(name: NameId, ty: Option<Ty>) -> Env {
    let mut env = Env::new();
    if let Some(ty) = ty {
        let _ = env.set(name, ty);
    }
    env
}
