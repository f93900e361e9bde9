//! Types of values and of methods.

ghost use Rattle.std.specs.Prelude.{◌≡◌, ◌↔◌, IsTrue};
ghost use Rattle.hb_types.specs.Types.{IsBelow, is_below, join_of};

use crate::ids::ClassId;

/// How many parameters a method has at most.
pub const PARAMS_MAX: usize = 4;

/// The type of a value.
#[derive(Clone, Copy, Debug, Default, PartialEq, Eq, Hash)]
pub enum Ty {
    #[default]
    Nil,
    Bool,
    Int,
    Str,
    Any,
    Class(ClassId),
}

/// The type of a method: what it takes and what it gives.
#[derive(Clone, Copy, Debug, PartialEq, Eq, Hash)]
pub struct MethodTy {
    /// How many parameters there are.
    pub count: u8,
    /// The parameters in their order, filled with `Nil` past the count.
    pub params: [Ty; PARAMS_MAX],
    pub result: Ty,
}

/// Whether each value of the type `a` is one of the type `b`.
pub fn below(a: Ty, b: Ty) -> bool
    ensures order { IsTrue result ↔ IsBelow a b }
    ensures computed { result ≡ is_below a b }
{
    a == b || a == Ty::Nil || b == Ty::Any
}

/// The greater of two types where one is below the other, else `Any`.
pub fn join(a: Ty, b: Ty) -> Ty
    ensures { result ≡ join_of a b }
{
    if below(a, b) {
        b
    } else if below(b, a) {
        a
    } else {
        Ty::Any
    }
}
