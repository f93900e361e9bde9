//! Taking what lies on top of the pile.

ghost use Rattle.std.specs.Prelude.{◌≡◌, ◌∷◌, List, reverse};
ghost use Rattle.hb_types.specs.declared.ids.ClassId.{ClassId as Class};
ghost use Rattle.hb_types.specs.declared.ids.NameId.{NameId as Name};
ghost use Rattle.hb_types.specs.declared.types.Ty.{Ty as OneTy};
ghost use Rattle.hb_build.specs.declared.held.Held.{Held as Thing};
ghost use Rattle.hb_build.specs.declared.held.Spot.{Spot as Place};

use crate::held::{Held, Spot};
use hb_types::ids::{ClassId, NameId};
use hb_types::types::Ty;

/// Takes off what lies on top.
pub fn drop_top(held: &mut Vec<Held>)
    requires { (top : Thing) × (rest : List Thing) × (reverse held.old.items ≡ top ∷ rest) }
    ensures { (top : Thing) (rest : List Thing) → reverse held.old.items ≡ top ∷ rest → reverse held.new.items ≡ rest }
{
    let _ = held.pop();
}

/// Takes off the own token of a node to come.
pub fn take_own(held: &mut Vec<Held>) -> Spot
    requires { (p : Place) × (rest : List Thing) × (reverse held.old.items ≡ Held.Own p ∷ rest) }
    ensures { reverse held.old.items ≡ Held.Own result ∷ reverse held.new.items }
{
    match held.pop() {
        Some(Held::Own(spot)) => spot,
        _ => unreachable!(),
    }
}

/// Takes off the own token of a declaration to come.
pub fn take_declaring(held: &mut Vec<Held>) -> Spot
    requires { (p : Place) × (rest : List Thing) × (reverse held.old.items ≡ Held.Declaring p ∷ rest) }
    ensures { reverse held.old.items ≡ Held.Declaring result ∷ reverse held.new.items }
{
    match held.pop() {
        Some(Held::Declaring(spot)) => spot,
        _ => unreachable!(),
    }
}

/// Takes off a name at the start of an operand, with its place.
pub fn take_word(held: &mut Vec<Held>) -> (NameId, Spot)
    requires { (x : Name) × (p : Place) × (rest : List Thing) × (reverse held.old.items ≡ Held.Word x p ∷ rest) }
    ensures { reverse held.old.items ≡ Held.Word result.0 result.1 ∷ reverse held.new.items }
{
    match held.pop() {
        Some(Held::Word(name, spot)) => (name, spot),
        _ => unreachable!(),
    }
}

/// Takes off the variable of an assignment to come, with the place of its `=`.
pub fn take_target(held: &mut Vec<Held>) -> (NameId, Spot)
    requires { (x : Name) × (p : Place) × (rest : List Thing) × (reverse held.old.items ≡ Held.Target x p ∷ rest) }
    ensures { reverse held.old.items ≡ Held.Target result.0 result.1 ∷ reverse held.new.items }
{
    match held.pop() {
        Some(Held::Target(name, spot)) => (name, spot),
        _ => unreachable!(),
    }
}

/// Takes off the method of a call to come, with its place.
pub fn take_called(held: &mut Vec<Held>) -> (NameId, Spot)
    requires { (x : Name) × (p : Place) × (rest : List Thing) × (reverse held.old.items ≡ Held.Called x p ∷ rest) }
    ensures { reverse held.old.items ≡ Held.Called result.0 result.1 ∷ reverse held.new.items }
{
    match held.pop() {
        Some(Held::Called(name, spot)) => (name, spot),
        _ => unreachable!(),
    }
}

/// Takes off a class, with its place.
pub fn take_class(held: &mut Vec<Held>) -> (ClassId, Spot)
    requires { (c : Class) × (p : Place) × (rest : List Thing) × (reverse held.old.items ≡ Held.Class c p ∷ rest) }
    ensures { reverse held.old.items ≡ Held.Class result.0 result.1 ∷ reverse held.new.items }
{
    match held.pop() {
        Some(Held::Class(class, spot)) => (class, spot),
        _ => unreachable!(),
    }
}

/// Takes off a type.
pub fn take_type(held: &mut Vec<Held>) -> Ty
    requires { (y : OneTy) × (rest : List Thing) × (reverse held.old.items ≡ Held.Type y ∷ rest) }
    ensures { reverse held.old.items ≡ Held.Type result ∷ reverse held.new.items }
{
    match held.pop() {
        Some(Held::Type(ty)) => ty,
        _ => unreachable!(),
    }
}

/// Takes off the name of the script that began.
pub fn take_script(held: &mut Vec<Held>) -> NameId
    requires { (x : Name) × (rest : List Thing) × (reverse held.old.items ≡ Held.Script x ∷ rest) }
    ensures { reverse held.old.items ≡ Held.Script result ∷ reverse held.new.items }
{
    match held.pop() {
        Some(Held::Script(name)) => name,
        _ => unreachable!(),
    }
}
