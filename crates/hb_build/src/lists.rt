//! Parameters and their types, where they lie on top.

ghost use Rattle.std.specs.Prelude.{◌≡◌, ◌≤◌, ◌<◌, IfOk, length, map, reverse};
ghost use Rattle.hb_build.specs.Acts.{method_ty};
ghost use Rattle.hb_build.specs.Sound.{numbers, parameters_of, parameter_types_of};

use crate::held::Held;
use hb_types::ids::NameId;
use hb_types::types::{MethodTy, PARAMS_MAX, Ty};
use std::alloc::{AllocError, Global};

// How many of the last things are parameters.
fn parameter_count(held: &[Held]) -> usize
    ensures count { result ≡ length (parameters_of (reverse held.now)) }
    ensures within { result ≤ length held.now }
{
    let mut count = 0;
    while count < held.len() && matches!(held[held.len() - 1 - count], Held::Parameter(_)) {
        count += 1;
    }
    count
}

/// The parameters on top, in the order of the text.
pub fn parameters(alloc: Global, held: &[Held]) -> Result<Vec<NameId>, AllocError>
    ensures { IfOk result (λ names. numbers names.items ≡ parameters_of (reverse held.now)) }
{
    let mut names = Vec::new(alloc);
    for thing in &held[held.len() - parameter_count(held)..] {
        if let Held::Parameter(name) = thing {
            names.push(*name)?;
        }
    }
    Ok(names)
}

// How many of the last things are types of parameters.
fn parameter_type_count(held: &[Held]) -> usize
    ensures count { result ≡ length (parameter_types_of (reverse held.now)) }
    ensures within { result ≤ length held.now }
{
    let mut count = 0;
    while count < held.len() && matches!(held[held.len() - 1 - count], Held::ParameterType(_)) {
        count += 1;
    }
    count
}

/// The types of parameters on top, in the order of the text.
pub fn parameter_types(alloc: Global, held: &[Held]) -> Result<Vec<Ty>, AllocError>
    ensures { IfOk result (λ types. types.items ≡ parameter_types_of (reverse held.now)) }
{
    let mut types = Vec::new(alloc);
    for thing in &held[held.len() - parameter_type_count(held)..] {
        if let Held::ParameterType(ty) = thing {
            types.push(*ty)?;
        }
    }
    Ok(types)
}

/// The type of a method with these parameters and this result.
pub fn method_ty(params: &[Ty], outcome: Ty) -> MethodTy
    requires { length params.now ≤ PARAMS_MAX }
    ensures { result ≡ method_ty params.now outcome }
{
    let mut types = [Ty::Nil; PARAMS_MAX];
    for (i, ty) in params.iter().enumerate() {
        types[i] = *ty;
    }
    MethodTy {
        count: params.len() as u8,
        params: types,
        result: outcome,
    }
}
