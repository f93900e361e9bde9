//! The rules of the judgement that look at types alone.

ghost use Rattle.std.specs.Prelude.{◌≡◌, ℕ, Some, Ok, length, if◌then◌else◌};
ghost use Rattle.hb_types.specs.Types.{IsMethodTy};
ghost use Rattle.hb_types.specs.Variables.{Variables};
ghost use Rattle.hb_types.specs.declared.types.Ty.TheVariants as ty;
ghost use Rattle.hb_deriv.specs.declared.ill.Reason.TheVariants as reason;
ghost use Rattle.hb_deriv.specs.Judge.{all_below, called, declaration_type, fault, named as named_by, operands as operands_by, variable_type};
ghost use Rattle.hb_check.specs.Rules.{concluded};

use hb_deriv::ill::Reason;
use hb_tree::node::Op;
use hb_types::types::{MethodTy, Ty, below};

/// What an operator gives on operands of these types.
pub fn operands(op: Op, left: Ty, right: Ty) -> Result<Ty, Reason>
    ensures { (id : ℕ) (G : Variables) → operands_by id op G left right ≡ concluded id G result }
{
    let (limit, ty) = match op {
        Op::Add => (Ty::Int, Ty::Int),
        Op::Sub => (Ty::Int, Ty::Int),
        Op::Mul => (Ty::Int, Ty::Int),
        Op::Less => (Ty::Int, Ty::Bool),
        Op::Concat => (Ty::Str, Ty::Str),
        Op::Equal => (Ty::Any, Ty::Bool),
    };
    if below(left, limit) && below(right, limit) {
        Ok(ty)
    } else {
        Err(Reason::Operand)
    }
}

/// What a definition or a declaration gives whose method's name is computed, where the name is of this type.
pub fn named(name: Ty, ty: Ty) -> Result<Ty, Reason>
    ensures { (id : ℕ) (G : Variables) → named_by id G name ty ≡ concluded id G result }
{
    if below(name, Ty::Str) {
        Ok(ty)
    } else {
        Err(Reason::Operand)
    }
}

/// What a call gives with arguments of these types.
pub fn fitting(args: &[Ty], method: &MethodTy) -> Result<Ty, Reason>
    requires { IsMethodTy method.now }
    ensures { (id : ℕ) (G : Variables) → called id G args.now (Some method.now) ≡ concluded id G result }
{
    let count = method.count as usize;
    if args.len() != count {
        return Err(Reason::Count);
    }
    if all_below(args, &method.params[..count]) {
        Ok(method.result)
    } else {
        Err(Reason::Argument)
    }
}

/// Whether each type is below the limit in its place.
pub fn all_below(types: &[Ty], limits: &[Ty]) -> bool
    requires { length types.now ≡ length limits.now }
    ensures { result ≡ all_below types.now limits.now }
{
    for (i, ty) in types.iter().enumerate() {
        if !below(*ty, limits[i]) {
            return false;
        }
    }
    true
}

/// What a variable gives, by what is known of it.
pub fn variable(known: Option<Ty>) -> Result<Ty, Reason>
    ensures { (id : ℕ) (G : Variables) → variable_type id G known ≡ concluded id G result }
{
    known.ok_or(Reason::Unbound)
}

/// What a loop gives, by whether a turn keeps each variable below its type.
pub fn looped(keeps: bool) -> Result<Ty, Reason>
    ensures { (id : ℕ) (G : Variables) → (if keeps then Ok (G, ty.Nil) else fault id reason.Loop) ≡ concluded id G result }
{
    if keeps {
        Ok(Ty::Nil)
    } else {
        Err(Reason::Loop)
    }
}

/// What a declaration gives: one that asks tells whether it changed the type.
pub fn declared(asks: bool) -> Ty
    ensures { result ≡ declaration_type asks }
{
    if asks { Ty::Bool } else { Ty::Nil }
}
