//! What operators make of values.

ghost use Rattle.std.specs.Prelude.{◌≡◌, ◌≤◌, ◌++◌, length};
ghost use Rattle.hb_tree.specs.declared.limits.TheConstants.{TEXT_BYTES_MAX};
ghost use Rattle.hb_eval.specs.declared.value.Value.TheVariants.{Int, Str};
ghost use Rattle.hb_eval.specs.Operators as operators;
ghost use Rattle.hb_eval.specs.Operators.{ComesTo};

use crate::stop::{Fail, Stop};
use crate::text::Text;
use crate::value::Value;
use hb_tree::limits::TEXT_BYTES_MAX;
use hb_tree::node::Op;
use std::alloc::Global;

/// An operator on two numbers. It takes no memory.
#[inline(always)]
pub fn on_ints(op: Op, x: i64, y: i64) -> Result<Value, Stop>
    ensures { result ≡ operators.operate op (Int x) (Int y) }
{
    match op {
        Op::Add => int_of(x.checked_add(y)),
        Op::Sub => int_of(x.checked_sub(y)),
        Op::Mul => int_of(x.checked_mul(y)),
        Op::Less => Ok(Value::Bool(x < y)),
        Op::Equal => Ok(Value::Bool(x == y)),
        Op::Concat => Err(Stop::BadOperand),
    }
}

/// An operator on two values.
pub fn operate(alloc: Global, op: Op, left: &Value, right: &Value) -> Result<Value, Fail>
    ensures { ComesTo result (operators.operate op left.now right.now) }
{
    match (left, right) {
        (Value::Int(x), Value::Int(y)) => match on_ints(op, *x, *y) {
            Ok(value) => Ok(value),
            Err(stop) => Err(Fail::Stopped(stop)),
        },
        (Value::Str(x), Value::Str(y)) => on_texts(alloc, op, x, y),
        _ => on_others(op, left, right),
    }
}

// The same out of line, for operands that are not both numbers.
#[inline(never)]
fn operate_apart(alloc: Global, op: Op, left: Value, right: &Value) -> Result<Value, Fail>
    ensures { ComesTo result (operators.operate op left right.now) }
{
    operate(alloc, op, &left, right)
}

/// An operator on two values, of which the left one is used up. Two numbers, which are most frequent, stay out of memory.
#[inline(always)]
pub(crate) fn operate_taken(
    alloc: Global,
    op: Op,
    left: Value,
    right: &Value,
) -> Result<Value, Fail>
    ensures { ComesTo result (operators.operate op left right.now) }
{
    match (&left, right) {
        (Value::Int(x), Value::Int(y)) => match on_ints(op, *x, *y) {
            Ok(value) => Ok(value),
            Err(stop) => Err(Fail::Stopped(stop)),
        },
        _ => match operate_apart(alloc, op, left, right) {
            Ok(value) => Ok(value),
            Err(fail) => Err(fail),
        },
    }
}

// A number that may be out of range.
fn int_of(number: Option<i64>) -> Result<Value, Stop>
    ensures { result ≡ operators.checked number }
{
    match number {
        Some(number) => Ok(Value::Int(number)),
        None => Err(Stop::Overflow),
    }
}

/// Two texts joined.
pub(crate) fn joined(alloc: Global, front: &[u8], behind: &[u8]) -> Result<Value, Fail>
    requires front { length front.now ≤ TEXT_BYTES_MAX }
    requires behind { length behind.now ≤ TEXT_BYTES_MAX }
    ensures { ComesTo result (operators.text_of (front.now ++ behind.now)) }
{
    if front.len() + behind.len() > TEXT_BYTES_MAX {
        return Err(Fail::Stopped(Stop::LongText));
    }
    let mut bytes = Vec::with_capacity(alloc, front.len() + behind.len())?;
    bytes.extend_from_slice(front)?;
    bytes.extend_from_slice(behind)?;
    Ok(Value::Str(Text::new(alloc, bytes)?))
}

// An operator on two texts.
fn on_texts(alloc: Global, op: Op, x: &Text, y: &Text) -> Result<Value, Fail>
    ensures { ComesTo result (operators.operate op (Str x.now) (Str y.now)) }
{
    match op {
        Op::Concat => joined(alloc, x.bytes(), y.bytes()),
        Op::Equal => Ok(Value::Bool(x.bytes() == y.bytes())),
        _ => Err(Fail::Stopped(Stop::BadOperand)),
    }
}

// An operator on two values that are not both numbers or both texts.
#[cold]
fn on_others(op: Op, left: &Value, right: &Value) -> Result<Value, Fail>
    requires { operators.IsMixed left.now right.now }
    ensures { ComesTo result (operators.operate op left.now right.now) }
{
    match (op, left, right) {
        (Op::Equal, _, _) => Ok(Value::Bool(left.is_same(right))),
        (_, Value::Nil, _) | (_, _, Value::Nil) => Err(Fail::Stopped(Stop::NilValue)),
        _ => Err(Fail::Stopped(Stop::BadOperand)),
    }
}
