//! What expressions come to, where that is read before they begin.
//!
//! Only numbers and texts, variables that have one, and operators on two of these are read. They ask no table, change nothing and do not stop.

ghost use Rattle.std.specs.Prelude.{◌≡◌, ◌<◌, ◌≤◌, ℕ, drop, length, IfSome, Some};
ghost use Rattle.hb_tree.specs.TreeAt.{tree_at};
ghost use Rattle.hb_tree.specs.declared.limits.TheConstants.{TEXT_BYTES_MAX};
ghost use Rattle.hb_eval.specs.declared.value.Value.TheVariants.{Bool, Int, Str};
ghost use Rattle.hb_eval.specs.Ahead.{ComesAtOnce, IsOperator};
ghost use Rattle.hb_eval.specs.State.{value_at};

use crate::operators::on_ints;
use crate::value::Value;
use hb_tree::node::{Node, Op};
use hb_tree::program::Program;
use hb_types::ids::{NameId, NodeId};

/// What an expression comes to, and how many expressions begin until it does.
#[derive(Clone, Copy, Debug)]
pub(crate) struct Ahead<T> {
    pub(crate) value: T,
    pub(crate) begins: u32,
}

/// The variables from a place on.
#[inline(always)]
pub(crate) fn variables_from(vars: &[(NameId, Value)], base: usize) -> &[(NameId, Value)]
    requires { base ≤ length vars.now }
    ensures { result.now ≡ drop base vars.now }
{
    &vars[base..]
}

// The number that a variable has.
#[inline(always)]
fn number_of(vars: &[(NameId, Value)], name: NameId) -> Option<i64>
    ensures { IfSome result (λ number. value_at vars.now name.0 ≡ Some (Int number)) }
{
    for (known, value) in vars {
        if *known == name {
            return match value {
                Value::Int(number) => Some(*number),
                _ => None,
            };
        }
    }
    None
}

/// The number that stands there, or that the variable there has.
#[inline(always)]
pub(crate) fn leaf(prog: &Program, vars: &[(NameId, Value)], id: NodeId) -> Option<i64>
    requires { id.0 < length prog.now.nodes }
    ensures { IfSome result (λ number. ComesAtOnce prog.now vars.now id.0 (Int number) 1) }
{
    match prog.node(id) {
        Node::Int(number) => Some(number),
        Node::Var(name) => number_of(vars, name),
        _ => None,
    }
}

// The bytes of the text that a variable has.
#[inline(always)]
fn text_of(vars: &[(NameId, Value)], name: NameId) -> Option<&[u8]>
    ensures comes { IfSome result (λ bytes. value_at vars.now name.0 ≡ Some (Str bytes.now)) }
    ensures short { IfSome result (λ bytes. length bytes.now ≤ TEXT_BYTES_MAX) }
{
    for (known, value) in vars {
        if *known == name {
            return match value {
                Value::Str(text) => Some(text.bytes()),
                _ => None,
            };
        }
    }
    None
}

/// The bytes of the text that stands there, or that the variable there has.
#[inline(always)]
pub(crate) fn text_leaf<'a>(
    prog: &'a Program,
    vars: &'a [(NameId, Value)],
    id: NodeId,
) -> Option<&'a [u8]>
    requires { id.0 < length prog.now.nodes }
    ensures comes { IfSome result (λ bytes. ComesAtOnce prog.now vars.now id.0 (Str bytes.now) 1) }
    ensures short { IfSome result (λ bytes. length bytes.now ≤ TEXT_BYTES_MAX) }
{
    match prog.node(id) {
        Node::Text(text) => Some(prog.text(text)),
        Node::Var(name) => text_of(vars, name),
        _ => None,
    }
}

// What an operator makes of two such numbers, where it does not stop. Three expressions begin.
#[inline(always)]
fn operator(prog: &Program, vars: &[(NameId, Value)], op: Op, a: NodeId, b: NodeId) -> Option<Value>
    requires left { a.0 < length prog.now.nodes }
    requires right { b.0 < length prog.now.nodes }
    ensures { IfSome result (λ value. (id : ℕ) → IsOperator prog.now id op a b → ComesAtOnce prog.now vars.now id value 3) }
{
    match (leaf(prog, vars, a), leaf(prog, vars, b)) {
        (Some(left), Some(right)) => match on_ints(op, left, right) {
            Ok(value) => Some(value),
            Err(_) => None,
        },
        _ => None,
    }
}

/// The number that an expression comes to.
#[inline(always)]
pub(crate) fn number(prog: &Program, vars: &[(NameId, Value)], id: NodeId) -> Option<Ahead<i64>>
    requires { id.0 < length prog.now.nodes }
    ensures comes { IfSome result (λ ahead. ComesAtOnce prog.now vars.now id.0 (Int ahead.value) ahead.begins) }
    ensures few { IfSome result (λ ahead. ahead.begins ≤ 3) }
{
    match prog.node(id) {
        Node::Int(value) => Some(Ahead { value, begins: 1 }),
        Node::Var(name) => match number_of(vars, name) {
            Some(value) => Some(Ahead { value, begins: 1 }),
            None => None,
        },
        Node::Binary(op, a, b) => match operator(prog, vars, op, a, b) {
            Some(Value::Int(value)) => Some(Ahead { value, begins: 3 }),
            _ => None,
        },
        _ => None,
    }
}

/// The truth that a comparison comes to. Three expressions begin.
#[inline(always)]
pub(crate) fn condition(prog: &Program, vars: &[(NameId, Value)], id: NodeId) -> Option<bool>
    requires { id.0 < length prog.now.nodes }
    ensures { IfSome result (λ truth. ComesAtOnce prog.now vars.now id.0 (Bool truth) 3) }
{
    match prog.node(id) {
        Node::Binary(op, a, b) => match operator(prog, vars, op, a, b) {
            Some(Value::Bool(truth)) => Some(truth),
            _ => None,
        },
        _ => None,
    }
}
