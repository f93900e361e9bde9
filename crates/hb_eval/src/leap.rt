//! How several expressions begin at once.
//!
//! A leap takes an expression together with the parts of it that are read where they stand. Where one of them would stop, or where fuel runs out on the way, there is none, and the expression begins alone.

ghost use Rattle.std.specs.Prelude.{◌≡◌, ◌+◌, ◌<◌, ◌≤◌, ◌^◌, length, OnOk, IfOk};
ghost use Rattle.hb_tree.specs.TreeAt.{IsBlockAt, IsExprAt, tree_at};
ghost use Rattle.hb_tree.specs.declared.node.Op.TheVariants as op;
ghost use Rattle.hb_tree.specs.Tree.{TAssign, TIf, TWhile};
ghost use Rattle.hb_eval.specs.Ahead.{HasLeapt, IsOperator, behind};
ghost use Rattle.hb_eval.specs.Steps.{SameCalls};

use crate::ahead::{condition, leaf, number, text_leaf, variables_from};
use crate::blocks::{choose, test};
use crate::cont::Cont;
use crate::moves::{in_hand, take};
use crate::operators::{joined, on_ints};
use crate::state::{Hand, State};
use crate::steps::{assign, left};
use crate::stop::Fail;
use crate::value::Value;
use hb_tables::desk::Desk;
use hb_tree::node::{Node, Op};
use hb_tree::program::Program;
use hb_types::ids::{NameId, NodeId};
use std::alloc::{AllocError, Global};

// So many expressions have begun, and this value is in hand.
#[inline(always)]
fn pass(state: &mut State, begins: u32, value: Value)
    requires fuel { begins ≤ state.old.fuel }
    requires time { state.old.begun + state.old.fuel < 2 ^ 32 }
    ensures { state.new ≡ behind state.old begins value }
{
    state.begun += u64::from(begins);
    state.fuel -= begins;
    state.acc = value;
}

// An operator whose operands are both read, or the left one alone: then the right one begins next.
#[inline(always)]
fn leap_operator(
    alloc: Global,
    prog: &Program,
    op: Op,
    a: NodeId,
    b: NodeId,
    state: &mut State,
    conts: &mut Vec<Cont>,
) -> Result<Option<Hand>, AllocError>
    requires operator { IsOperator prog.now state.old.at.0 op a b }
    requires left { IsExprAt prog.now a.0 }
    requires right { IsExprAt prog.now b.0 }
    requires base { state.old.base ≤ length state.old.vars.items }
    requires time { state.old.begun + state.old.fuel < 2 ^ 32 }
    ensures leapt { IfOk result (HasLeapt prog.now state.old state.new conts.old conts.new) }
    ensures calls { SameCalls state.old state.new }
    ensures cache { state.new.cache ≡ state.old.cache }
{
    if state.fuel < 3 {
        return Ok(None);
    }
    let id = state.at;
    let vars = variables_from(&state.vars, state.base);
    match leaf(prog, vars, a) {
        None => match op {
            Op::Concat => leap_texts(alloc, prog, a, b, state, conts),
            _ => Ok(None),
        },
        Some(first) => match leaf(prog, vars, b) {
            None => {
                pass(state, 2, Value::Int(first));
                Ok(Some(take(conts, left(prog, id, op, b, state)?)?))
            }
            Some(second) => match on_ints(op, first, second) {
                Err(_) => Ok(None),
                Ok(value) => {
                    pass(state, 3, value);
                    Ok(Some(take(conts, in_hand())?))
                }
            },
        },
    }
}

// Two texts that are read where they stand are joined.
#[inline(never)]
fn leap_texts(
    alloc: Global,
    prog: &Program,
    a: NodeId,
    b: NodeId,
    state: &mut State,
    conts: &mut Vec<Cont>,
) -> Result<Option<Hand>, AllocError>
    requires operator { IsOperator prog.now state.old.at.0 op.Concat a b }
    requires left { IsExprAt prog.now a.0 }
    requires right { IsExprAt prog.now b.0 }
    requires base { state.old.base ≤ length state.old.vars.items }
    requires time { state.old.begun + state.old.fuel < 2 ^ 32 }
    ensures leapt { IfOk result (HasLeapt prog.now state.old state.new conts.old conts.new) }
    ensures calls { SameCalls state.old state.new }
    ensures cache { state.new.cache ≡ state.old.cache }
{
    if state.fuel < 3 {
        return Ok(None);
    }
    let vars = variables_from(&state.vars, state.base);
    match (text_leaf(prog, vars, a), text_leaf(prog, vars, b)) {
        (Some(front), Some(behind)) => match joined(alloc, front, behind) {
            Err(Fail::NoMemory) => Err(AllocError),
            Err(Fail::Stopped(_)) => Ok(None),
            Ok(value) => {
                pass(state, 3, value);
                Ok(Some(take(conts, in_hand())?))
            }
        },
        _ => Ok(None),
    }
}

// A variable gets a number that is read.
#[inline(always)]
fn leap_assignment(
    prog: &Program,
    name: NameId,
    of: NodeId,
    state: &mut State,
    conts: &mut Vec<Cont>,
) -> Result<Option<Hand>, AllocError>
    requires tree { tree_at prog.now state.old.at.0 ≡ TAssign state.old.at.0 name.0 (tree_at prog.now of.0) }
    requires value { IsExprAt prog.now of.0 }
    requires base { state.old.base ≤ length state.old.vars.items }
    requires time { state.old.begun + state.old.fuel < 2 ^ 32 }
    ensures leapt { IfOk result (HasLeapt prog.now state.old state.new conts.old conts.new) }
    ensures calls { SameCalls state.old state.new }
    ensures cache { state.new.cache ≡ state.old.cache }
{
    match number(prog, variables_from(&state.vars, state.base), of) {
        Some(ahead) => {
            if state.fuel <= ahead.begins {
                return Ok(None);
            }
            pass(state, ahead.begins + 1, Value::Int(ahead.value));
            Ok(Some(take(conts, assign(prog, name, state)?)?))
        }
        None => Ok(None),
    }
}

// A choice whose condition is read.
#[inline(always)]
fn leap_choice(
    prog: &Program,
    of: NodeId,
    a: NodeId,
    b: NodeId,
    state: &mut State,
    conts: &mut Vec<Cont>,
) -> Result<Option<Hand>, AllocError>
    requires tree { tree_at prog.now state.old.at.0 ≡ TIf state.old.at.0 (tree_at prog.now of.0) (tree_at prog.now a.0) (tree_at prog.now b.0) }
    requires condition { IsExprAt prog.now of.0 }
    requires first { IsBlockAt prog.now a.0 }
    requires second { IsBlockAt prog.now b.0 }
    requires base { state.old.base ≤ length state.old.vars.items }
    requires time { state.old.begun + state.old.fuel < 2 ^ 32 }
    ensures leapt { IfOk result (HasLeapt prog.now state.old state.new conts.old conts.new) }
    ensures calls { SameCalls state.old state.new }
    ensures cache { state.new.cache ≡ state.old.cache }
{
    if state.fuel < 4 {
        return Ok(None);
    }
    match condition(prog, variables_from(&state.vars, state.base), of) {
        Some(truth) => {
            pass(state, 4, Value::Bool(truth));
            Ok(Some(take(conts, choose(prog, a, b, state))?))
        }
        None => Ok(None),
    }
}

// A loop whose condition is read for the first time.
#[inline(always)]
fn leap_loop(
    prog: &Program,
    of: NodeId,
    block: NodeId,
    state: &mut State,
    conts: &mut Vec<Cont>,
) -> Result<Option<Hand>, AllocError>
    requires tree { tree_at prog.now state.old.at.0 ≡ TWhile state.old.at.0 (tree_at prog.now of.0) (tree_at prog.now block.0) }
    requires condition { IsExprAt prog.now of.0 }
    requires block { IsBlockAt prog.now block.0 }
    requires base { state.old.base ≤ length state.old.vars.items }
    requires time { state.old.begun + state.old.fuel < 2 ^ 32 }
    ensures leapt { IfOk result (HasLeapt prog.now state.old state.new conts.old conts.new) }
    ensures calls { SameCalls state.old state.new }
    ensures cache { state.new.cache ≡ state.old.cache }
{
    if state.fuel < 4 {
        return Ok(None);
    }
    match condition(prog, variables_from(&state.vars, state.base), of) {
        Some(truth) => {
            pass(state, 4, Value::Bool(truth));
            Ok(Some(take(conts, test(prog, of, block, state))?))
        }
        None => Ok(None),
    }
}

/// The expression that begins next begins together with what is read of it, where there is fuel for all of them. It is a function of its own for each kind of desk, though it asks none.
#[inline(always)]
pub(crate) fn leap<D: Desk>(
    alloc: Global,
    prog: &Program,
    state: &mut State,
    conts: &mut Vec<Cont>,
) -> Result<Option<Hand>, AllocError>
    requires expr { IsExprAt prog.now state.old.at.0 }
    requires base { state.old.base ≤ length state.old.vars.items }
    requires time { state.old.begun + state.old.fuel < 2 ^ 32 }
    ensures leapt { IfOk result (HasLeapt prog.now state.old state.new conts.old conts.new) }
    ensures calls { SameCalls state.old state.new }
    ensures cache { state.new.cache ≡ state.old.cache }
{
    match prog.node(state.at) {
        Node::Binary(op, a, b) => leap_operator(alloc, prog, op, a, b, state, conts),
        Node::Assign(name, of) => leap_assignment(prog, name, of, state, conts),
        Node::If(of, a, b) => leap_choice(prog, of, a, b, state, conts),
        Node::While(of, block) => leap_loop(prog, of, block, state, conts),
        _ => Ok(None),
    }
}
