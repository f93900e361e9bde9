//! What the machine does with the value in hand, where no table is asked.

ghost use Rattle.std.specs.Prelude.{◌≡◌, ◌+◌, ◌-◌, ◌<◌, ◌≤◌, ◌^◌, length, take, drop, ℕ, IfOk, OnOk, Some, None, true, false};
ghost use Rattle.hb_tree.specs.Table.{Table};
ghost use Rattle.hb_tree.specs.TreeAt.{IsExprAt, IsBlockAt, tree_at};
ghost use Rattle.hb_eval.specs.declared.state.Hand.TheVariants as hands;
ghost use Rattle.hb_eval.specs.declared.cont.Cont.TheVariants as cont;
ghost use Rattle.hb_eval.specs.Values.{IsKnown};
ghost use Rattle.hb_eval.specs.Machine.{meaning, items_from};
ghost use Rattle.hb_eval.specs.Steps.{Steady, IsPlain, AreKnown, InEach, Moves, Starts, IsFine, weigh_push};

use crate::cont::Cont;
use crate::moves::{first, give, halt, in_hand, next, under};
use crate::operators::operate_taken;
use crate::printed::{print, shown};
use crate::state::{Move, State};
use crate::stop::Fail;
use crate::value::Value;
use crate::vars::assign as bind;
use hb_tree::node::Op;
use hb_tree::program::Program;
use hb_types::ids::{NameId, NodeId};
use std::alloc::{AllocError, Global};
use std::mem;

// The value that was in hand. A number stays there too, so that nothing is moved.
#[inline(always)]
fn taken(acc: &mut Value) -> Value
    ensures value { result ≡ acc.old }
    ensures known { (t : Table) → IsKnown t acc.old → IsKnown t acc.new }
{
    match acc {
        Value::Int(number) => Value::Int(*number),
        _ => mem::replace(acc, Value::Nil),
    }
}

/// The left operand waits while the right one begins.
#[inline(always)]
#[tactic(auto, using(crate::proofs::KnownLemmas::pushed_known), unfolding(crate::specs::State::then_do))]
pub(crate) fn left(
    prog: &Program,
    id: NodeId,
    op: Op,
    right: NodeId,
    state: &mut State,
) -> Result<Move, AllocError>
    requires fine { IsExprAt prog.now right.0 }
    ensures moves { IfOk result (λ m. InEach prog.now (Moves (Some (cont.Left id op right)) hands.Gives state.old state.new m)) }
    ensures plain { IfOk result (λ m. IsPlain m.under × IsPlain m.push) }
    ensures steady { Steady state.old state.new }
    ensures known { AreKnown prog.now state.old → OnOk result (AreKnown prog.now state.new) }
    ensures light { IfOk result (λ m. weigh_push m.under < 1) }
{
    let value = taken(&mut state.acc);
    state.operands.push(value)?;
    Ok(first(state, Cont::Right(id, op), right))
}

/// Both operands are there.
#[inline(always)]
#[tactic(auto, unfolding(crate::specs::State::then_do))]
pub(crate) fn right(
    alloc: Global,
    prog: &Program,
    id: NodeId,
    op: Op,
    state: &mut State,
) -> Result<Move, AllocError>
    requires operand { 1 ≤ length state.old.operands.items }
    ensures moves { IfOk result (λ m. InEach prog.now (Moves (Some (cont.Right id op)) hands.Gives state.old state.new m)) }
    ensures plain { IfOk result (λ m. IsPlain m.under × IsPlain m.push) }
    ensures steady { Steady state.old state.new }
    ensures known { AreKnown prog.now state.old → OnOk result (AreKnown prog.now state.new) }
    ensures light { IfOk result (λ m. weigh_push m.under < 1) }
{
    match state.operands.pop() {
        None => unreachable!(),
        Some(value) => match operate_taken(alloc, op, value, &state.acc) {
            Ok(value) => Ok(give(state, value)),
            Err(Fail::Stopped(stop)) => Ok(halt(state, stop, id)),
            Err(Fail::NoMemory) => Err(AllocError),
        },
    }
}

/// A variable gets the value in hand, which stays there.
#[inline(always)]
#[tactic(auto, using(crate::proofs::KnownLemmas::bound_known), unfolding(crate::specs::State::then_do))]
pub(crate) fn assign(prog: &Program, name: NameId, state: &mut State) -> Result<Move, AllocError>
    requires base { state.old.base ≤ length state.old.vars.items }
    ensures moves { IfOk result (λ m. InEach prog.now (Moves (Some (cont.Assign name)) hands.Gives state.old state.new m)) }
    ensures plain { IfOk result (λ m. IsPlain m.under × IsPlain m.push) }
    ensures steady { Steady state.old state.new }
    ensures known { AreKnown prog.now state.old → OnOk result (AreKnown prog.now state.new) }
    ensures light { IfOk result (λ m. weigh_push m.under < 1) }
{
    let value = state.acc.copied()?;
    bind(&mut state.vars, state.base, name, value)?;
    Ok(in_hand())
}

/// The truth of the value in hand is turned round.
#[inline(always)]
#[tactic(auto, unfolding(crate::specs::State::then_do))]
pub(crate) fn not(prog: &Program, state: &mut State) -> Move
    ensures moves { InEach prog.now (Moves (Some cont.Not) hands.Gives state.old state.new result) }
    ensures plain { IsPlain result.under × IsPlain result.push }
    ensures steady { Steady state.old state.new }
    ensures known { AreKnown prog.now state.old → AreKnown prog.now state.new }
    ensures light { weigh_push result.under < 1 }
{
    let truth = state.acc.is_false();
    give(state, Value::Bool(truth))
}

/// The value in hand becomes its text.
#[tactic(auto, unfolding(crate::specs::State::then_do))]
pub(crate) fn to_text(alloc: Global, prog: &Program, state: &mut State) -> Result<Move, AllocError>
    requires known { IsKnown prog.now state.old.acc }
    ensures moves { IfOk result (λ m. InEach prog.now (Moves (Some cont.ToStr) hands.Gives state.old state.new m)) }
    ensures plain { IfOk result (λ m. IsPlain m.under × IsPlain m.push) }
    ensures steady { Steady state.old state.new }
    ensures known { AreKnown prog.now state.old → OnOk result (AreKnown prog.now state.new) }
    ensures light { IfOk result (λ m. weigh_push m.under < 1) }
{
    let text = shown(alloc, prog, &state.acc)?;
    Ok(give(state, Value::Str(text)))
}

/// The value in hand is printed.
#[tactic(auto, unfolding(crate::specs::State::then_do))]
pub(crate) fn print_value(
    alloc: Global,
    prog: &Program,
    id: NodeId,
    state: &mut State,
) -> Result<Move, AllocError>
    requires known { IsKnown prog.now state.old.acc }
    ensures moves { IfOk result (λ m. InEach prog.now (Moves (Some (cont.Print id)) hands.Gives state.old state.new m)) }
    ensures plain { IfOk result (λ m. IsPlain m.under × IsPlain m.push) }
    ensures steady { Steady state.old state.new }
    ensures known { AreKnown prog.now state.old → OnOk result (AreKnown prog.now state.new) }
    ensures light { IfOk result (λ m. weigh_push m.under < 1) }
{
    let text = shown(alloc, prog, &state.acc)?;
    match print(&mut state.output, text.bytes()) {
        Ok(()) => Ok(give(state, Value::Nil)),
        Err(Fail::Stopped(stop)) => Ok(halt(state, stop, id)),
        Err(Fail::NoMemory) => Err(AllocError),
    }
}
