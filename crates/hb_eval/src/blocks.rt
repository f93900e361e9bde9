//! How the machine goes through blocks, choices and loops.

ghost use Rattle.std.specs.Prelude.{◌≡◌, ◌+◌, ◌-◌, ◌<◌, ◌≤◌, ◌^◌, length, take, drop, ℕ, IfOk, OnOk, All, Some, None, true, false};
ghost use Rattle.hb_tree.specs.TreeAt.{IsExprAt, IsBlockAt, tree_at, forest_at};
ghost use Rattle.hb_tree.specs.Tree.{TBlock};
ghost use Rattle.hb_eval.specs.declared.state.Hand.TheVariants as hands;
ghost use Rattle.hb_eval.specs.declared.cont.Cont.TheVariants as cont;
ghost use Rattle.hb_eval.specs.Machine.{meaning, items_from};
ghost use Rattle.hb_eval.specs.Steps.{Steady, IsPlain, AreKnown, InEach, Moves, Starts, IsFine, weigh_push};

use crate::cont::Cont;
use crate::moves::{first, give, in_hand, next, under};
use crate::state::{Move, State};
use crate::value::Value;
use hb_tree::node::Node;
use hb_tree::program::Program;
use hb_types::ids::NodeId;

// The items, of which there are so many at most.
#[inline(always)]
fn counted(items: &[NodeId], count: u32) -> &[NodeId]
    requires { length items.now ≤ count }
    ensures same { result.now ≡ items.now }
    ensures few { length result.now < 2 ^ 32 }
{
    // The number is one of a `u32`.
    let _count = count;
    items
}

// The items of a block. There are as many as a `u32` counts, since the node has their number.
#[inline(always)]
fn items_of(prog: &Program, block: NodeId) -> &[NodeId]
    requires { IsBlockAt prog.now block.0 }
    ensures tree { tree_at prog.now block.0 ≡ TBlock block.0 (forest_at (tree_at prog.now) result.now) }
    ensures exprs { All (λ i. IsExprAt prog.now i.0) result.now }
    ensures few { length result.now < 2 ^ 32 }
{
    match prog.node(block) {
        Node::Block(_, count) => counted(prog.items(block), count),
        _ => unreachable!(),
    }
}

// What comes behind the items of a block that are done, the last of them with the value in hand.
#[inline(always)]
fn next_item(prog: &Program, block: NodeId, at: usize, state: &mut State) -> Move
    requires block { IsBlockAt prog.now block.0 }
    ensures starts { InEach prog.now (Starts (λ w room s. items_from w room (tree_at w.program block.0) at state.old.acc s) state.old state.new result) }
    ensures plain { IsPlain result.push }
    ensures steady { Steady state.old state.new }
    ensures known { AreKnown prog.now state.old → AreKnown prog.now state.new }
    ensures under { result.under ≡ None }
{
    let items = items_of(prog, block);
    if at < items.len() {
        // The last item's value is the block's.
        if at + 1 < items.len() {
            first(state, Cont::Items(block, (at + 1) as u32), items[at])
        } else {
            next(state, items[at])
        }
    } else {
        in_hand()
    }
}

/// A block begins.
#[inline(always)]
pub(crate) fn start_block(prog: &Program, block: NodeId, state: &mut State) -> Move
    requires { IsBlockAt prog.now block.0 }
    ensures starts { InEach prog.now (Starts (λ w room. meaning w room block.0) state.old state.new result) }
    ensures plain { IsPlain result.push }
    ensures steady { Steady state.old state.new }
    ensures known { AreKnown prog.now state.old → AreKnown prog.now state.new }
    ensures under { result.under ≡ None }
{
    state.acc = Value::Nil;
    next_item(prog, block, 0, state)
}

/// One of two blocks begins.
#[inline(always)]
#[tactic(auto, unfolding(crate::specs::State::then_do))]
pub(crate) fn choose(prog: &Program, a: NodeId, b: NodeId, state: &mut State) -> Move
    requires fine { IsFine prog.now (cont.Choose a b) }
    ensures moves { InEach prog.now (Moves (Some (cont.Choose a b)) hands.Gives state.old state.new result) }
    ensures plain { IsPlain result.under × IsPlain result.push }
    ensures steady { Steady state.old state.new }
    ensures known { AreKnown prog.now state.old → AreKnown prog.now state.new }
    ensures light { weigh_push result.under < 1 }
{
    if state.acc.is_false() {
        start_block(prog, b, state)
    } else {
        start_block(prog, a, state)
    }
}

/// A loop's condition has a value.
#[inline(always)]
#[tactic(auto, unfolding(crate::specs::State::then_do))]
pub(crate) fn test(prog: &Program, condition: NodeId, block: NodeId, state: &mut State) -> Move
    requires fine { IsFine prog.now (cont.Test condition block) }
    ensures moves { InEach prog.now (Moves (Some (cont.Test condition block)) hands.Gives state.old state.new result) }
    ensures plain { IsPlain result.under × IsPlain result.push }
    ensures steady { Steady state.old state.new }
    ensures known { AreKnown prog.now state.old → AreKnown prog.now state.new }
    ensures light { weigh_push result.under < 2 }
{
    if state.acc.is_false() {
        give(state, Value::Nil)
    } else {
        let of = start_block(prog, block, state);
        under(Cont::Turn(condition, block), of)
    }
}

/// A loop's condition begins again.
#[inline(always)]
#[tactic(auto, unfolding(crate::specs::State::then_do))]
pub(crate) fn turn(prog: &Program, condition: NodeId, block: NodeId, state: &mut State) -> Move
    requires fine { IsFine prog.now (cont.Turn condition block) }
    ensures moves { InEach prog.now (Moves (Some (cont.Turn condition block)) hands.Gives state.old state.new result) }
    ensures plain { IsPlain result.under × IsPlain result.push }
    ensures steady { Steady state.old state.new }
    ensures known { AreKnown prog.now state.old → AreKnown prog.now state.new }
    ensures light { weigh_push result.under < 1 }
{
    first(state, Cont::Test(condition, block), condition)
}

/// The items of a block go on.
#[inline(always)]
#[tactic(auto, unfolding(crate::specs::State::then_do))]
pub(crate) fn items(prog: &Program, block: NodeId, at: u32, state: &mut State) -> Move
    requires fine { IsFine prog.now (cont.Items block at) }
    ensures moves { InEach prog.now (Moves (Some (cont.Items block at)) hands.Gives state.old state.new result) }
    ensures plain { IsPlain result.under × IsPlain result.push }
    ensures steady { Steady state.old state.new }
    ensures known { AreKnown prog.now state.old → AreKnown prog.now state.new }
    ensures light { weigh_push result.under < 1 }
{
    next_item(prog, block, at as usize, state)
}
