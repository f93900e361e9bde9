//! What a step hands back.

ghost use Rattle.std.specs.Prelude.{◌≡◌, Some, None, IfOk};
ghost use Rattle.hb_eval.specs.declared.state.Hand.TheVariants as hands;
ghost use Rattle.hb_eval.specs.Steps.{Took};

use crate::cont::Cont;
use crate::state::{Hand, Move, State};
use crate::stop::Stop;
use crate::value::Value;
use hb_types::ids::NodeId;
use std::alloc::AllocError;

// A value is in hand.
#[inline(always)]
pub(crate) fn give(state: &mut State, value: Value) -> Move
    ensures value { result ≡ record { under = None; push = None; hand = hands.Gives } }
    ensures state { state.new ≡ record state.old { acc = value } }
{
    state.acc = value;
    in_hand()
}

// The value that is in hand stays there.
#[inline(always)]
pub(crate) fn in_hand() -> Move
    ensures { result ≡ record { under = None; push = None; hand = hands.Gives } }
{
    Move {
        under: None,
        push: None,
        hand: Hand::Gives,
    }
}

// The script stops.
#[inline(always)]
pub(crate) fn halt(state: &mut State, stop: Stop, id: NodeId) -> Move
    ensures value { result ≡ record { under = None; push = None; hand = hands.Stops } }
    ensures state { state.new ≡ record state.old { stop = stop; at = id } }
{
    set_stop(state, stop, id);
    Move {
        under: None,
        push: None,
        hand: Hand::Stops,
    }
}

// Why and where the script stops. It hands nothing back, so that a step has nothing of it in memory.
#[cold]
#[inline(never)]
fn set_stop(state: &mut State, stop: Stop, id: NodeId)
    ensures { state.new ≡ record state.old { stop = stop; at = id } }
{
    state.stop = stop;
    state.at = id;
}

// What begins next, and what to do with its value.
#[inline(always)]
pub(crate) fn first(state: &mut State, cont: Cont, id: NodeId) -> Move
    ensures value { result ≡ record { under = None; push = Some cont; hand = hands.Begins } }
    ensures state { state.new ≡ record state.old { at = id } }
{
    state.at = id;
    Move {
        under: None,
        push: Some(cont),
        hand: Hand::Begins,
    }
}

// What begins next, with nothing to do with its value first.
#[inline(always)]
pub(crate) fn next(state: &mut State, id: NodeId) -> Move
    ensures value { result ≡ record { under = None; push = None; hand = hands.Begins } }
    ensures state { state.new ≡ record state.old { at = id } }
{
    state.at = id;
    Move {
        under: None,
        push: None,
        hand: Hand::Begins,
    }
}

// The move with this to do behind it.
#[inline(always)]
pub(crate) fn under(cont: Cont, of: Move) -> Move
    ensures { result ≡ record of { under = Some cont } }
{
    Move {
        under: Some(cont),
        push: of.push,
        hand: of.hand,
    }
}

/// What a move says is done. Each step takes its own, so that what is never pushed is never tested.
#[inline(always)]
#[tactic(auto, using(crate::proofs::StackLemmas::pushed_first))]
pub(crate) fn take(conts: &mut Vec<Cont>, next: Move) -> Result<Hand, AllocError>
    ensures took { IfOk result (Took next conts.old.items conts.new.items) }
{
    if let Some(cont) = next.under {
        conts.push(cont)?;
    }
    if let Some(cont) = next.push {
        conts.push(cont)?;
    }
    Ok(next.hand)
}
