//! How an expression begins.

ghost use Rattle.std.specs.Prelude.{◌≡◌, ◌+◌, ◌-◌, ◌<◌, ◌≤◌, ◌^◌, length, IfOk, OnOk, Some, None, true, false};
ghost use Rattle.hb_tree.specs.TreeAt.{IsExprAt, tree_at};
ghost use Rattle.hb_tree.specs.Canon.{bytes_at};
ghost use Rattle.hb_eval.specs.declared.value.Value.TheVariants.{Str};
ghost use Rattle.hb_eval.specs.Steps.{AreKnown, IsFed, SameCalls, Started};

use crate::cont::Cont;
use crate::moves::{first, give, halt, in_hand, take, under};
use crate::state::{Hand, State};
use crate::stop::Stop;
use crate::text::Text;
use crate::value::Value;
use crate::vars::fetch;
use hb_tree::node::{Method, Node};
use hb_tree::program::Program;
use hb_types::ids::TextId;
use std::alloc::{AllocError, Global};

// The value of a text literal comes in hand.
#[inline(never)]
fn literal(alloc: Global, prog: &Program, text: TextId, acc: &mut Value) -> Result<(), AllocError>
    requires { text.0 < length prog.now.texts }
    ensures { OnOk result (acc.new ≡ Str (bytes_at prog.now.texts text.0)) }
{
    let mut bytes = Vec::new(alloc);
    bytes.extend_from_slice(prog.text(text))?;
    *acc = Value::Str(Text::new(alloc, bytes)?);
    Ok(())
}

/// An expression begins. It takes one unit of fuel, or stops where there is none. A `def` or a `type` with a plain name goes on at once.
#[tactic(auto, unfolding(crate::specs::State::then_do, crate::specs::State::begin))]
#[inline(always)]
pub(crate) fn begin(
    alloc: Global,
    prog: &Program,
    state: &mut State,
    conts: &mut Vec<Cont>,
) -> Result<Hand, AllocError>
    requires expr { IsExprAt prog.now state.old.at.0 }
    requires few { state.old.begun < 2 ^ 63 }
    requires base { state.old.base ≤ length state.old.vars.items }
    ensures started { IfOk result (Started prog.now state.old state.new conts.old.items conts.new.items) }
    ensures begun { state.new.begun ≡ state.old.begun + 1 }
    ensures fuel { IfOk result (λ hand. IsFed hand state.old state.new) }
    ensures calls { SameCalls state.old state.new }
    ensures cache { state.new.cache ≡ state.old.cache }
    ensures known { AreKnown prog.now state.old → OnOk result (AreKnown prog.now state.new) }
{
    let id = state.at;
    state.begun += 1;
    if state.fuel == 0 {
        return take(conts, halt(state, Stop::Steps, id));
    }
    state.fuel -= 1;
    match prog.node(id) {
        Node::Nil => take(conts, give(state, Value::Nil)),
        Node::True => take(conts, give(state, Value::Bool(true))),
        Node::False => take(conts, give(state, Value::Bool(false))),
        Node::SelfRef => match state.class {
            Some(class) => take(conts, give(state, Value::Object(class))),
            None => take(conts, halt(state, Stop::NoSelf, id)),
        },
        Node::Int(number) => take(conts, give(state, Value::Int(number))),
        Node::Text(text) => {
            literal(alloc, prog, text, &mut state.acc)?;
            take(conts, in_hand())
        }
        Node::Var(name) => {
            if fetch(&state.vars[state.base..], name, &mut state.acc)? {
                take(conts, in_hand())
            } else {
                take(conts, halt(state, Stop::Unbound, id))
            }
        }
        Node::New(class) => take(conts, give(state, Value::Object(class))),
        Node::Assign(name, e) => take(conts, first(state, Cont::Assign(name), e)),
        Node::Print(e) => take(conts, first(state, Cont::Print(id), e)),
        Node::ToStr(e) => take(conts, first(state, Cont::ToStr, e)),
        Node::Not(e) => take(conts, first(state, Cont::Not, e)),
        Node::Binary(op, a, b) => take(conts, first(state, Cont::Left(id, op, b), a)),
        Node::If(c, a, b) => take(conts, first(state, Cont::Choose(a, b), c)),
        Node::While(c, b) => take(conts, first(state, Cont::Test(c, b), c)),
        Node::Call(receiver, _, _) => take(conts, first(state, Cont::Receiver(id), receiver)),
        Node::Def(Method::Computed(_, e), _) => take(conts, first(state, Cont::Method(id), e)),
        Node::Declare(Method::Computed(_, e), _, _) => {
            take(conts, first(state, Cont::Method(id), e))
        }
        Node::Def(Method::Named(_, _), _) => take(conts, under(Cont::Method(id), in_hand())),
        Node::Declare(Method::Named(_, _), _, _) => {
            take(conts, under(Cont::Method(id), in_hand()))
        }
        Node::Block(_, _) => unreachable!(),
    }
}
