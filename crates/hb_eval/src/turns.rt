//! What is done with a value.

ghost use Rattle.std.specs.Prelude.{◌≡◌, ◌+◌, ℕ, List, IfOk, OnOk};
ghost use Rattle.hb_call.specs.Growth.{Grown};
ghost use Rattle.hb_call.specs.Held.{stands};
ghost use Rattle.hb_call.specs.OwnCache.{IsTrueCache, KeepsChecks};
ghost use Rattle.hb_eval.specs.declared.framed.Framed.{Framed as Kept};
ghost use Rattle.hb_eval.specs.Machine.{frames_in, need};
ghost use Rattle.hb_eval.specs.Steps.{AreKnown, IsFine, Still, weigh_one};
ghost use Rattle.hb_eval.specs.Stacks.{calls_in};
ghost use Rattle.hb_eval.specs.Quiet.{IsRare};
ghost use Rattle.hb_eval.specs.Turns.{Ready, Turned, with_value};
ghost use Rattle.hb_eval.specs.Gathering.{Shares};
ghost use Rattle.hb_eval.specs.Holding.{Holding, frames_of};
ghost use Rattle.hb_eval.specs.Staying.{Stays};

use crate::blocks::{choose, items, test, turn};
use crate::calls::{argument, receiver};
use crate::cont::Cont;
use crate::framed::Framed;
use crate::frames::end_body;
use crate::moves::take;
use crate::named::method;
use crate::state::{Hand, State};
use crate::steps::{assign, left, not, print_value, right, to_text};
use hb_call::Share;
use hb_names::Names;
use hb_tables::desk::Desk;
use hb_tree::program::Program;
use std::alloc::{AllocError, Global};

// What is rare is done with the value in hand, out of line, so that what is frequent clears no locals of it.
#[inline(never)]
#[tactic(auto, using(crate::proofs::ApplyLemmas::nothing_grown))]
fn apply_rarely<D: Desk, N: Names>(
    alloc: Global,
    prog: &Program,
    desk: &mut D,
    names: &mut N,
    cont: Cont,
    state: &mut State,
    conts: &mut Vec<Cont>,
) -> Result<Hand, AllocError>
    requires rare { IsRare cont }
    requires fine { IsFine prog.now cont }
    requires known { AreKnown prog.now state.old }
    ensures turned { (frames : List Kept) → IfOk result (Turned prog.now (N.known names.new) (D.fixed desk.old).caller (D.front desk.old) (D.front desk.new) (need cont) (frames_in cont) (calls_in cont) (weigh_one cont) frames state.old frames state.new
        (with_value prog.now cont frames state.old) conts.old.items conts.new.items) }
    ensures still { Still state.old state.new }
    ensures stays { Stays (D.fixed desk.old) (D.fixed desk.new) (D.front desk.old) (D.front desk.new) (N.known names.old) (N.known names.new) }
    ensures others { (q : ℕ) → stands (D.fixed desk.old).caller q (D.front desk.new) ≡ stands (D.fixed desk.old).caller q (D.front desk.old) }
    ensures grown { OnOk result (Grown prog.now (D.fixed desk.old).caller (N.known names.new) (N.asked names.old) (N.asked names.new) (D.front desk.old) (D.front desk.new)) }
    ensures own { OnOk result (KeepsChecks prog.now (D.fixed desk.old).caller (N.known names.old) (N.known names.new) (N.asked names.old) (N.asked names.new) (D.front desk.old) (D.front desk.new) state.old.cache state.new.cache) }
    ensures alike { N.alike names.old names.new }
{
    match cont {
        Cont::Method(id) => take(conts, method(alloc, prog, desk, names, id, state)?),
        Cont::Print(id) => take(conts, print_value(alloc, prog, id, state)?),
        Cont::ToStr => take(conts, to_text(alloc, prog, state)?),
        _ => unreachable!(),
    }
}

/// What is left to do is done with the value in hand.
#[inline(always)]
#[tactic(auto, using(crate::proofs::ApplyLemmas::nothing_grown))]
pub(crate) fn apply<D: Desk, N: Names>(
    alloc: Global,
    prog: &Program,
    desk: &mut D,
    names: &mut N,
    cont: Cont,
    state: &mut State,
    conts: &mut Vec<Cont>,
    frames: &mut Vec<Framed>,
    share: &mut Share,
) -> Result<Hand, AllocError>
    requires ready { Ready prog.now cont frames.old.items state.old }
    requires holding { Holding (D.fixed desk.old).caller (state.old.made + 1) (frames_of frames.old.items) (D.front desk.old) }
    requires cache { IsTrueCache prog.now (N.known names.old) (N.asked names.old) (D.fixed desk.old).caller (D.front desk.old) state.old.cache }
    ensures turned { IfOk result (Turned prog.now (N.known names.new) (D.fixed desk.old).caller (D.front desk.old) (D.front desk.new) (need cont) (frames_in cont) (calls_in cont) (weigh_one cont) frames.old.items state.old frames.new.items state.new
        (with_value prog.now cont frames.old.items state.old) conts.old.items conts.new.items) }
    ensures timed { (state.new.begun ≡ state.old.begun) × (state.new.fuel ≡ state.old.fuel) }
    ensures holding { Holding (D.fixed desk.old).caller (state.new.made + 1) (frames_of frames.new.items) (D.front desk.new) }
    ensures stays { Stays (D.fixed desk.old) (D.fixed desk.new) (D.front desk.old) (D.front desk.new) (N.known names.old) (N.known names.new) }
    ensures grown { OnOk result (Grown prog.now (D.fixed desk.old).caller (N.known names.new) (N.asked names.old) (N.asked names.new) (D.front desk.old) (D.front desk.new)) }
    ensures own { OnOk result (KeepsChecks prog.now (D.fixed desk.old).caller (N.known names.old) (N.known names.new) (N.asked names.old) (N.asked names.new) (D.front desk.old) (D.front desk.new) state.old.cache state.new.cache) }
    ensures shares { OnOk result (Shares prog.now (N.known names.new) (D.fixed desk.old).caller (D.front desk.old) (D.front desk.new) share.old share.new) }
    ensures alike { N.alike names.old names.new }
{
    match cont {
        Cont::Assign(name) => take(conts, assign(prog, name, state)?),
        Cont::Not => take(conts, not(prog, state)),
        Cont::Left(id, op, b) => take(conts, left(prog, id, op, b, state)?),
        Cont::Right(id, op) => take(conts, right(alloc, prog, id, op, state)?),
        Cont::Choose(a, b) => take(conts, choose(prog, a, b, state)),
        Cont::Test(c, b) => take(conts, test(prog, c, b, state)),
        Cont::Turn(c, b) => take(conts, turn(prog, c, b, state)),
        Cont::Items(block, at) => take(conts, items(prog, block, at, state)),
        Cont::Receiver(id) => receiver(alloc, prog, desk, names, id, state, conts, frames, share),
        Cont::Arguments(id, count) => argument(
            alloc, prog, desk, names, id, count, state, conts, frames, share,
        ),
        Cont::Frame => take(conts, end_body(desk, state, frames)),
        Cont::Method(_) | Cont::Print(_) | Cont::ToStr => {
            apply_rarely(alloc, prog, desk, names, cont, state, conts)
        }
    }
}
