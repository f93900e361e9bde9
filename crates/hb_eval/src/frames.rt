//! How frames end, and how a stop passes what is left to do.

ghost use Rattle.std.specs.Prelude.{◌≡◌, ◌+◌, ◌≤◌, [], ◌∷◌, List, length, None};
ghost use mathlib.Core.List.{IsPrefix};
ghost use Rattle.hb_tree.specs.Table.{Table};
ghost use Rattle.hb_names.specs.Names.{Name};
ghost use Rattle.hb_tables.specs.History.{IsLegal};
ghost use Rattle.hb_call.specs.Growth.{Grown};
ghost use Rattle.hb_eval.specs.declared.state.Hand.TheVariants as hands;
ghost use Rattle.hb_eval.specs.declared.cont.Cont.TheVariants as cont;
ghost use Rattle.hb_eval.specs.Machine.{need, frames_in};
ghost use Rattle.hb_eval.specs.Steps.{Steady};
ghost use Rattle.hb_eval.specs.Keeping.{StaysOwn};
ghost use Rattle.hb_eval.specs.Holding.{Holding, frames_of};
ghost use Rattle.hb_eval.specs.Turns.{Goes, Reads, after, with_value};
ghost use Rattle.hb_eval.specs.Ends.{Leaves, Lowers, with_stop};

use crate::cont::Cont;
use crate::framed::Framed;
use crate::moves::in_hand;
use crate::state::{Move, State};
use hb_call::leave_lent;
use hb_tables::desk::Desk;

// A frame ends: its call gives its keys back, and the caller's variables and class are there again.
#[inline(never)]
fn end<D: Desk>(desk: &mut D, state: &mut State, frames: &mut Vec<Framed>)
    requires frames { 1 ≤ length frames.old.items }
    requires holding { Holding (D.fixed desk.old).caller (state.old.made + 1) (frames_of frames.old.items) (D.front desk.old) }
    ensures leaves { Leaves (D.fixed desk.old).caller (D.front desk.old) (D.front desk.new) frames.old.items state.old frames.new.items state.new }
    ensures holding { Holding (D.fixed desk.old).caller (state.new.made + 1) (frames_of frames.new.items) (D.front desk.new) }
    ensures kept { IsPrefix (D.front desk.old) (D.front desk.new) }
    ensures grown { (t : Table) (names asked : List Name) → Grown t (D.fixed desk.old).caller names asked asked (D.front desk.old) (D.front desk.new) }
    ensures own { StaysOwn (D.fixed desk.old).caller (D.front desk.old) (D.front desk.new) state.old.cache state.new.cache }
    ensures legal { IsLegal (D.fixed desk.old).limit (D.front desk.old) → IsLegal (D.fixed desk.old).limit (D.front desk.new) }
    ensures fixed { D.fixed desk.new ≡ D.fixed desk.old }
{
    match frames.pop() {
        None => unreachable!(),
        Some(Framed { frame, base, class }) => {
            leave_lent(frame, desk, &mut state.cache);
            state.vars.truncate(state.base);
            state.base = base;
            state.class = class;
        }
    }
}

/// The body of a method has a value.
#[inline(always)]
pub(crate) fn end_body<D: Desk>(desk: &mut D, state: &mut State, frames: &mut Vec<Framed>) -> Move
    requires frames { 1 ≤ length frames.old.items }
    requires holding { Holding (D.fixed desk.old).caller (state.old.made + 1) (frames_of frames.old.items) (D.front desk.old) }
    ensures reads { (t : Table) (known : List Name) → Reads known (D.fixed desk.old).caller (D.front desk.old) (D.front desk.new) state.old state.new
        (with_value t cont.Frame frames.old.items state.old) (after t result frames.new.items state.new) }
    ensures goes { (t : Table) → Goes t 0 1 0 frames.old.items state.old frames.new.items state.new result }
    ensures plain { result ≡ record { under = None; push = None; hand = hands.Gives } }
    ensures steady { Steady state.old state.new }
    ensures holding { Holding (D.fixed desk.old).caller (state.new.made + 1) (frames_of frames.new.items) (D.front desk.new) }
    ensures kept { IsPrefix (D.front desk.old) (D.front desk.new) }
    ensures grown { (t : Table) (names asked : List Name) → Grown t (D.fixed desk.old).caller names asked asked (D.front desk.old) (D.front desk.new) }
    ensures own { StaysOwn (D.fixed desk.old).caller (D.front desk.old) (D.front desk.new) state.old.cache state.new.cache }
    ensures legal { IsLegal (D.fixed desk.old).limit (D.front desk.old) → IsLegal (D.fixed desk.old).limit (D.front desk.new) }
    ensures fixed { D.fixed desk.new ≡ D.fixed desk.old }
{
    end(desk, state, frames);
    in_hand()
}

// How many operands this takes.
fn needs(cont: Cont) -> usize
    ensures { result ≡ need cont }
{
    match cont {
        Cont::Right(_, _) => 1,
        Cont::Arguments(_, count) => 1 + count as usize,
        _ => 0,
    }
}

/// A stop passes what was to be done.
#[cold]
#[inline(never)]
pub(crate) fn pass<D: Desk>(desk: &mut D, cont: Cont, state: &mut State, frames: &mut Vec<Framed>)
    requires operands { need cont ≤ length state.old.operands.items }
    requires frames { frames_in cont ≤ length frames.old.items }
    requires holding { Holding (D.fixed desk.old).caller (state.old.made + 1) (frames_of frames.old.items) (D.front desk.old) }
    ensures reads { (t : Table) (known : List Name) → Reads known (D.fixed desk.old).caller (D.front desk.old) (D.front desk.new) state.old state.new
        (with_stop t (cont ∷ []) frames.old.items state.old) (with_stop t [] frames.new.items state.new) }
    ensures lowers { (t : Table) → Lowers t (need cont) (frames_in cont) frames.old.items state.old frames.new.items state.new }
    ensures holding { Holding (D.fixed desk.old).caller (state.new.made + 1) (frames_of frames.new.items) (D.front desk.new) }
    ensures kept { IsPrefix (D.front desk.old) (D.front desk.new) }
    ensures grown { (t : Table) (names asked : List Name) → Grown t (D.fixed desk.old).caller names asked asked (D.front desk.old) (D.front desk.new) }
    ensures own { StaysOwn (D.fixed desk.old).caller (D.front desk.old) (D.front desk.new) state.old.cache state.new.cache }
    ensures legal { IsLegal (D.fixed desk.old).limit (D.front desk.old) → IsLegal (D.fixed desk.old).limit (D.front desk.new) }
    ensures fixed { D.fixed desk.new ≡ D.fixed desk.old }
{
    match cont {
        Cont::Frame => end(desk, state, frames),
        _ => {
            let left = state.operands.len() - needs(cont);
            state.operands.truncate(left);
        }
    }
}
