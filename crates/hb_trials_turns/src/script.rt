//! A script with its seat at the words, between two turns.

ghost use Rattle.std.specs.Prelude.{◌≡◌, ◌+◌, ◌<◌, ◌≤◌, [], length, List, IfOk, OnOk};
ghost use mathlib.Core.List.{IsPrefix};
ghost use Rattle.hb_tree.specs.TreeAt.{IsBlockAt};
ghost use Rattle.hb_names.specs.declared.names.TheConstants.{NAMES_MAX};
ghost use Rattle.hb_names.specs.Names.{Name};
ghost use Rattle.hb_tables.specs.History.{journal};
ghost use Rattle.hb_call.specs.OwnCache.{IsTrueCache};
ghost use Rattle.hb_eval.specs.Holding.{Holding, frames_of};
ghost use Rattle.hb_eval.specs.Machines.{HasEnded, IsFineMachine, IsGoing, Turns};
ghost use Rattle.hb_eval.specs.Staying.{Stays};
ghost use Rattle.hb_words.specs.Seats.{IsSeatAt, view_of};
ghost use Rattle.hb_trials_turns.specs.Scripts.{IsReady, IsSameCaller};

use hb_call::Share;
use hb_eval::machine::{Machine, Turn};
use hb_eval::pace::One;
use hb_eval::script_run::ScriptRun;
use hb_names::PlainNames;
use hb_run::run_to_end;
use hb_tables::desk::Desk;
use hb_tree::program::Program;
use hb_types::ids::{CallerId, NodeId};
use hb_words::desk::WordDesk;
use hb_words::words::{MethodWords, WordSeat};
use std::alloc::{AllocError, Global};

/// How many expressions a script may begin.
pub const STEPS: u32 = 100_000;

/// A script between two turns, and its seat.
#[derive(Drop)]
pub struct Script {
    machine: Machine,
    seat: WordSeat,
    over: bool,
}

// One turn of a machine at a desk.
fn advance<D: Desk>(
    alloc: Global,
    prog: &Program,
    machine: &mut Machine,
    desk: &mut D,
    names: &mut PlainNames,
) -> Result<Turn, AllocError>
    requires fine { IsFineMachine prog.now machine.old }
    requires going { IsGoing machine.old }
    requires holding { Holding (D.fixed desk.old).caller (machine.old.state.made + 1) (frames_of machine.old.frames.items) (D.front desk.old) }
    requires checks { IsTrueCache prog.now names.old names.old (D.fixed desk.old).caller (D.front desk.old) machine.old.state.cache }
    ensures fine { OnOk result (IsFineMachine prog.now machine.new) }
    ensures turn { IfOk result (λ turn. Turns turn machine.old machine.new) }
    ensures holding { OnOk result (Holding (D.fixed desk.old).caller (machine.new.state.made + 1) (frames_of machine.new.frames.items) (D.front desk.new)) }
    ensures checks { OnOk result (IsTrueCache prog.now names.new names.new (D.fixed desk.old).caller (D.front desk.new) machine.new.state.cache) }
    ensures stays { Stays (D.fixed desk.old) (D.fixed desk.new) (D.front desk.old) (D.front desk.new) names.old names.new }
{
    machine.advance::<One, _, _>(alloc, prog, desk, names, &mut Share::Off)
}

// One turn of a machine by a seat.
fn advance_at(
    alloc: Global,
    prog: &Program,
    machine: &mut Machine,
    words: &MethodWords,
    seat: &mut WordSeat,
    names: &mut PlainNames,
) -> Result<Turn, AllocError>
    requires fine { IsFineMachine prog.now machine.old }
    requires going { IsGoing machine.old }
    requires seat { IsSeatAt words.now seat.old }
    requires holding { Holding (view_of seat.old).caller (machine.old.state.made + 1) (frames_of machine.old.frames.items) (view_of seat.old).seen }
    requires checks { IsTrueCache prog.now names.old names.old (view_of seat.old).caller (view_of seat.old).seen machine.old.state.cache }
    ensures fine { OnOk result (IsFineMachine prog.now machine.new) }
    ensures turn { IfOk result (λ turn. Turns turn machine.old machine.new) }
    ensures seat { IsSeatAt words.now seat.new }
    ensures caller { IsSameCaller seat.old seat.new }
    ensures holding { OnOk result (Holding (view_of seat.old).caller (machine.new.state.made + 1) (frames_of machine.new.frames.items) (view_of seat.new).seen) }
    ensures checks { OnOk result (IsTrueCache prog.now names.new names.new (view_of seat.old).caller (view_of seat.new).seen machine.new.state.cache) }
    ensures named { IsPrefix names.old names.new }
    ensures few { length names.old ≤ NAMES_MAX → length names.new ≤ NAMES_MAX }
{
    let mut desk = WordDesk::new(words, seat);
    advance(alloc, prog, machine, &mut desk, names)
}

// All turns of a machine that are left, by a seat.
fn run_at(
    alloc: Global,
    prog: &Program,
    machine: &mut Machine,
    words: &MethodWords,
    seat: &mut WordSeat,
    names: &mut PlainNames,
) -> Result<(), AllocError>
    requires fine { IsFineMachine prog.now machine.old }
    requires going { IsGoing machine.old }
    requires seat { IsSeatAt words.now seat.old }
    requires holding { Holding (view_of seat.old).caller (machine.old.state.made + 1) (frames_of machine.old.frames.items) (view_of seat.old).seen }
    requires checks { IsTrueCache prog.now names.old names.old (view_of seat.old).caller (view_of seat.old).seen machine.old.state.cache }
    requires few { length names.old ≤ NAMES_MAX }
    ensures ended { OnOk result (HasEnded machine.new) }
    ensures seat { IsSeatAt words.now seat.new }
    ensures caller { IsSameCaller seat.old seat.new }
    ensures named { IsPrefix names.old names.new }
    ensures few { length names.new ≤ NAMES_MAX }
{
    let mut desk = WordDesk::new(words, seat);
    run_to_end(alloc, prog, machine, &mut desk, names)
}

impl Script {
    /// A script that has not begun, with the seat of a caller that has done nothing.
    pub fn begin(
        alloc: Global,
        prog: &Program,
        words: &MethodWords,
        seat: WordSeat,
        caller: CallerId,
        block: NodeId,
    ) -> Result<Script, AllocError>
        requires block { IsBlockAt prog.now block.0 }
        requires seat { IsSeatAt words.now seat }
        requires caller { (view_of seat).caller ≡ caller.0 }
        requires none { journal caller.0 (view_of seat).seen ≡ [] }
        ensures ready { IfOk result (λ s. (names : List Name) → IsReady prog.now words.now names s) }
        ensures seat { IfOk result (λ s. s.seat ≡ seat) }
    {
        Ok(Script {
            machine: Machine::new(alloc, caller, block, STEPS, false)?,
            seat,
            over: false,
        })
    }

    /// One turn, where the script is not over.
    pub fn advance(
        &mut self,
        alloc: Global,
        prog: &Program,
        words: &MethodWords,
        names: &mut PlainNames,
    ) -> Result<(), AllocError>
        requires ready { IsReady prog.now words.now names.old self.old }
        ensures ready { OnOk result (IsReady prog.now words.now names.new self.new) }
        ensures caller { IsSameCaller self.old.seat self.new.seat }
        ensures named { IsPrefix names.old names.new }
        ensures few { length names.old ≤ NAMES_MAX → length names.new ≤ NAMES_MAX }
    {
        if self.over {
            return Ok(());
        }
        match advance_at(alloc, prog, &mut self.machine, words, &mut self.seat, names)? {
            Turn::More => Ok(()),
            Turn::Ended => {
                self.over = true;
                Ok(())
            }
        }
    }

    /// All turns that are left: its run, and its seat.
    pub fn run_out(
        self,
        alloc: Global,
        prog: &Program,
        words: &MethodWords,
        names: &mut PlainNames,
    ) -> Result<(ScriptRun, WordSeat), AllocError>
        requires ready { IsReady prog.now words.now names.old self }
        requires few { length names.old ≤ NAMES_MAX }
        ensures seat { IfOk result (λ r. IsSeatAt words.now r.1) }
        ensures caller { IfOk result (λ r. IsSameCaller self.seat r.1) }
        ensures named { IsPrefix names.old names.new }
        ensures few { length names.new ≤ NAMES_MAX }
    {
        let Script {
            mut machine,
            mut seat,
            over,
        } = self;
        if over {
            return Ok((machine.finish(), seat));
        }
        run_at(alloc, prog, &mut machine, words, &mut seat, names)?;
        Ok((machine.finish(), seat))
    }
}
