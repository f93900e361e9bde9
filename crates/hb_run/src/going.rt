//! A machine that goes on to its end.

ghost use Rattle.std.specs.Prelude.{◌≡◌, ◌+◌, ◌≤◌, ℕ, [], length, OnOk};
ghost use Rattle.hb_names.specs.declared.names.TheConstants.{NAMES_MAX};
ghost use Rattle.hb_call.specs.Held.{stands};
ghost use Rattle.hb_call.specs.OwnCache.{IsTrueCache};
ghost use Rattle.hb_eval.specs.Holding.{Holding, frames_of};
ghost use Rattle.hb_eval.specs.Machines.{HasEnded, IsFineMachine, IsGoing};
ghost use Rattle.hb_eval.specs.Staying.{Stays};
ghost use Rattle.hb_run.specs.Going.{Went};

use hb_call::Share;
use hb_eval::machine::{Machine, Turn};
use hb_eval::pace::Far;
use hb_names::Names;
use hb_tables::desk::Desk;
use hb_tree::program::Program;
use std::alloc::{AllocError, Global};

/// Runs a machine to its end. However that goes, the door and what was known through it stay, and the caller holds nothing then.
pub fn run_to_end<D: Desk, N: Names>(
    alloc: Global,
    prog: &Program,
    machine: &mut Machine,
    desk: &mut D,
    names: &mut N,
) -> Result<(), AllocError>
    requires fine { IsFineMachine prog.now machine.old }
    requires going { IsGoing machine.old }
    requires holding { Holding (D.fixed desk.old).caller (machine.old.state.made + 1) (frames_of machine.old.frames.items) (D.front desk.old) }
    requires few { length (N.known names.old) ≤ NAMES_MAX }
    requires cache { IsTrueCache prog.now (N.known names.old) (N.asked names.old) (D.fixed desk.old).caller (D.front desk.old) machine.old.state.cache }
    ensures fine { OnOk result (IsFineMachine prog.now machine.new) }
    ensures ended { OnOk result (HasEnded machine.new) }
    ensures went { OnOk result (Went prog.now (D.fixed desk.old) (D.fixed desk.new) (N.known names.old) (N.known names.new) (N.asked names.old) (N.asked names.new) (D.front desk.old) (D.front desk.new) machine.old machine.new) }
    ensures stays { Stays (D.fixed desk.old) (D.fixed desk.new) (D.front desk.old) (D.front desk.new) (N.known names.old) (N.known names.new) }
    ensures alike { N.alike names.old names.new }
    ensures nothing { (q : ℕ) → stands (D.fixed desk.old).caller q (D.front desk.new) ≡ [] }
{
    // Nothing is collected of its checks.
    let mut share = Share::Off;
    loop {
        match machine.advance::<Far, D, N>(alloc, prog, desk, names, &mut share)? {
            Turn::More => {}
            Turn::Ended => return Ok(()),
        }
    }
}
