//! A script that takes turns.

ghost use Rattle.std.specs.Prelude.{◌≡◌, ◌+◌, ◌<◌, ℕ, List, false, OnOk};
ghost use mathlib.Core.List.{IsPrefix};
ghost use Rattle.hb_tables.specs.declared.entry.Act.{Act};
ghost use Rattle.hb_tables.specs.Plain.{AreOwn};
ghost use Rattle.hb_eval.specs.Machines.{HasEnded, IsGoing};
ghost use Rattle.hb_turns.specs.Collecting.{AreCollected};
ghost use Rattle.hb_turns.specs.Playing.{IsAt, IsNumbered, IsUnderWay, Plays, Took};

use crate::turns::take_turn;
use hb_call::Share;
use hb_eval::machine::{Machine, Turn};
use hb_names::PlainNames;
use hb_tables::plain::PlainTables;
use hb_tree::program::Program;
use hb_types::ids::CallerId;
use std::alloc::{AllocError, Global};

/// A script's machine, and whether its run is over.
#[derive(Drop)]
pub struct Player {
    pub machine: Machine,
    pub over: bool,
}

/// The player takes a turn.
#[inline(always)]
pub fn play(
    alloc: Global,
    prog: &Program,
    caller: CallerId,
    player: &mut Player,
    tables: &mut PlainTables,
    names: &mut PlainNames,
    share: &mut Share,
) -> Result<(), AllocError>
    requires plays { (steps : ℕ) × (done : List (ℕ × Act)) × Plays prog.now steps caller.0 names.old tables.old.log done player.old.machine }
    requires at { IsAt player.old.over player.old.machine }
    requires goes_on { player.old.over ≡ false }
    requires under_way { IsUnderWay prog.now tables.old.limit names.old tables.old.log }
    requires alone { caller.0 ≡ 0 → AreOwn 0 tables.old.log }
    ensures took { OnOk result (Took prog.now caller.0 names.old names.new tables.old.log tables.new.log player.old.machine player.new.machine) }
    ensures under_way { OnOk result (IsUnderWay prog.now tables.old.limit names.new tables.new.log) }
    ensures at { OnOk result (IsAt player.new.over player.new.machine) }
    ensures numbered { OnOk result ((turns : ℕ) → IsNumbered player.old.over player.old.machine.state.begun turns → IsNumbered player.new.over player.new.machine.state.begun (turns + 1)) }
    ensures named { OnOk result (IsPrefix names.old names.new) }
    ensures collects { OnOk result (AreCollected prog.now names.old names.new tables.old.log tables.new.log share.old share.new) }
    ensures limit { OnOk result (tables.new.limit ≡ tables.old.limit) }
{
    match take_turn(
        alloc,
        prog,
        caller,
        &mut player.machine,
        tables,
        names,
        share,
    )? {
        Turn::More => {}
        Turn::Ended => player.over = true,
    }
    Ok(())
}
