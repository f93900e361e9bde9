//! A player that plays on to its end.

ghost use Rattle.std.specs.Prelude.{◌≡◌, ◌+◌, ℕ, List, length, drop, true, false, OnOk};
ghost use Rattle.hb_tables.specs.declared.entry.Act.{Act};
ghost use Rattle.hb_tables.specs.Plain.{AreOwn};
ghost use Rattle.hb_call.specs.OwnCache.{IsTrueCache};
ghost use Rattle.hb_eval.specs.Gathering.{Shares};
ghost use Rattle.hb_eval.specs.Holding.{Holding, frames_of};
ghost use Rattle.hb_eval.specs.Machines.{IsFineMachine, keeps};
ghost use Rattle.hb_eval.specs.Staying.{Stays};
ghost use Rattle.hb_turns.specs.Collecting.{AreCollected};
ghost use Rattle.hb_turns.specs.Playing.{IsAt, Plays};
ghost use Rattle.hb_turns.specs.Players.{GoesAmong};

use crate::player::Player;
use hb_call::Share;
use hb_eval::machine::Turn;
use hb_eval::noting::Lent;
use hb_eval::pace::Far;
use hb_names::PlainNames;
use hb_tables::desk::Desk;
use hb_tables::plain::PlainTables;
use hb_tree::program::Program;
use hb_types::ids::CallerId;
use std::alloc::{AllocError, Global};

// The player takes its turns through one door until its run is over. It takes several at once, where all but the last of them ask no table.
fn take_turns<D: Desk>(
    alloc: Global,
    prog: &Program,
    player: &mut Player,
    desk: &mut D,
    names: &mut PlainNames,
    share: &mut Share,
) -> Result<(), AllocError>
    requires at { IsAt player.old.over player.old.machine }
    requires fine { IsFineMachine prog.now player.old.machine }
    requires plain { keeps player.old.machine ≡ false }
    requires holding { Holding (D.fixed desk.old).caller (player.old.machine.state.made + 1) (frames_of player.old.machine.frames.items) (D.front desk.old) }
    requires cache { IsTrueCache prog.now names.old names.old (D.fixed desk.old).caller (D.front desk.old) player.old.machine.state.cache }
    ensures over { OnOk result (player.new.over ≡ true) }
    ensures stays { OnOk result (Stays (D.fixed desk.old) (D.fixed desk.new) (D.front desk.old) (D.front desk.new) names.old names.new) }
    ensures shares { OnOk result (Shares prog.now names.new (D.fixed desk.old).caller (D.front desk.old) (D.front desk.new) share.old share.new) }
    ensures goes { OnOk result (AreOwn (D.fixed desk.old).caller (drop (length (D.front desk.old)) (D.front desk.new))
        → GoesAmong prog.now (D.fixed desk.old).limit (D.fixed desk.old).caller names.old names.new (D.front desk.old) (D.front desk.new) player.old player.new) }
{
    if player.over {
        return Ok(());
    }
    loop {
        match player
            .machine
            .advance_unnoted::<Far, _, _>(alloc, prog, desk, names, share)?
        {
            Turn::More => {}
            Turn::Ended => break,
        }
    }
    player.over = true;
    Ok(())
}

/// The caller's player plays on to its end.
pub fn play_to_end(
    alloc: Global,
    prog: &Program,
    caller: CallerId,
    player: &mut Player,
    tables: &mut PlainTables,
    names: &mut PlainNames,
    share: &mut Share,
) -> Result<(), AllocError>
    requires plays { (steps : ℕ) × (done : List (ℕ × Act)) × Plays prog.now steps caller.0 names.old tables.old.log done player.old.machine }
    requires at { IsAt player.old.over player.old.machine }
    ensures over { OnOk result (player.new.over ≡ true) }
    ensures goes { OnOk result (GoesAmong prog.now tables.old.limit caller.0 names.old names.new tables.old.log tables.new.log player.old player.new) }
    ensures collects { OnOk result (AreCollected prog.now names.old names.new tables.old.log tables.new.log share.old share.new) }
    ensures limit { OnOk result (tables.new.limit ≡ tables.old.limit) }
{
    let mut desk = tables.desk(caller);
    // Through a lent door, so that this loop has code of its own, into which a step is inlined.
    let mut lent = Lent { desk: &mut desk };
    take_turns(alloc, prog, player, &mut lent, names, share)?;
    // All entries that came are the caller's own.
    tables.history();
    Ok(())
}
