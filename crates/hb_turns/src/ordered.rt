//! The scripts of a program, by turns.

ghost use Rattle.std.specs.Prelude.{◌≡◌, ◌+◌, ◌<◌, ◌≤◌, ℕ, List, [], length, map, slice_get, Some, false, OnOk};
ghost use mathlib.Core.List.{IsPrefix};
ghost use Rattle.hb_tables.specs.declared.entry.Entry.{Entry};
ghost use Rattle.hb_turns.specs.Collecting.{AreCollected};
ghost use Rattle.hb_turns.specs.Playing.{Taken};
ghost use Rattle.hb_turns.specs.Players.{AreOver, Follows, GoOn, GoesOne, HaveGone, HavePlayed, TookTurn};

use crate::player::{Player, play};
use crate::playing_out::play_to_end;
use hb_call::Share;
use hb_names::PlainNames;
use hb_tables::plain::PlainTables;
use hb_tree::program::Program;
use hb_types::ids::CallerId;
use std::alloc::{AllocError, Global};

/// The player at this place takes a turn. The callers of the players go on from the first one.
#[inline(always)]
pub fn turn_at(
    alloc: Global,
    prog: &Program,
    first: u8,
    players: &mut Vec<Player>,
    at: usize,
    tables: &mut PlainTables,
    names: &mut PlainNames,
    share: &mut Share,
) -> Result<(), AllocError>
    requires there { at < length players.old.items }
    requires goes_on { (p : Player) → slice_get players.old.items at ≡ Some p → p.over ≡ false }
    requires few { first + length players.old.items ≤ 256 }
    requires played { (steps : ℕ) × (start : List Entry) × (us : List Taken) × HavePlayed prog.now tables.old.limit steps first start us names.old tables.old.log players.old.items }
    ensures took { OnOk result (TookTurn prog.now tables.old.limit first at 0 names.old names.new tables.old.log tables.new.log players.old.items players.new.items) }
    ensures collects { OnOk result (AreCollected prog.now names.old names.new tables.old.log tables.new.log share.old share.new) }
    ensures limit { OnOk result (tables.new.limit ≡ tables.old.limit) }
{
    let caller = CallerId(first + at as u8);
    let player = &mut players[at];
    play(alloc, prog, caller, player, tables, names, share)?;
    Ok(())
}

/// The players take their turns by the order, as far as it goes. A script that there is not, or whose run is over, is passed over.
#[inline(never)]
pub fn play_by_order(
    alloc: Global,
    prog: &Program,
    order: &[CallerId],
    players: &mut Vec<Player>,
    tables: &mut PlainTables,
    names: &mut PlainNames,
    share: &mut Share,
) -> Result<(), AllocError>
    requires few { length players.old.items ≤ 255 }
    requires played { (steps : ℕ) × (start : List Entry) × HavePlayed prog.now tables.old.limit steps 1 start [] names.old tables.old.log players.old.items }
    ensures gone { OnOk result (HaveGone prog.now tables.old.limit (map (λ c. c.0) order.now) [] names.old names.new tables.old.log tables.new.log players.old.items players.new.items) }
    ensures collects { OnOk result (AreCollected prog.now names.old names.new tables.old.log tables.new.log share.old share.new) }
    ensures limit { OnOk result (tables.new.limit ≡ tables.old.limit) }
{
    let mut next = 0;
    while next < order.len() {
        follow(alloc, prog, order[next], players, tables, names, share)?;
        next += 1;
    }
    Ok(())
}

// Follows one script of the order.
fn follow(
    alloc: Global,
    prog: &Program,
    script: CallerId,
    players: &mut Vec<Player>,
    tables: &mut PlainTables,
    names: &mut PlainNames,
    share: &mut Share,
) -> Result<(), AllocError>
    requires few { length players.old.items ≤ 255 }
    requires played { (steps : ℕ) × (start : List Entry) × (us : List Taken) × HavePlayed prog.now tables.old.limit steps 1 start us names.old tables.old.log players.old.items }
    ensures follows { OnOk result (Follows prog.now tables.old.limit script.0 names.old names.new tables.old.log tables.new.log players.old.items players.new.items) }
    ensures collects { OnOk result (AreCollected prog.now names.old names.new tables.old.log tables.new.log share.old share.new) }
    ensures limit { OnOk result (tables.new.limit ≡ tables.old.limit) }
{
    if script.0 == 0 || script.0 as usize > players.len() {
        return Ok(());
    }
    turn_unless_over(
        alloc,
        prog,
        players,
        script.0 as usize - 1,
        tables,
        names,
        share,
    )?;
    Ok(())
}

// The player at this place takes a turn, where its run is not over.
fn turn_unless_over(
    alloc: Global,
    prog: &Program,
    players: &mut Vec<Player>,
    at: usize,
    tables: &mut PlainTables,
    names: &mut PlainNames,
    share: &mut Share,
) -> Result<(), AllocError>
    requires there { at < length players.old.items }
    requires few { length players.old.items ≤ 255 }
    requires played { (steps : ℕ) × (start : List Entry) × (us : List Taken) × HavePlayed prog.now tables.old.limit steps 1 start us names.old tables.old.log players.old.items }
    ensures goes { OnOk result (GoesOne prog.now tables.old.limit at names.old names.new tables.old.log tables.new.log players.old.items players.new.items) }
    ensures collects { OnOk result (AreCollected prog.now names.old names.new tables.old.log tables.new.log share.old share.new) }
    ensures limit { OnOk result (tables.new.limit ≡ tables.old.limit) }
{
    if players[at].over {
        return Ok(());
    }
    turn_at(alloc, prog, 1, players, at, tables, names, share)?;
    Ok(())
}

/// All players play on to their ends, one behind the other.
pub fn play_out(
    alloc: Global,
    prog: &Program,
    players: &mut Vec<Player>,
    tables: &mut PlainTables,
    names: &mut PlainNames,
    share: &mut Share,
) -> Result<(), AllocError>
    requires few { length players.old.items ≤ 255 }
    requires many { length prog.now.scripts ≡ length players.old.items }
    requires played { (steps : ℕ) × (start : List Entry) × (us : List Taken) × HavePlayed prog.now tables.old.limit steps 1 start us names.old tables.old.log players.old.items }
    ensures over { OnOk result (AreOver (length players.new.items) players.new.items) }
    ensures gone { OnOk result (GoOn prog.now tables.old.limit names.old names.new tables.old.log tables.new.log players.old.items players.new.items) }
    ensures collects { OnOk result (AreCollected prog.now names.old names.new tables.old.log tables.new.log share.old share.new) }
    ensures limit { OnOk result (tables.new.limit ≡ tables.old.limit) }
{
    let mut at = 0;
    while at < players.len() {
        play_out_at(alloc, prog, players, at, tables, names, share)?;
        at += 1;
    }
    Ok(())
}

// The player at this place plays on to its end.
fn play_out_at(
    alloc: Global,
    prog: &Program,
    players: &mut Vec<Player>,
    at: usize,
    tables: &mut PlainTables,
    names: &mut PlainNames,
    share: &mut Share,
) -> Result<(), AllocError>
    requires there { at < length players.old.items }
    requires few { length players.old.items ≤ 255 }
    requires many { length prog.now.scripts ≡ length players.old.items }
    requires played { (steps : ℕ) × (start : List Entry) × (us : List Taken) × HavePlayed prog.now tables.old.limit steps 1 start us names.old tables.old.log players.old.items }
    requires over { AreOver at players.old.items }
    ensures over { OnOk result (AreOver (at + 1) players.new.items) }
    ensures gone { OnOk result (GoOn prog.now tables.old.limit names.old names.new tables.old.log tables.new.log players.old.items players.new.items) }
    ensures collects { OnOk result (AreCollected prog.now names.old names.new tables.old.log tables.new.log share.old share.new) }
    ensures limit { OnOk result (tables.new.limit ≡ tables.old.limit) }
{
    let caller = CallerId(1 + at as u8);
    let player = &mut players[at];
    play_to_end(alloc, prog, caller, player, tables, names, share)?;
    Ok(())
}
