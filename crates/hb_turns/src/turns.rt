//! Callers that take turns over plain tables.

ghost use Rattle.std.specs.Prelude.{◌≡◌, ℕ, false, List, [], ◌∷◌, IfOk, OnOk};
ghost use mathlib.Core.List.{IsPrefix};
ghost use Rattle.hb_tables.specs.declared.entry.Act.{Act};
ghost use Rattle.hb_tables.specs.Plain.{AreOwn};
ghost use Rattle.hb_eval.specs.Machines.{HasBegun, HasEnded, IsGoing, Turns};
ghost use Rattle.hb_turns.specs.Collecting.{AreCollected};
ghost use Rattle.hb_turns.specs.Playing.{Plays, IsUnderWay, Took};

use hb_call::Share;
use hb_eval::machine::{Machine, Turn};
use hb_eval::pace::One;
use hb_names::PlainNames;
use hb_tables::plain::PlainTables;
use hb_tree::program::Program;
use hb_types::ids::CallerId;
use std::alloc::{AllocError, Global};

/// One turn of a caller. What the others play stays as it is.
#[inline(always)]
pub fn take_turn(
    alloc: Global,
    prog: &Program,
    caller: CallerId,
    machine: &mut Machine,
    tables: &mut PlainTables,
    names: &mut PlainNames,
    share: &mut Share,
) -> Result<Turn, AllocError>
    requires plays { (steps : ℕ) × (done : List (ℕ × Act)) × Plays prog.now steps caller.0 names.old tables.old.log done machine.old }
    requires going { IsGoing machine.old }
    requires under_way { IsUnderWay prog.now tables.old.limit names.old tables.old.log }
    requires alone { caller.0 ≡ 0 → AreOwn 0 tables.old.log }
    ensures took { OnOk result (Took prog.now caller.0 names.old names.new tables.old.log tables.new.log machine.old machine.new) }
    ensures under_way { OnOk result (IsUnderWay prog.now tables.old.limit names.new tables.new.log) }
    ensures turn { IfOk result (λ turn. Turns turn machine.old machine.new) }
    ensures begun { IfOk result (λ turn. HasBegun false turn machine.old machine.new) }
    ensures named { OnOk result (IsPrefix names.old names.new) }
    ensures collects { OnOk result (AreCollected prog.now names.old names.new tables.old.log tables.new.log share.old share.new) }
    ensures limit { OnOk result (tables.new.limit ≡ tables.old.limit) }
{
    let mut desk = tables.desk(caller);
    let turn = machine.advance_unnoted::<One, _, _>(alloc, prog, &mut desk, names, share)?;
    // All entries that came are the caller's own.
    tables.history();
    Ok(turn)
}
