//! One caller's run, by seats at the words and at the row of names.

ghost use Rattle.std.specs.Prelude.{◌≡◌, ◌≤◌, ℕ, [], Some, length, IfOk};
ghost use Rattle.hb_tree.specs.TreeAt.{IsBlockAt};
ghost use Rattle.hb_names.specs.declared.names.TheConstants.{NAMES_MAX};
ghost use Rattle.hb_tables.specs.Frames.{acts};
ghost use Rattle.hb_call.specs.Held.{stands};
ghost use Rattle.hb_eval.specs.Told.{told_by};
ghost use Rattle.hb_row.specs.Seats.{IsSeatOf, asked_by};
ghost use Rattle.hb_run.specs.History.{block_of};
ghost use Rattle.hb_fronts.specs.Exits.{HasJournal, IsExit};
ghost use Rattle.hb_words.specs.Seats.{IsSeatAt, view_of};
ghost use Rattle.hb_threads.specs.Seated.{IsStill, IsSameRow, known_at};

use crate::gate::Gate;
use crate::gated::GatedDesk;
use hb_eval::script_run::ScriptRun;
use hb_fronts::{CallerOptions, run_caller};
use hb_names::Names;
use hb_row::{NameDoor, NameRow, NameSeat};
use hb_tables::desk::Desk;
use hb_tree::program::Program;
use hb_types::ids::{CallerId, NodeId};
use hb_words::desk::WordDesk;
use hb_words::words::{MethodWords, WordSeat};
use std::alloc::{AllocError, Global};

// Runs the block of a caller to its end, behind a gate.
fn run_gated<D: Desk, N: Names, G: Gate>(
    alloc: Global,
    prog: &Program,
    caller: CallerId,
    block: NodeId,
    options: CallerOptions,
    desk: &mut D,
    names: &mut N,
    gate: &G,
) -> Result<ScriptRun, AllocError>
    requires caller { (D.fixed desk.old).caller ≡ caller.0 }
    requires runs { block_of prog.now caller.0 ≡ Some block }
    requires block { IsBlockAt prog.now block.0 }
    requires idle { acts caller.0 (D.front desk.old) ≡ [] }
    requires unasked { N.asked names.old ≡ [] }
    requires few { length (N.known names.old) ≤ NAMES_MAX }
    ensures exit { IfOk result (λ run. IsExit prog.now options.steps caller.0 (record { front = D.front desk.new; known = N.known names.new; asked = N.asked names.new }) (told_by run)) }
    ensures journal { IfOk result (λ run. HasJournal options.keep_journal (D.front desk.new) run) }
    ensures fixed { D.fixed desk.new ≡ D.fixed desk.old }
    ensures alike { N.alike names.old names.new }
    ensures nothing { (q : ℕ) → stands caller.0 q (D.front desk.new) ≡ [] }
{
    let mut gated = GatedDesk::new(desk, gate);
    run_caller(alloc, prog, caller, block, options, &mut gated, names)
}

/// Runs the block of a caller to its end by its seats. The caller has done nothing and has asked for no name yet. However it went, its seats stay its own, and it holds nothing.
pub fn run_seat<G: Gate>(
    alloc: Global,
    prog: &Program,
    caller: CallerId,
    block: NodeId,
    options: CallerOptions,
    words: &MethodWords,
    seat: &mut WordSeat,
    row: &NameRow,
    names: &mut NameSeat,
    gate: &G,
) -> Result<ScriptRun, AllocError>
    requires caller { (view_of seat.old).caller ≡ caller.0 }
    requires runs { block_of prog.now caller.0 ≡ Some block }
    requires block { IsBlockAt prog.now block.0 }
    requires seat { IsSeatAt words.now seat.old }
    requires idle { acts caller.0 (view_of seat.old).seen ≡ [] }
    requires names { IsSeatOf row.now.table.shared.table_id names.old }
    requires unasked { asked_by names.old ≡ [] }
    ensures seat { IsStill words.now seat.old seat.new }
    ensures names { IsSameRow row.now names.old names.new }
    ensures exit { IfOk result (λ run. IsExit prog.now options.steps caller.0 (known_at seat.new names.new) (told_by run)) }
    ensures journal { IfOk result (λ run. HasJournal options.keep_journal (view_of seat.new).seen run) }
    ensures nothing { (q : ℕ) → stands caller.0 q (view_of seat.new).seen ≡ [] }
{
    let mut desk = WordDesk::new(words, seat);
    let mut door = NameDoor::new(row, names);
    run_gated(
        alloc, prog, caller, block, options, &mut desk, &mut door, gate,
    )
}
