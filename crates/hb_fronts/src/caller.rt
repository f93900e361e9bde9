//! One caller's run, over a desk and names of its own.

ghost use Rattle.std.specs.Prelude.{◌≡◌, ◌≤◌, ℕ, [], Some, length, IfOk};
ghost use Rattle.hb_tree.specs.TreeAt.{IsBlockAt};
ghost use Rattle.hb_names.specs.declared.names.TheConstants.{NAMES_MAX};
ghost use Rattle.hb_tables.specs.Frames.{acts};
ghost use Rattle.hb_call.specs.Held.{stands};
ghost use Rattle.hb_eval.specs.Staying.{Stays};
ghost use Rattle.hb_eval.specs.Told.{told_by};
ghost use Rattle.hb_run.specs.History.{block_of};
ghost use Rattle.hb_fronts.specs.Exits.{HasJournal, IsExit};

use hb_eval::machine::Machine;
use hb_eval::script_run::ScriptRun;
use hb_names::Names;
use hb_run::run_to_end;
use hb_tables::desk::Desk;
use hb_tree::program::Program;
use hb_types::ids::{CallerId, NodeId};
use std::alloc::{AllocError, Global};

/// How each caller runs.
#[derive(Clone, Copy, Debug)]
pub struct CallerOptions {
    /// How many expressions it may begin.
    pub steps: u32,
    /// Whether its run keeps its entries.
    pub keep_journal: bool,
}

/// Runs the block of a caller to its end. The caller has done nothing and has asked for no name yet; others may have done what they like.
pub fn run_caller<D: Desk, N: Names>(
    alloc: Global,
    prog: &Program,
    caller: CallerId,
    block: NodeId,
    options: CallerOptions,
    desk: &mut D,
    names: &mut N,
) -> Result<ScriptRun, AllocError>
    requires caller { (D.fixed desk.old).caller ≡ caller.0 }
    requires runs { block_of prog.now caller.0 ≡ Some block }
    requires block { IsBlockAt prog.now block.0 }
    requires idle { acts caller.0 (D.front desk.old) ≡ [] }
    requires unasked { N.asked names.old ≡ [] }
    requires few { length (N.known names.old) ≤ NAMES_MAX }
    ensures exit { IfOk result (λ run. IsExit prog.now options.steps caller.0 (record { front = D.front desk.new; known = N.known names.new; asked = N.asked names.new }) (told_by run)) }
    ensures journal { IfOk result (λ run. HasJournal options.keep_journal (D.front desk.new) run) }
    ensures stays { Stays (D.fixed desk.old) (D.fixed desk.new) (D.front desk.old) (D.front desk.new) (N.known names.old) (N.known names.new) }
    ensures alike { N.alike names.old names.new }
    // However it went, the caller holds nothing behind it.
    ensures nothing { (q : ℕ) → stands caller.0 q (D.front desk.new) ≡ [] }
{
    let mut machine = Machine::new(alloc, caller, block, options.steps, options.keep_journal)?;
    run_to_end(alloc, prog, &mut machine, desk, names)?;
    Ok(machine.finish())
}
