//! What is true of every run.

ghost use Rattle.std.specs.Prelude.{◌≡◌, ◌≤◌, ℕ, List, Some, length};
ghost use mathlib.Core.List.{IsPrefix};
ghost use Rattle.hb_tree.specs.Table.{Table};
ghost use Rattle.hb_names.specs.declared.names.TheConstants.{NAMES_MAX};
ghost use Rattle.hb_names.specs.Names.{Name};
ghost use Rattle.hb_tables.specs.declared.entry.Act.{Act};
ghost use Rattle.hb_eval.specs.Calls.{call_in};
ghost use Rattle.hb_eval.specs.Runs.{Run, script_run};

/// The run of a block for a list of names is its run for each longer one.
pub fn runs_stay_runs()
    ensures { (t : Table) (names longer : List Name) (block steps : ℕ) (journal : List Act) (run : Run) → IsPrefix names longer → length longer ≤ NAMES_MAX
        → script_run t names (call_in t names 4096) block steps journal ≡ Some run → script_run t longer (call_in t longer 4096) block steps journal ≡ Some run }
{}
