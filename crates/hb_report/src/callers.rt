//! A history caller by caller.

ghost use Rattle.std.specs.Prelude.{◌≡◌, ◌++◌, IfOk, OnOk};
ghost use Rattle.hb_tables.specs.History.{journal};
ghost use Rattle.hb_report.specs.Journals.{journals, kept, kept_in};

use hb_eval::script_run::ScriptRun;
use hb_tables::entry::Entry;
use std::alloc::{AllocError, Global};

// Adds the entries of a caller.
fn push_journal(all: &mut Vec<Entry>, entries: &[Entry], caller: usize) -> Result<(), AllocError>
    ensures { OnOk result (all.new.items ≡ all.old.items ++ journal caller entries.now) }
{
    for entry in entries {
        if caller == entry.caller.0 as usize {
            all.push(*entry)?;
        }
    }
    Ok(())
}

/// The entries of so many callers, from the setup's on, one caller behind the other.
pub fn journals(alloc: Global, entries: &[Entry], callers: usize) -> Result<Vec<Entry>, AllocError>
    ensures { IfOk result (λ all. all.items ≡ journals callers entries.now) }
{
    let mut all = Vec::new(alloc);
    for caller in 0..callers {
        push_journal(&mut all, entries, caller)?;
    }
    Ok(all)
}

// Adds what a run kept of its caller's entries.
fn push_kept(all: &mut Vec<Entry>, run: &ScriptRun) -> Result<(), AllocError>
    ensures { OnOk result (all.new.items ≡ all.old.items ++ kept run.now) }
{
    match &run.journal {
        None => Ok(()),
        Some(journal) => all.extend_from_slice(journal),
    }
}

/// The entries that these runs kept, one run's behind the other's.
pub fn kept_entries(alloc: Global, runs: &[ScriptRun]) -> Result<Vec<Entry>, AllocError>
    ensures { IfOk result (λ all. all.items ≡ kept_in runs.now) }
{
    let mut all = Vec::new(alloc);
    for run in runs {
        push_kept(&mut all, run)?;
    }
    Ok(all)
}
