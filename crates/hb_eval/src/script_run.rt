//! What the run of a setup or of a script came to.

use crate::stop::Outcome;
use hb_tables::entry::Entry;
use hb_types::ids::CallerId;

/// What is told of a run.
#[derive(Drop)]
pub struct ScriptRun {
    /// Whose run it is: 0 for the setup, and i for the i-th script.
    pub caller: CallerId,
    pub outcome: Outcome,
    /// The lines that it printed.
    pub output: Vec<u8>,
    /// How many calls were decided.
    pub calls: u32,
    /// How many of them entered on a check that the script itself had kept.
    pub own: u32,
    /// How many of them entered on a check that another script shared.
    pub shared: u32,
    /// How many of them entered on a fresh check.
    pub fresh: u32,
    /// What it did to the tables, where that was asked for.
    pub journal: Option<Vec<Entry>>,
}
