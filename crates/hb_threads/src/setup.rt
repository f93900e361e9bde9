//! The run of a program's setup.

ghost use Rattle.std.specs.Prelude.{◌≡◌, [], IfOk};
ghost use Rattle.hb_eval.specs.Told.{is_done};
ghost use Rattle.hb_row.specs.Seats.{IsSeatOf, asked_by};
ghost use Rattle.hb_words.specs.Seats.{IsSeatAt, view_of};
ghost use Rattle.hb_threads.specs.Seated.{IsSameRow, IsStill, known_at};
ghost use Rattle.hb_threads.specs.Setups.{IsSetUp};

use crate::gate::Gate;
use crate::script::run_seat;
use hb_eval::script_run::ScriptRun;
use hb_eval::stop::Outcome;
use hb_fronts::CallerOptions;
use hb_row::{NameRow, NameSeat};
use hb_tree::program::Program;
use hb_types::ids::CallerId;
use hb_words::words::{MethodWords, WordSeat};
use std::alloc::{AllocError, Global};

/// The caller of the setup.
const FIRST: CallerId = CallerId(0);

/// What the setup came to.
#[derive(Drop)]
pub struct Setup {
    /// The setup's run, where there is a setup.
    pub runs: Vec<ScriptRun>,
    /// Whether the scripts run behind it.
    pub goes_on: bool,
}

// Whether the run came to its end.
fn came_to_its_end(run: &ScriptRun) -> bool
    ensures { result ≡ is_done run.now.outcome }
{
    match run.outcome {
        Outcome::Done(_) => true,
        Outcome::Stopped(_, _) => false,
    }
}

/// Runs the setup, where there is one, by the first caller's seats.
pub fn run_setup<G: Gate>(
    alloc: Global,
    prog: &Program,
    options: CallerOptions,
    words: &MethodWords,
    first: &mut WordSeat,
    row: &NameRow,
    names: &mut NameSeat,
    gate: &G,
) -> Result<Setup, AllocError>
    requires seat { IsSeatAt words.now first.old }
    requires caller { (view_of first.old).caller ≡ 0 }
    requires blank { (view_of first.old).seen ≡ [] }
    requires names { IsSeatOf row.now.table.shared.table_id names.old }
    requires unasked { asked_by names.old ≡ [] }
    ensures seat { IsStill words.now first.old first.new }
    ensures names { IsSameRow row.now names.old names.new }
    ensures set_up { IfOk result (λ setup. IsSetUp prog.now options prog.now.setup setup.goes_on (known_at first.new names.new) setup.runs.items) }
{
    let mut runs = Vec::new(alloc);
    match prog.setup() {
        None => Ok(Setup {
            runs,
            goes_on: true,
        }),
        Some(block) => {
            let run = run_seat(
                alloc, prog, FIRST, block, options, words, first, row, names, gate,
            )?;
            let goes_on = came_to_its_end(&run);
            runs.push(run)?;
            Ok(Setup { runs, goes_on })
        }
    }
}
