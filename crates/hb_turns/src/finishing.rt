//! How players begin, and what their runs came to.

ghost use Rattle.std.specs.Prelude.{◌≡◌, ◌≤◌, ◌++◌, ℕ, List, [], length, IfOk};
ghost use Rattle.std.specs.List.{AllByRecursion};
ghost use Rattle.hb_names.specs.Names.{Name};
ghost use Rattle.hb_tables.specs.declared.entry.Entry.{Entry};
ghost use Rattle.hb_tables.specs.Frames.{acts};
ghost use Rattle.hb_eval.specs.Machines.{HasEnded};
ghost use Rattle.hb_eval.specs.declared.script_run.ScriptRun.{ScriptRun};
ghost use Rattle.hb_turns.specs.Players.{AreFinished, ArePlayers};

use crate::player::Player;
use hb_eval::machine::Machine;
use hb_eval::script_run::ScriptRun;
use hb_tree::program::Program;
use hb_types::ids::CallerId;
use std::alloc::{AllocError, Global};

/// The players of all scripts, in the order of the text.
pub fn new_players(alloc: Global, prog: &Program, steps: u32) -> Result<Vec<Player>, AllocError>
    ensures ready { IfOk result (λ players. (names : List Name) (log : List Entry) → ((c : ℕ) → 1 ≤ c → acts c log ≡ []) → ArePlayers prog.now steps 1 names log [] players.items) }
    ensures many { IfOk result (λ players. length prog.now.scripts ≡ length players.items) }
    ensures few { IfOk result (λ players. length players.items ≤ 255) }
{
    let count = prog.scripts();
    let mut players = Vec::new(alloc);
    let mut at = 0;
    while at < count {
        let (_, block) = prog.script(at);
        let machine = Machine::new(alloc, CallerId(1 + at as u8), block, steps, false)?;
        players.push(Player {
            machine,
            over: false,
        })?;
        at += 1;
    }
    Ok(players)
}

/// What the players' runs came to.
pub fn finish_all(
    players: Vec<Player>,
    mut runs: Vec<ScriptRun>,
) -> Result<Vec<ScriptRun>, AllocError>
    requires ended { AllByRecursion (λ (p : Player). HasEnded p.machine) players.items }
    ensures finished { IfOk result (λ all. (more : List ScriptRun) × (all.items ≡ runs.items ++ more) × AreFinished players.items more) }
{
    for player in players {
        let Player { machine, over: _ } = player;
        runs.push(machine.finish())?;
    }
    Ok(runs)
}
