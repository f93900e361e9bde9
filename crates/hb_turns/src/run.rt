//! A program's setup, and then its scripts by turns.

ghost use Rattle.std.specs.Prelude.{◌≡◌, ◌≤◌, ℕ, [], Some, List, length, map, IfOk, OnOk};
ghost use Rattle.std.specs.List.{AllByRecursion};
ghost use Rattle.hb_tree.specs.Roots.{IsReachedOnce};
ghost use Rattle.hb_tree.specs.TreeAt.{IsBlockAt};
ghost use Rattle.hb_tables.specs.declared.entry.Act.{Act};
ghost use Rattle.hb_tables.specs.Plain.{AreOwn};
ghost use Rattle.hb_eval.specs.Told.{is_done, told_by};
ghost use Rattle.hb_eval.specs.Machines.{HasEnded, IsGoing};
ghost use Rattle.hb_call.specs.Held.{stands};
ghost use Rattle.hb_call.specs.Sharing.{collected};
ghost use Rattle.hb_run.specs.Headline.{KeepsPromise, StopsInBodies};
ghost use Rattle.hb_turns.specs.Collecting.{AreCollected, Collects};
ghost use Rattle.hb_turns.specs.Playing.{IsUnderWay, Plays, PlaysOn};
ghost use Rattle.hb_turns.specs.Players.{HasRun, IsOrdered, ScriptsRan};

use crate::finishing::{finish_all, new_players};
use crate::ordered::{play_by_order, play_out};
use crate::turns::take_turn;
use hb_call::Share;
use hb_eval::machine::{Machine, Turn};
use hb_eval::script_run::ScriptRun;
use hb_eval::stop::Outcome;
use hb_names::{NameList, PlainNames};
use hb_run::laws::histories_keep_the_promise;
use hb_tables::entry::{Entry, VERSIONS_MAX};
use hb_tables::plain::PlainTables;
use hb_tree::program::Program;
use hb_types::ids::{CallerId, NodeId};
use std::alloc::{AllocError, Global};

/// The runs of a program by turns, with their history and names.
#[derive(Drop)]
pub struct OrderedRun {
    /// Of the setup, where there is one, and of each script that ran, in the order of the text.
    pub runs: Vec<ScriptRun>,
    pub history: Vec<Entry>,
    /// The names of the keys.
    pub names: NameList,
}

// The scripts' runs, behind those that are there.
fn run_scripts(
    alloc: Global,
    prog: &Program,
    order: &[CallerId],
    steps: u32,
    runs: Vec<ScriptRun>,
    tables: &mut PlainTables,
    names: &mut PlainNames,
    share: &mut Share,
) -> Result<Vec<ScriptRun>, AllocError>
    requires under_way { IsUnderWay prog.now tables.old.limit names.old tables.old.log }
    requires setup { AreOwn 0 tables.old.log }
    ensures collects { OnOk result (AreCollected prog.now names.old names.new tables.old.log tables.new.log share.old share.new) }
    ensures ran { IfOk result (λ all. ScriptsRan prog.now tables.old.limit steps (map (λ c. c.0) order.now) names.old names.new tables.old.log tables.new.log runs.items all.items) }
    ensures free { OnOk result (((q : ℕ) → stands 0 q tables.old.log ≡ []) → (c q : ℕ) → stands c q tables.new.log ≡ []) }
{
    let mut players = new_players(alloc, prog, steps)?;
    play_by_order(alloc, prog, order, &mut players, tables, names, share)?;
    play_out(alloc, prog, &mut players, tables, names, share)?;
    let all = finish_all(players, runs)?;
    Ok(all)
}

// The setup's machine plays to its end.
fn play_alone(
    alloc: Global,
    prog: &Program,
    machine: &mut Machine,
    tables: &mut PlainTables,
    names: &mut PlainNames,
    share: &mut Share,
) -> Result<(), AllocError>
    requires plays { (steps : ℕ) × (done : List (ℕ × Act)) × Plays prog.now steps 0 names.old tables.old.log done machine.old }
    requires going { IsGoing machine.old }
    requires under_way { IsUnderWay prog.now tables.old.limit names.old tables.old.log }
    requires own { AreOwn 0 tables.old.log }
    ensures collects { OnOk result (AreCollected prog.now names.old names.new tables.old.log tables.new.log share.old share.new) }
    ensures ended { OnOk result (HasEnded machine.new) }
    ensures plays { OnOk result (PlaysOn prog.now 0 names.old names.new tables.old.log tables.new.log machine.old machine.new) }
    ensures under_way { OnOk result (IsUnderWay prog.now tables.old.limit names.new tables.new.log) }
    ensures own { OnOk result (AreOwn 0 tables.new.log) }
    ensures limit { OnOk result (tables.new.limit ≡ tables.old.limit) }
{
    loop {
        match take_turn(alloc, prog, CallerId(0), machine, tables, names, share)? {
            Turn::More => {}
            Turn::Ended => return Ok(()),
        }
    }
}

// The run of the setup, on tables without an entry.
fn run_setup(
    alloc: Global,
    prog: &Program,
    block: NodeId,
    steps: u32,
    tables: &mut PlainTables,
    names: &mut PlainNames,
    share: &mut Share,
) -> Result<ScriptRun, AllocError>
    requires setup { prog.now.setup ≡ Some block }
    requires block { IsBlockAt prog.now block.0 }
    requires log { tables.old.log ≡ [] }
    requires names { names.old ≡ [] }
    ensures collects { OnOk result (AreCollected prog.now names.old names.new tables.old.log tables.new.log share.old share.new) }
    ensures ran { IfOk result (λ r. HasRun prog.now steps 0 names.new tables.new.log (told_by r)) }
    ensures free { OnOk result ((c q : ℕ) → stands c q tables.new.log ≡ []) }
    ensures under_way { OnOk result (IsUnderWay prog.now tables.old.limit names.new tables.new.log) }
    ensures own { OnOk result (AreOwn 0 tables.new.log) }
    ensures limit { OnOk result (tables.new.limit ≡ tables.old.limit) }
{
    let mut machine = Machine::new(alloc, CallerId(0), block, steps, false)?;
    play_alone(alloc, prog, &mut machine, tables, names, share)?;
    Ok(machine.finish())
}

// Whether the run came to its end.
fn came_to_its_end(run: &ScriptRun) -> bool
    ensures { result ≡ is_done run.now.outcome }
{
    match run.outcome {
        Outcome::Done(_) => true,
        Outcome::Stopped(_, _) => false,
    }
}

// The runs of the setup, where there is one, and of the scripts behind it, where it is done.
fn run_all(
    alloc: Global,
    prog: &Program,
    order: &[CallerId],
    steps: u32,
    tables: &mut PlainTables,
    names: &mut PlainNames,
    share: &mut Share,
) -> Result<Vec<ScriptRun>, AllocError>
    requires log { tables.old.log ≡ [] }
    requires names { names.old ≡ [] }
    ensures collects { OnOk result (AreCollected prog.now names.old names.new tables.old.log tables.new.log share.old share.new) }
    ensures ordered { IfOk result (λ runs. IsOrdered prog.now tables.old.limit steps (map (λ c. c.0) order.now) names.new tables.new.log (map told_by runs.items)) }
    ensures free { OnOk result ((c q : ℕ) → stands c q tables.new.log ≡ []) }
{
    let mut runs = Vec::new(alloc);
    match prog.setup() {
        None => {
            let runs = run_scripts(alloc, prog, order, steps, runs, tables, names, share)?;
            Ok(runs)
        }
        Some(block) => {
            let setup = run_setup(alloc, prog, block, steps, tables, names, share)?;
            let done = came_to_its_end(&setup);
            runs.push(setup)?;
            if !done {
                return Ok(runs);
            }
            let runs = run_scripts(alloc, prog, order, steps, runs, tables, names, share)?;
            Ok(runs)
        }
    }
}

/// The runs of a program: the setup's, where there is one, and then those of the scripts, which take turns by the order. What the order leaves is run to the end, a script behind the other.
/// The share gets a copy of each derivation by which a call entered on a fresh check, in the order of the history, while it collects any.
pub fn run_ordered(
    alloc: Global,
    prog: &Program,
    order: &[CallerId],
    steps: u32,
    versions: u32,
    share: &mut Share,
) -> Result<OrderedRun, AllocError>
    requires versions { (1 ≤ versions) × (versions ≤ VERSIONS_MAX) }
    ensures collects { IfOk result (λ r. Collects prog.now r.names [] r.history.items (collected share.old) (collected share.new)) }
    ensures ordered { IfOk result (λ r. IsOrdered prog.now versions steps (map (λ c. c.0) order.now) r.names r.history.items (map told_by r.runs.items)) }
    ensures promise { IfOk result (λ r. KeepsPromise prog.now r.names r.history.items (map told_by r.runs.items)) }
    // However a run ended, nobody holds anything.
    ensures free { IfOk result (λ r. (c q : ℕ) → stands c q r.history.items ≡ []) }
    // Where no node is reached twice, a stop at a node in a body is for a named cause.
    ensures bodies { IsReachedOnce prog.now → IfOk result (λ r. AllByRecursion (StopsInBodies prog.now) (map told_by r.runs.items)) }
{
    let mut tables = PlainTables::new(alloc, versions)?;
    let mut names = PlainNames::new(alloc);
    let runs = run_all(alloc, prog, order, steps, &mut tables, &mut names, share)?;
    // Its count tells that it is a program.
    let _nodes = prog.nodes();
    histories_keep_the_promise();
    Ok(OrderedRun {
        runs,
        history: tables.into_history(),
        names: names.into_list(),
    })
}
