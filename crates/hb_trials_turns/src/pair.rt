//! Two scripts that take turns at the same words, behind a setup.

ghost use Rattle.std.specs.Prelude.{◌≡◌, ◌+◌, ◌<◌, ◌≤◌, [], length, List, IfOk, OnOk};
ghost use Rattle.hb_tree.specs.TreeAt.{IsBlockAt};
ghost use Rattle.hb_names.specs.declared.names.TheConstants.{NAMES_MAX};
ghost use Rattle.hb_names.specs.Names.{Name};
ghost use Rattle.hb_tables.specs.declared.entry.TheConstants.{VERSIONS_MAX};
ghost use Rattle.hb_words.specs.Seats.{IsSeatAt, view_of};
ghost use Rattle.hb_words.specs.declared.layout.TheConstants.{CALLERS_MAX};
ghost use Rattle.hb_trials_turns.specs.Scripts.{AreReady, IsReady};

use crate::script::Script;
use hb_eval::script_run::ScriptRun;
use hb_names::PlainNames;
use hb_tree::program::Program;
use hb_types::ids::{CallerId, NodeId};
use hb_words::closed::Closed;
use hb_words::words::{MethodWords, WordSeat};
use std::alloc::{AllocError, Global};

/// Two scripts, of the callers 1 and 2.
#[derive(Drop)]
pub struct Pair {
    one: Script,
    two: Script,
}

/// What a program over words came to.
#[derive(Drop)]
pub struct WordsRun {
    /// Of the setup and of both scripts.
    pub runs: Vec<ScriptRun>,
    /// The words, when nobody changes them any more.
    pub closed: Closed,
}

// The script of the next caller, by a seat that is forked for it.
fn begin_next(
    alloc: Global,
    prog: &Program,
    words: &MethodWords,
    first: &mut WordSeat,
    caller: CallerId,
    block: NodeId,
) -> Result<Script, AllocError>
    requires block { IsBlockAt prog.now block.0 }
    requires seat { IsSeatAt words.now first.old }
    requires first { (view_of first.old).caller ≡ 0 }
    requires next { (view_of first.old).made ≡ caller.0 }
    requires room { caller.0 < CALLERS_MAX }
    ensures ready { IfOk result (λ s. (names : List Name) → IsReady prog.now words.now names s) }
    ensures caller { IfOk result (λ s. (view_of s.seat).caller ≡ caller.0) }
    ensures seat { IsSeatAt words.now first.new }
    ensures first { (view_of first.new).caller ≡ 0 }
    ensures made { (view_of first.new).made ≡ caller.0 + 1 }
{
    let seat = words.fork(first);
    Script::begin(alloc, prog, words, seat, caller, block)
}

// The setup's run by the first seat, and that seat.
fn run_setup(
    alloc: Global,
    prog: &Program,
    words: &MethodWords,
    seat: WordSeat,
    block: NodeId,
    names: &mut PlainNames,
) -> Result<(ScriptRun, WordSeat), AllocError>
    requires block { IsBlockAt prog.now block.0 }
    requires seat { IsSeatAt words.now seat }
    requires first { ((view_of seat).caller ≡ 0) × ((view_of seat).made ≡ 1) × ((view_of seat).seen ≡ []) }
    requires few { length names.old ≤ NAMES_MAX }
    ensures seat { IfOk result (λ r. IsSeatAt words.now r.1) }
    ensures first { IfOk result (λ r. ((view_of r.1).caller ≡ 0) × ((view_of r.1).made ≡ 1)) }
    ensures few { length names.new ≤ NAMES_MAX }
{
    let setup = Script::begin(alloc, prog, words, seat, CallerId(0), block)?;
    setup.run_out(alloc, prog, words, names)
}

impl Pair {
    // Both scripts of the program, of which none has begun.
    fn begin(
        alloc: Global,
        prog: &Program,
        words: &MethodWords,
        first: &mut WordSeat,
    ) -> Result<Pair, AllocError>
        requires scripts { length prog.now.scripts ≡ 2 }
        requires seat { IsSeatAt words.now first.old }
        requires first { (view_of first.old).caller ≡ 0 }
        requires made { (view_of first.old).made ≡ 1 }
        ensures ready { IfOk result (λ p. (names : List Name) → AreReady prog.now words.now names p) }
        ensures seat { IsSeatAt words.now first.new }
        ensures first { (view_of first.new).caller ≡ 0 }
        ensures made { OnOk result ((view_of first.new).made ≡ 3) }
    {
        let one = begin_next(alloc, prog, words, first, CallerId(1), prog.script(0).1)?;
        let two = begin_next(alloc, prog, words, first, CallerId(2), prog.script(1).1)?;
        Ok(Pair { one, two })
    }

    // A turn of one of them. A script that there is not is passed over.
    fn take_turn(
        &mut self,
        alloc: Global,
        prog: &Program,
        words: &MethodWords,
        names: &mut PlainNames,
        caller: CallerId,
    ) -> Result<(), AllocError>
        requires ready { AreReady prog.now words.now names.old self.old }
        requires few { length names.old ≤ NAMES_MAX }
        ensures ready { OnOk result (AreReady prog.now words.now names.new self.new) }
        ensures few { length names.new ≤ NAMES_MAX }
    {
        match caller {
            CallerId(1) => self.one.advance(alloc, prog, words, names),
            CallerId(2) => self.two.advance(alloc, prog, words, names),
            _ => Ok(()),
        }
    }

    // Their turns, in this order.
    fn take_turns(
        &mut self,
        alloc: Global,
        prog: &Program,
        words: &MethodWords,
        names: &mut PlainNames,
        order: &[CallerId],
    ) -> Result<(), AllocError>
        requires ready { AreReady prog.now words.now names.old self.old }
        requires few { length names.old ≤ NAMES_MAX }
        ensures ready { OnOk result (AreReady prog.now words.now names.new self.new) }
        ensures few { length names.new ≤ NAMES_MAX }
    {
        for caller in order {
            self.take_turn(alloc, prog, words, names, *caller)?;
        }
        Ok(())
    }

    // Their turns that are left, and then the end of the words.
    fn run_out(
        self,
        alloc: Global,
        prog: &Program,
        words: MethodWords,
        first: WordSeat,
        names: &mut PlainNames,
        mut runs: Vec<ScriptRun>,
    ) -> Result<WordsRun, AllocError>
        requires ready { AreReady prog.now words names.old self }
        requires few { length names.old ≤ NAMES_MAX }
        requires seat { IsSeatAt words first }
        requires first { ((view_of first).caller ≡ 0) × ((view_of first).made ≡ 3) }
    {
        let Pair { one, two } = self;
        let (run, one) = one.run_out(alloc, prog, &words, names)?;
        runs.push(run)?;
        let (run, two) = two.run_out(alloc, prog, &words, names)?;
        runs.push(run)?;
        let closed = words.close(first, vec![in alloc; one, two]?);
        Ok(WordsRun { runs, closed })
    }
}

/// The setup's run over words and then those of two scripts, which take turns in this order, and then run to their ends.
pub fn run_by_turns(
    alloc: Global,
    prog: &Program,
    setup: NodeId,
    order: &[CallerId],
    versions: u32,
) -> Result<WordsRun, AllocError>
    requires setup { IsBlockAt prog.now setup.0 }
    requires scripts { length prog.now.scripts ≡ 2 }
    requires versions { (0 < versions) × (versions ≤ VERSIONS_MAX) }
{
    let (words, seat) = MethodWords::make(alloc, versions)?;
    let mut names = PlainNames::new(alloc);
    let (run, mut first) = run_setup(alloc, prog, &words, seat, setup, &mut names)?;
    let mut scripts = Pair::begin(alloc, prog, &words, &mut first)?;
    scripts.take_turns(alloc, prog, &words, &mut names, order)?;
    let runs = vec![in alloc; run]?;
    scripts.run_out(alloc, prog, words, first, &mut names, runs)
}
