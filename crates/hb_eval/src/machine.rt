//! A machine: the run of a script between two of its beginnings.

ghost use Rattle.std.specs.Prelude.{◌≡◌, ◌+◌, ◌<◌, ◌≤◌, ◌++◌, [], ℕ, List, length, IfOk, OnOk, OnErr, Bool, true, false, is_some};
ghost use mathlib.Core.List.{IsPrefix};
ghost use Rattle.hb_types.specs.declared.ids.CallerId.{CallerId};
ghost use Rattle.hb_tree.specs.Table.{Table};
ghost use Rattle.hb_tree.specs.TreeAt.{IsBlockAt};
ghost use Rattle.hb_names.specs.declared.names.TheConstants.{NAMES_MAX};
ghost use Rattle.hb_names.specs.Names.{Name};
ghost use Rattle.hb_tables.specs.declared.entry.Act.{Act};
ghost use Rattle.hb_tables.specs.declared.entry.Entry.{Entry};
ghost use Rattle.hb_tables.specs.Frames.{acts};
ghost use Rattle.hb_call.specs.Growth.{Grown};
ghost use Rattle.hb_call.specs.Held.{stands};
ghost use Rattle.hb_call.specs.OwnCache.{IsOwnCache, IsTrueCache, KeepsChecks};
ghost use Rattle.hb_tables.specs.History.{IsLegal};
ghost use Rattle.hb_eval.specs.declared.machine.Turn.TheVariants.{Ended};
ghost use Rattle.hb_eval.specs.declared.state.Hand.TheVariants as hands;
ghost use Rattle.hb_eval.specs.State.{tagged};
ghost use Rattle.hb_eval.specs.Noting.{IsJournal, entries};
ghost use Rattle.hb_eval.specs.Gathering.{Shares};
ghost use Rattle.hb_eval.specs.Holding.{Holding, frames_of};
ghost use Rattle.hb_eval.specs.Staying.{Stays};
ghost use Rattle.hb_eval.specs.Steps.{SameCalls};
ghost use Rattle.hb_eval.specs.Machines.{Advances, Begins, Carries, Finishes, HasBegun, HasEnded, IsAtRest, IsFineMachine, IsGoing, IsSettled, NotesOn, Opens, StandsFor, Turns, keeps, outcome_of, turn_of, turns_left};

use crate::begin::begin;
use crate::blocks::items;
use crate::cont::Cont;
use crate::framed::Framed;
use crate::frames::pass;
use crate::leap::leap;
use crate::leaving::leave_all;
use crate::moves::take;
use crate::noting::{Begun, Lent, Noting};
use crate::pace::Pace;
use crate::script_run::ScriptRun;
use crate::state::{Hand, State};
use crate::stop::{Outcome, Stop};
use crate::turns::apply;
use crate::value::Value;
use hb_cache::Cache;
use hb_call::Share;
use hb_names::Names;
use hb_tables::desk::Desk;
use hb_tables::entry::Entry;
use hb_tree::program::Program;
use hb_types::ids::{CallerId, NodeId};
use std::alloc::{AllocError, Global};
use std::marker::{Brand, PhantomData};

/// Whether a script goes on.
#[derive(Clone, Copy, Debug, PartialEq, Eq)]
pub enum Turn {
    More,
    Ended,
}

/// The run of a script, before an expression begins or at its end.
#[derive(Drop)]
pub struct Machine {
    caller: CallerId,
    state: State,
    /// What is left to do, the last first.
    conts: Vec<Cont>,
    /// The live frames, the last on top.
    frames: Vec<Framed>,
    /// What comes next.
    hand: Hand,
    /// What its caller did, where that is kept.
    journal: Option<Vec<Entry>>,
}

// No entry yet, where entries are kept.
fn journal(alloc: Global, keep: bool) -> Option<Vec<Entry>>
    ensures kept { is_some result ≡ keep }
    ensures none { (caller : CallerId) → IsJournal caller result [] }
{
    if keep { Some(Vec::new(alloc)) } else { None }
}

// How a run ended.
fn outcome(hand: Hand, stop: Stop, at: NodeId, value: Value) -> Outcome
    ensures { result ≡ outcome_of hand stop at value }
{
    match hand {
        Hand::Stops => Outcome::Stopped(stop, at),
        _ => Outcome::Done(value),
    }
}

impl Machine {
    /// The machine of a block, before its first expression. It keeps its caller's entries where that is asked for.
    pub fn new(
        alloc: Global,
        caller: CallerId,
        block: NodeId,
        steps: u32,
        keep_journal: bool,
    ) -> Result<Machine, AllocError>
        ensures fine { IfOk result (λ m. (t : Table) → IsBlockAt t block.0 → IsFineMachine t m) }
        ensures stands { IfOk result (λ m. (t : Table) (known : List Name) → IsBlockAt t block.0 → StandsFor t known block.0 steps [] m) }
        ensures going { IfOk result (λ m. IsGoing m) }
        ensures keeps { IfOk result (λ m. keeps m ≡ keep_journal) }
        ensures fresh { IfOk result (λ m. (m.frames.items ≡ []) × (m.state.made ≡ 0) × (m.caller ≡ caller) × (m.state.begun ≡ 0)) }
        ensures own { IfOk result (λ m. (t : Table) (known asked : List Name) (log : List Entry) → IsOwnCache t known asked caller.0 (Some (acts caller.0 log)) log m.state.cache) }
    {
        let mut conts = Vec::new(alloc);
        conts.push(Cont::Items(block, 0))?;
        Ok(Machine {
            caller,
            state: State {
                operands: Vec::new(alloc),
                vars: Vec::new(alloc),
                output: Vec::new(alloc),
                acc: Value::Nil,
                at: block,
                stop: Stop::Steps,
                base: 0,
                class: None,
                fuel: steps,
                begun: 0,
                made: 0,
                decided: 0,
                own: 0,
                fresh: 0,
                cache: Cache::new(alloc),
            },
            conts,
            frames: Vec::new(alloc),
            hand: Hand::Gives,
            journal: journal(alloc, keep_journal),
        })
    }

    // What is left to do is done with the value in hand. Whether another value is in hand then.
    #[inline(always)]
    fn step<D: Desk, N: Names>(
        &mut self,
        alloc: Global,
        prog: &Program,
        desk: &mut D,
        names: &mut N,
        share: &mut Share,
    ) -> Result<bool, AllocError>
        requires fine { IsFineMachine prog.now self.old }
        requires gives { self.old.hand ≡ hands.Gives }
        requires holding { Holding (D.fixed desk.old).caller (self.old.state.made + 1) (frames_of self.old.frames.items) (D.front desk.old) }
        requires cache { IsTrueCache prog.now (N.known names.old) (N.asked names.old) (D.fixed desk.old).caller (D.front desk.old) self.old.state.cache }
        ensures carries { OnOk result (Carries prog.now (D.fixed desk.old).caller (N.known names.old) (N.known names.new) (N.asked names.old) (N.asked names.new) (D.front desk.old) (D.front desk.new) self.old self.new) }
        ensures falls { IfOk result (λ more. more ≡ true → turns_left self.new < turns_left self.old) }
        ensures gives { IfOk result (λ more. more ≡ true → self.new.hand ≡ hands.Gives) }
        ensures settled { IfOk result (λ more. more ≡ false → IsSettled self.new) }
        ensures holding { Holding (D.fixed desk.old).caller (self.new.state.made + 1) (frames_of self.new.frames.items) (D.front desk.new) }
        ensures stays { Stays (D.fixed desk.old) (D.fixed desk.new) (D.front desk.old) (D.front desk.new) (N.known names.old) (N.known names.new) }
        ensures shares { OnOk result (Shares prog.now (N.known names.new) (D.fixed desk.old).caller (D.front desk.old) (D.front desk.new) share.old share.new) }
        ensures alike { N.alike names.old names.new }
        ensures caller { self.new.caller ≡ self.old.caller }
        ensures journal { self.new.journal ≡ self.old.journal }
    {
        match self.conts.pop() {
            None => Ok(false),
            Some(cont) => {
                let hand = apply(
                    alloc,
                    prog,
                    desk,
                    names,
                    cont,
                    &mut self.state,
                    &mut self.conts,
                    &mut self.frames,
                    share,
                )?;
                self.hand = hand;
                Ok(hand == Hand::Gives)
            }
        }
    }

    // Steps, while a value is in hand and something is left to do with it.
    #[inline(always)]
    fn steps<D: Desk, N: Names>(
        &mut self,
        alloc: Global,
        prog: &Program,
        desk: &mut D,
        names: &mut N,
        share: &mut Share,
    ) -> Result<(), AllocError>
        requires fine { IsFineMachine prog.now self.old }
        requires holding { Holding (D.fixed desk.old).caller (self.old.state.made + 1) (frames_of self.old.frames.items) (D.front desk.old) }
        requires cache { IsTrueCache prog.now (N.known names.old) (N.asked names.old) (D.fixed desk.old).caller (D.front desk.old) self.old.state.cache }
        ensures carries { OnOk result (Carries prog.now (D.fixed desk.old).caller (N.known names.old) (N.known names.new) (N.asked names.old) (N.asked names.new) (D.front desk.old) (D.front desk.new) self.old self.new) }
        ensures settled { OnOk result (IsSettled self.new) }
        ensures holding { Holding (D.fixed desk.old).caller (self.new.state.made + 1) (frames_of self.new.frames.items) (D.front desk.new) }
        ensures stays { Stays (D.fixed desk.old) (D.fixed desk.new) (D.front desk.old) (D.front desk.new) (N.known names.old) (N.known names.new) }
        ensures shares { OnOk result (Shares prog.now (N.known names.new) (D.fixed desk.old).caller (D.front desk.old) (D.front desk.new) share.old share.new) }
        ensures alike { N.alike names.old names.new }
        ensures caller { self.new.caller ≡ self.old.caller }
        ensures journal { self.new.journal ≡ self.old.journal }
    {
        match self.hand {
            Hand::Gives => {}
            _ => return Ok(()),
        }
        'steps: while self.step(alloc, prog, desk, names, share)? {}
        Ok(())
    }

    // The stop passes all that was to be done.
    #[cold]
    #[inline(never)]
    fn unwind<D: Desk>(&mut self, desk: &mut D)
        requires fine { (t : Table) × IsFineMachine t self.old }
        requires stops { self.old.hand ≡ hands.Stops }
        requires holding { Holding (D.fixed desk.old).caller (self.old.state.made + 1) (frames_of self.old.frames.items) (D.front desk.old) }
        ensures unwinds { (t : Table) → IsFineMachine t self.old → (known asked : List Name) → Carries t (D.fixed desk.old).caller known known asked asked (D.front desk.old) (D.front desk.new) self.old self.new }
        ensures rest { IsAtRest self.new }
        ensures calls { SameCalls self.old.state self.new.state }
        ensures holding { Holding (D.fixed desk.old).caller (self.new.state.made + 1) (frames_of self.new.frames.items) (D.front desk.new) }
        ensures kept { IsPrefix (D.front desk.old) (D.front desk.new) }
        ensures legal { IsLegal (D.fixed desk.old).limit (D.front desk.old) → IsLegal (D.fixed desk.old).limit (D.front desk.new) }
        ensures fixed { D.fixed desk.new ≡ D.fixed desk.old }
        ensures caller { self.new.caller ≡ self.old.caller }
        ensures journal { self.new.journal ≡ self.old.journal }
    {
        'passing: while let Some(cont) = self.conts.pop() {
            pass(desk, cont, &mut self.state, &mut self.frames);
        }
    }

    // A stop passes all that was to be done, where there is one.
    #[inline(always)]
    fn end_stop<D: Desk>(&mut self, desk: &mut D)
        requires fine { (t : Table) × IsFineMachine t self.old }
        requires settled { IsSettled self.old }
        requires holding { Holding (D.fixed desk.old).caller (self.old.state.made + 1) (frames_of self.old.frames.items) (D.front desk.old) }
        ensures unwinds { (t : Table) → IsFineMachine t self.old → (known asked : List Name) → Carries t (D.fixed desk.old).caller known known asked asked (D.front desk.old) (D.front desk.new) self.old self.new }
        ensures rest { IsAtRest self.new }
        ensures calls { SameCalls self.old.state self.new.state }
        ensures holding { Holding (D.fixed desk.old).caller (self.new.state.made + 1) (frames_of self.new.frames.items) (D.front desk.new) }
        ensures kept { IsPrefix (D.front desk.old) (D.front desk.new) }
        ensures legal { IsLegal (D.fixed desk.old).limit (D.front desk.old) → IsLegal (D.fixed desk.old).limit (D.front desk.new) }
        ensures fixed { D.fixed desk.new ≡ D.fixed desk.old }
        ensures caller { self.new.caller ≡ self.old.caller }
        ensures journal { self.new.journal ≡ self.old.journal }
    {
        match self.hand {
            Hand::Stops => self.unwind(desk),
            _ => {}
        }
    }

    // What follows up to the next beginning, or to the end.
    #[inline(always)]
    fn settle<D: Desk, N: Names>(
        &mut self,
        alloc: Global,
        prog: &Program,
        desk: &mut D,
        names: &mut N,
        share: &mut Share,
    ) -> Result<(), AllocError>
        requires fine { IsFineMachine prog.now self.old }
        requires holding { Holding (D.fixed desk.old).caller (self.old.state.made + 1) (frames_of self.old.frames.items) (D.front desk.old) }
        requires cache { IsTrueCache prog.now (N.known names.old) (N.asked names.old) (D.fixed desk.old).caller (D.front desk.old) self.old.state.cache }
        ensures carries { OnOk result (Carries prog.now (D.fixed desk.old).caller (N.known names.old) (N.known names.new) (N.asked names.old) (N.asked names.new) (D.front desk.old) (D.front desk.new) self.old self.new) }
        ensures rest { OnOk result (IsAtRest self.new) }
        ensures holding { Holding (D.fixed desk.old).caller (self.new.state.made + 1) (frames_of self.new.frames.items) (D.front desk.new) }
        ensures stays { Stays (D.fixed desk.old) (D.fixed desk.new) (D.front desk.old) (D.front desk.new) (N.known names.old) (N.known names.new) }
        ensures shares { OnOk result (Shares prog.now (N.known names.new) (D.fixed desk.old).caller (D.front desk.old) (D.front desk.new) share.old share.new) }
        ensures alike { N.alike names.old names.new }
        ensures caller { self.new.caller ≡ self.old.caller }
        ensures journal { self.new.journal ≡ self.old.journal }
    {
        self.steps(alloc, prog, desk, names, share)?;
        self.end_stop(desk);
        Ok(())
    }

    // What begins next begins alone.
    #[inline(always)]
    fn begin_alone(&mut self, alloc: Global, prog: &Program) -> Result<(), AllocError>
        requires fine { IsFineMachine prog.now self.old }
        requires begins { self.old.hand ≡ hands.Begins }
        ensures begins { (far : Bool) (c : ℕ) (known asked : List Name) (log : List Entry) → OnOk result (Begins far prog.now c known known asked asked log log self.old self.new) }
        ensures calls { SameCalls self.old.state self.new.state }
        ensures frames { self.new.frames ≡ self.old.frames }
        ensures caller { self.new.caller ≡ self.old.caller }
        ensures journal { self.new.journal ≡ self.old.journal }
    {
        self.hand = begin(alloc, prog, &mut self.state, &mut self.conts)?;
        Ok(())
    }

    // What begins next begins together with what is read of it.
    #[inline(always)]
    fn begin_far<D: Desk>(&mut self, alloc: Global, prog: &Program) -> Result<(), AllocError>
        requires fine { IsFineMachine prog.now self.old }
        requires begins { self.old.hand ≡ hands.Begins }
        ensures begins { (c : ℕ) (known asked : List Name) (log : List Entry) → OnOk result (Begins true prog.now c known known asked asked log log self.old self.new) }
        ensures calls { SameCalls self.old.state self.new.state }
        ensures frames { self.new.frames ≡ self.old.frames }
        ensures caller { self.new.caller ≡ self.old.caller }
        ensures journal { self.new.journal ≡ self.old.journal }
    {
        match leap::<D>(alloc, prog, &mut self.state, &mut self.conts)? {
            Some(hand) => {
                self.hand = hand;
                Ok(())
            }
            None => self.begin_alone(alloc, prog),
        }
    }

    // What begins next begins, as the pace has it. Like a leap it is a function of its own for each kind of desk, so that it has one caller, into which it is taken in.
    #[inline(always)]
    fn begin_one<P: Pace, D: Desk>(
        &mut self,
        alloc: Global,
        prog: &Program,
    ) -> Result<(), AllocError>
        requires fine { IsFineMachine prog.now self.old }
        requires begins { self.old.hand ≡ hands.Begins }
        ensures begins { (c : ℕ) (known asked : List Name) (log : List Entry) → OnOk result (Begins P.far prog.now c known known asked asked log log self.old self.new) }
        ensures calls { SameCalls self.old.state self.new.state }
        ensures frames { self.new.frames ≡ self.old.frames }
        ensures caller { self.new.caller ≡ self.old.caller }
        ensures journal { self.new.journal ≡ self.old.journal }
    {
        if P::is_far() {
            self.begin_far::<D>(alloc, prog)
        } else {
            self.begin_alone(alloc, prog)
        }
    }

    // What begins at once, and what follows.
    #[inline(always)]
    fn begin_next<P: Pace, D: Desk, N: Names>(
        &mut self,
        alloc: Global,
        prog: &Program,
        desk: &mut D,
        names: &mut N,
        share: &mut Share,
    ) -> Result<(), AllocError>
        requires fine { IsFineMachine prog.now self.old }
        requires holding { Holding (D.fixed desk.old).caller (self.old.state.made + 1) (frames_of self.old.frames.items) (D.front desk.old) }
        requires cache { IsTrueCache prog.now (N.known names.old) (N.asked names.old) (D.fixed desk.old).caller (D.front desk.old) self.old.state.cache }
        requires begins { self.old.hand ≡ hands.Begins }
        ensures begins { OnOk result (Begins P.far prog.now (D.fixed desk.old).caller (N.known names.old) (N.known names.new) (N.asked names.old) (N.asked names.new) (D.front desk.old) (D.front desk.new) self.old self.new) }
        ensures rest { OnOk result (IsAtRest self.new) }
        ensures holding { Holding (D.fixed desk.old).caller (self.new.state.made + 1) (frames_of self.new.frames.items) (D.front desk.new) }
        ensures stays { Stays (D.fixed desk.old) (D.fixed desk.new) (D.front desk.old) (D.front desk.new) (N.known names.old) (N.known names.new) }
        ensures shares { OnOk result (Shares prog.now (N.known names.new) (D.fixed desk.old).caller (D.front desk.old) (D.front desk.new) share.old share.new) }
        ensures alike { N.alike names.old names.new }
        ensures caller { self.new.caller ≡ self.old.caller }
        ensures journal { self.new.journal ≡ self.old.journal }
    {
        self.begin_one::<P, D>(alloc, prog)?;
        self.settle(alloc, prog, desk, names, share)
    }

    // Where nothing has begun, the first item of the block comes next, or the block has its value.
    #[inline(always)]
    fn open(&mut self, prog: &Program) -> Result<(), AllocError>
        requires fine { IsFineMachine prog.now self.old }
        requires going { IsGoing self.old }
        ensures opens { OnOk result (Opens prog.now self.old self.new) }
        ensures made { self.new.state.made ≡ self.old.state.made }
        ensures frames { self.new.frames ≡ self.old.frames }
        ensures caller { self.new.caller ≡ self.old.caller }
        ensures journal { self.new.journal ≡ self.old.journal }
    {
        match self.hand {
            Hand::Gives => self.open_block(prog),
            _ => Ok(()),
        }
    }

    // The block of a new machine begins.
    #[cold]
    #[inline(never)]
    fn open_block(&mut self, prog: &Program) -> Result<(), AllocError>
        requires fine { IsFineMachine prog.now self.old }
        requires going { IsGoing self.old }
        requires gives { self.old.hand ≡ hands.Gives }
        ensures opens { OnOk result (Opens prog.now self.old self.new) }
        ensures made { self.new.state.made ≡ self.old.state.made }
        ensures frames { self.new.frames ≡ self.old.frames }
        ensures caller { self.new.caller ≡ self.old.caller }
        ensures journal { self.new.journal ≡ self.old.journal }
    {
        match self.conts.pop() {
            Some(Cont::Items(block, at)) => {
                let next = items(prog, block, at, &mut self.state);
                self.hand = take(&mut self.conts, next)?;
                Ok(())
            }
            _ => unreachable!(),
        }
    }

    // Whether the script goes on.
    #[inline(always)]
    fn turn(&self) -> Turn
        ensures { result ≡ turn_of self.now.hand }
    {
        match self.hand {
            Hand::Begins => Turn::More,
            _ => Turn::Ended,
        }
    }

    // What begins at once, and what follows, where the block has an expression.
    #[inline(always)]
    fn run<P: Pace, D: Desk, N: Names>(
        &mut self,
        alloc: Global,
        prog: &Program,
        desk: &mut D,
        names: &mut N,
        share: &mut Share,
    ) -> Result<Turn, AllocError>
        requires fine { IsFineMachine prog.now self.old }
        requires going { IsGoing self.old }
        requires holding { Holding (D.fixed desk.old).caller (self.old.state.made + 1) (frames_of self.old.frames.items) (D.front desk.old) }
        requires cache { IsTrueCache prog.now (N.known names.old) (N.asked names.old) (D.fixed desk.old).caller (D.front desk.old) self.old.state.cache }
        ensures advances { OnOk result (Advances prog.now (D.fixed desk.old).caller (N.known names.old) (N.known names.new) (N.asked names.old) (N.asked names.new) (D.front desk.old) (D.front desk.new) self.old self.new) }
        ensures turns { IfOk result (λ turn. Turns turn self.old self.new) }
        ensures begun { IfOk result (λ turn. HasBegun P.far turn self.old self.new) }
        ensures quiet { OnOk result (self.new.state.begun ≡ self.old.state.begun → D.front desk.new ≡ D.front desk.old) }
        ensures holding { Holding (D.fixed desk.old).caller (self.new.state.made + 1) (frames_of self.new.frames.items) (D.front desk.new) }
        ensures stays { Stays (D.fixed desk.old) (D.fixed desk.new) (D.front desk.old) (D.front desk.new) (N.known names.old) (N.known names.new) }
        ensures shares { OnOk result (Shares prog.now (N.known names.new) (D.fixed desk.old).caller (D.front desk.old) (D.front desk.new) share.old share.new) }
        ensures alike { N.alike names.old names.new }
        ensures caller { self.new.caller ≡ self.old.caller }
        ensures journal { self.new.journal ≡ self.old.journal }
    {
        self.open(prog)?;
        match self.hand {
            Hand::Begins => {}
            _ => return Ok(Turn::Ended),
        }
        self.begin_next::<P, D, N>(alloc, prog, desk, names, share)?;
        Ok(self.turn())
    }

    // The same, and what its caller does meanwhile.
    fn run_noting<B: Begun, P: Pace, D: Desk, N: Names>(
        &mut self,
        alloc: Global,
        prog: &Program,
        desk: &mut D,
        names: &mut N,
        share: &mut Share,
        notes: &mut Vec<Entry>,
    ) -> Result<Turn, AllocError>
        requires fine { IsFineMachine prog.now self.old }
        requires going { IsGoing self.old }
        requires holding { Holding (D.fixed desk.old).caller (self.old.state.made + 1) (frames_of self.old.frames.items) (D.front desk.old) }
        requires cache { IsTrueCache prog.now (N.known names.old) (N.asked names.old) (D.fixed desk.old).caller (D.front desk.old) self.old.state.cache }
        requires caller { B.caller ≡ self.old.caller }
        requires begun { B.before ≡ entries self.old.caller (acts (D.fixed desk.old).caller (D.front desk.old)) }
        ensures advances { OnOk result (Advances prog.now (D.fixed desk.old).caller (N.known names.old) (N.known names.new) (N.asked names.old) (N.asked names.new) (D.front desk.old) (D.front desk.new) self.old self.new) }
        ensures turns { IfOk result (λ turn. Turns turn self.old self.new) }
        ensures begun { IfOk result (λ turn. HasBegun P.far turn self.old self.new) }
        ensures quiet { OnOk result (self.new.state.begun ≡ self.old.state.begun → D.front desk.new ≡ D.front desk.old) }
        ensures holding { Holding (D.fixed desk.old).caller (self.new.state.made + 1) (frames_of self.new.frames.items) (D.front desk.new) }
        ensures stays { Stays (D.fixed desk.old) (D.fixed desk.new) (D.front desk.old) (D.front desk.new) (N.known names.old) (N.known names.new) }
        ensures shares { OnOk result (Shares prog.now (N.known names.new) (D.fixed desk.old).caller (D.front desk.old) (D.front desk.new) share.old share.new) }
        ensures alike { N.alike names.old names.new }
        ensures caller { self.new.caller ≡ self.old.caller }
        ensures journal { self.new.journal ≡ self.old.journal }
        ensures notes { OnOk result (entries self.old.caller (acts (D.fixed desk.old).caller (D.front desk.new)) ≡ B.before ++ notes.new.items) }
    {
        let mut noting: Noting<Lent<D>, B> = Noting {
            desk: Lent { desk },
            caller: self.caller,
            notes: Vec::new(alloc),
            missed: false,
            begun: PhantomData,
        };
        let ended = self.run::<P, Noting<Lent<D>, B>, N>(alloc, prog, &mut noting, names, share);
        let Noting {
            desk: lent,
            caller: _,
            notes: made,
            missed,
            begun: _,
        } = noting;
        let Lent { desk: _door } = lent;
        *notes = made;
        if missed {
            return Err(AllocError);
        }
        ended
    }

    // Notes go into the journal that is kept.
    fn note(&mut self, notes: Vec<Entry>) -> Result<(), AllocError>
        ensures noted { OnOk result ((l : List Act) → IsJournal self.old.caller self.old.journal l → (more : List Act) → notes.items ≡ entries self.old.caller more → IsJournal self.new.caller self.new.journal (l ++ more)) }
        ensures same { self.new ≡ record self.old { journal = self.new.journal } }
        ensures keeps { keeps self.new ≡ keeps self.old }
    {
        match &mut self.journal {
            None => Ok(()),
            Some(journal) => {
                let mut notes = notes;
                journal.append(&mut notes)
            }
        }
    }

    // The same as `run`, where the journal is kept.
    #[cold]
    #[inline(never)]
    fn run_with_journal<P: Pace, D: Desk, N: Names>(
        &mut self,
        alloc: Global,
        prog: &Program,
        desk: &mut D,
        names: &mut N,
        share: &mut Share,
    ) -> Result<Turn, AllocError>
        requires fine { IsFineMachine prog.now self.old }
        requires going { IsGoing self.old }
        requires holding { Holding (D.fixed desk.old).caller (self.old.state.made + 1) (frames_of self.old.frames.items) (D.front desk.old) }
        requires cache { IsTrueCache prog.now (N.known names.old) (N.asked names.old) (D.fixed desk.old).caller (D.front desk.old) self.old.state.cache }
        ensures advances { OnOk result (Advances prog.now (D.fixed desk.old).caller (N.known names.old) (N.known names.new) (N.asked names.old) (N.asked names.new) (D.front desk.old) (D.front desk.new) self.old self.new) }
        ensures turns { IfOk result (λ turn. Turns turn self.old self.new) }
        ensures begun { IfOk result (λ turn. HasBegun P.far turn self.old self.new) }
        ensures quiet { OnOk result (self.new.state.begun ≡ self.old.state.begun → D.front desk.new ≡ D.front desk.old) }
        ensures holding { Holding (D.fixed desk.old).caller (self.new.state.made + 1) (frames_of self.new.frames.items) (D.front desk.new) }
        ensures stays { Stays (D.fixed desk.old) (D.fixed desk.new) (D.front desk.old) (D.front desk.new) (N.known names.old) (N.known names.new) }
        ensures shares { OnOk result (Shares prog.now (N.known names.new) (D.fixed desk.old).caller (D.front desk.old) (D.front desk.new) share.old share.new) }
        ensures alike { N.alike names.old names.new }
        ensures caller { self.new.caller ≡ self.old.caller }
        ensures keeps { keeps self.new ≡ keeps self.old }
        ensures notes { OnOk result (NotesOn (D.fixed desk.old).caller (D.front desk.old) (D.front desk.new) self.old self.new) }
    {
        let mut notes = Vec::new(alloc);
        let turn = self.run_noting::<Brand, P, D, N>(alloc, prog, desk, names, share, &mut notes)?;
        self.note(notes)?;
        Ok(turn)
    }

    // The same, with a journal or without.
    #[inline(always)]
    fn run_kept<P: Pace, D: Desk, N: Names>(
        &mut self,
        alloc: Global,
        prog: &Program,
        desk: &mut D,
        names: &mut N,
        share: &mut Share,
    ) -> Result<Turn, AllocError>
        requires fine { IsFineMachine prog.now self.old }
        requires going { IsGoing self.old }
        requires holding { Holding (D.fixed desk.old).caller (self.old.state.made + 1) (frames_of self.old.frames.items) (D.front desk.old) }
        requires cache { IsTrueCache prog.now (N.known names.old) (N.asked names.old) (D.fixed desk.old).caller (D.front desk.old) self.old.state.cache }
        ensures advances { OnOk result (Advances prog.now (D.fixed desk.old).caller (N.known names.old) (N.known names.new) (N.asked names.old) (N.asked names.new) (D.front desk.old) (D.front desk.new) self.old self.new) }
        ensures turns { IfOk result (λ turn. Turns turn self.old self.new) }
        ensures begun { IfOk result (λ turn. HasBegun P.far turn self.old self.new) }
        ensures quiet { OnOk result (self.new.state.begun ≡ self.old.state.begun → D.front desk.new ≡ D.front desk.old) }
        ensures holding { Holding (D.fixed desk.old).caller (self.new.state.made + 1) (frames_of self.new.frames.items) (D.front desk.new) }
        ensures stays { Stays (D.fixed desk.old) (D.fixed desk.new) (D.front desk.old) (D.front desk.new) (N.known names.old) (N.known names.new) }
        ensures shares { OnOk result (Shares prog.now (N.known names.new) (D.fixed desk.old).caller (D.front desk.old) (D.front desk.new) share.old share.new) }
        ensures alike { N.alike names.old names.new }
        ensures caller { self.new.caller ≡ self.old.caller }
        ensures keeps { keeps self.new ≡ keeps self.old }
        ensures notes { OnOk result (NotesOn (D.fixed desk.old).caller (D.front desk.old) (D.front desk.new) self.old self.new) }
    {
        match &self.journal {
            None => self.run::<P, D, N>(alloc, prog, desk, names, share),
            Some(_) => self.run_with_journal::<P, D, N>(alloc, prog, desk, names, share),
        }
    }

    /// One beginning, or with a pace that goes far some at once, and what follows from the last up to the next one or to the end. All but the last ask no table. A script without an expression ends at once. A check that a call makes is kept, and the share gets a copy while it collects any.
    pub fn advance<P: Pace, D: Desk, N: Names>(
        &mut self,
        alloc: Global,
        prog: &Program,
        desk: &mut D,
        names: &mut N,
        share: &mut Share,
    ) -> Result<Turn, AllocError>
        requires fine { IsFineMachine prog.now self.old }
        requires going { IsGoing self.old }
        requires holding { Holding (D.fixed desk.old).caller (self.old.state.made + 1) (frames_of self.old.frames.items) (D.front desk.old) }
        requires cache { IsTrueCache prog.now (N.known names.old) (N.asked names.old) (D.fixed desk.old).caller (D.front desk.old) self.old.state.cache }
        ensures fine { OnOk result (IsFineMachine prog.now self.new) }
        ensures stands { OnOk result ((block steps : ℕ) (done : List (ℕ × Act)) → StandsFor prog.now (N.known names.old) block steps done self.old
            → (more : List Act) × (acts (D.fixed desk.old).caller (D.front desk.new) ≡ acts (D.fixed desk.old).caller (D.front desk.old) ++ more) × StandsFor prog.now (N.known names.new) block steps (done ++ tagged self.new.state.begun more) self.new) }
        ensures turn { IfOk result (λ turn. Turns turn self.old self.new) }
        ensures begun { IfOk result (λ turn. HasBegun P.far turn self.old self.new) }
        ensures quiet { OnOk result (self.new.state.begun ≡ self.old.state.begun → D.front desk.new ≡ D.front desk.old) }
        ensures holding { OnOk result (Holding (D.fixed desk.old).caller (self.new.state.made + 1) (frames_of self.new.frames.items) (D.front desk.new)) }
        ensures own { OnOk result (KeepsChecks prog.now (D.fixed desk.old).caller (N.known names.old) (N.known names.new) (N.asked names.old) (N.asked names.new) (D.front desk.old) (D.front desk.new) self.old.state.cache self.new.state.cache) }
        // Each call that entered on a fresh check gave its derivation to the share, while there was room.
        ensures shares { OnOk result (Shares prog.now (N.known names.new) (D.fixed desk.old).caller (D.front desk.old) (D.front desk.new) share.old share.new) }
        // The caller of a run that has ended holds nothing.
        ensures ended { IfOk result (λ turn. turn ≡ Ended → (q : ℕ) → stands (D.fixed desk.old).caller q (D.front desk.new) ≡ []) }
        ensures nothing { OnErr result ((q : ℕ) → stands (D.fixed desk.old).caller q (D.front desk.new) ≡ []) }
        ensures stays { Stays (D.fixed desk.old) (D.fixed desk.new) (D.front desk.old) (D.front desk.new) (N.known names.old) (N.known names.new) }
        ensures grown { OnOk result (Grown prog.now (D.fixed desk.old).caller (N.known names.new) (N.asked names.old) (N.asked names.new) (D.front desk.old) (D.front desk.new)) }
        ensures alike { N.alike names.old names.new }
        ensures caller { self.new.caller ≡ self.old.caller }
        ensures keeps { keeps self.new ≡ keeps self.old }
    {
        match self.run_kept::<P, D, N>(alloc, prog, desk, names, share) {
            Ok(turn) => Ok(turn),
            Err(error) => {
                leave_all(desk, &mut self.frames);
                Err(error)
            }
        }
    }

    /// The same as `advance`, for a machine that keeps no journal. A program that asks for none has no code that keeps one, and its steps are the faster for it.
    #[inline(always)]
    pub fn advance_unnoted<P: Pace, D: Desk, N: Names>(
        &mut self,
        alloc: Global,
        prog: &Program,
        desk: &mut D,
        names: &mut N,
        share: &mut Share,
    ) -> Result<Turn, AllocError>
        requires fine { IsFineMachine prog.now self.old }
        requires going { IsGoing self.old }
        requires plain { keeps self.old ≡ false }
        requires holding { Holding (D.fixed desk.old).caller (self.old.state.made + 1) (frames_of self.old.frames.items) (D.front desk.old) }
        requires cache { IsTrueCache prog.now (N.known names.old) (N.asked names.old) (D.fixed desk.old).caller (D.front desk.old) self.old.state.cache }
        ensures fine { OnOk result (IsFineMachine prog.now self.new) }
        ensures stands { OnOk result ((block steps : ℕ) (done : List (ℕ × Act)) → StandsFor prog.now (N.known names.old) block steps done self.old
            → (more : List Act) × (acts (D.fixed desk.old).caller (D.front desk.new) ≡ acts (D.fixed desk.old).caller (D.front desk.old) ++ more) × StandsFor prog.now (N.known names.new) block steps (done ++ tagged self.new.state.begun more) self.new) }
        ensures turn { IfOk result (λ turn. Turns turn self.old self.new) }
        ensures begun { IfOk result (λ turn. HasBegun P.far turn self.old self.new) }
        ensures quiet { OnOk result (self.new.state.begun ≡ self.old.state.begun → D.front desk.new ≡ D.front desk.old) }
        ensures holding { OnOk result (Holding (D.fixed desk.old).caller (self.new.state.made + 1) (frames_of self.new.frames.items) (D.front desk.new)) }
        ensures own { OnOk result (KeepsChecks prog.now (D.fixed desk.old).caller (N.known names.old) (N.known names.new) (N.asked names.old) (N.asked names.new) (D.front desk.old) (D.front desk.new) self.old.state.cache self.new.state.cache) }
        ensures shares { OnOk result (Shares prog.now (N.known names.new) (D.fixed desk.old).caller (D.front desk.old) (D.front desk.new) share.old share.new) }
        ensures ended { IfOk result (λ turn. turn ≡ Ended → (q : ℕ) → stands (D.fixed desk.old).caller q (D.front desk.new) ≡ []) }
        ensures nothing { OnErr result ((q : ℕ) → stands (D.fixed desk.old).caller q (D.front desk.new) ≡ []) }
        ensures stays { Stays (D.fixed desk.old) (D.fixed desk.new) (D.front desk.old) (D.front desk.new) (N.known names.old) (N.known names.new) }
        ensures grown { OnOk result (Grown prog.now (D.fixed desk.old).caller (N.known names.new) (N.asked names.old) (N.asked names.new) (D.front desk.old) (D.front desk.new)) }
        ensures alike { N.alike names.old names.new }
        ensures caller { self.new.caller ≡ self.old.caller }
        ensures keeps { keeps self.new ≡ keeps self.old }
    {
        match self.run::<P, D, N>(alloc, prog, desk, names, share) {
            Ok(turn) => Ok(turn),
            Err(error) => {
                leave_all(desk, &mut self.frames);
                Err(error)
            }
        }
    }

    /// What the run came to.
    pub fn finish(self) -> ScriptRun
        requires ended { HasEnded self }
        ensures run { (t : Table) (known names : List Name) (block steps : ℕ) (done : List (ℕ × Act)) → StandsFor t known block steps done self → IsPrefix known names → length names ≤ NAMES_MAX
            → Finishes t names block steps done self result }
    {
        let Machine {
            caller,
            state,
            conts: _,
            frames: _,
            hand,
            journal,
        } = self;
        let State {
            operands: _,
            vars: _,
            output,
            acc,
            at,
            stop,
            base: _,
            class: _,
            fuel: _,
            begun: _,
            made: _,
            decided,
            own,
            fresh,
            cache: _,
        } = state;
        ScriptRun {
            caller,
            outcome: outcome(hand, stop, at, acc),
            output,
            calls: decided,
            own,
            shared: 0,
            fresh,
            journal,
        }
    }
}
