//! Nodes that are complete.

ghost use Rattle.std.specs.Prelude.{◌≡◌, [], Some, None};
ghost use Rattle.hb_grammar.specs.declared.actions.Action.{Action as TheAction};
ghost use Rattle.hb_build.specs.Acts.{act};
ghost use Rattle.hb_build.specs.Answers.{Answers, FitsTo, HasNameRoom};
ghost use Rattle.hb_build.specs.Needs.{HasToken, needs};
ghost use Rattle.hb_build.specs.Sound.{work_of};
ghost use Rattle.std.specs.Prelude.{◌≤◌, ◌<◌, ◌++◌, ◌∷◌, true, length, OnOk, OnErr, Err};
ghost use Rattle.hb_build.specs.Sound.{with_node};
ghost use Rattle.hb_tree.specs.Counts.{highest};
ghost use Rattle.hb_draft.specs.Unfinished.{forest_of, in_hand, last_in};
ghost use Rattle.hb_build.specs.Answers.{nowhere};

use crate::builder::Builder;
use crate::checks::run_of;
use crate::faults::ParseFail;
use crate::held::{Held, Spot};
use crate::tops::{drop_top, take_called, take_class, take_own, take_target, take_word};
use hb_lex::{number_value, text_value};
use hb_tree::limits::NODES_IN_BODY_MAX;
use hb_tree::node::Op;

impl Builder {
    /// `nil`.
    pub(crate) fn put_nil(&mut self, spot: Spot) -> Result<(), ParseFail>
        requires fits { FitsTo TheAction.PutNil spot [] self.old }
        ensures { Answers (act TheAction.PutNil spot [] (work_of self.old)) result self.new }
    {
        self.begins(spot)?;
        self.completes(0, spot)?;
        self.draft.nil(spot.place())?;
        self.put(Held::Operand)
    }

    /// `true` or `false`.
    pub(crate) fn put_boolean(&mut self, value: bool, spot: Spot) -> Result<(), ParseFail>
        requires fits { FitsTo (TheAction.PutBoolean value) spot [] self.old }
        ensures { Answers (act (TheAction.PutBoolean value) spot [] (work_of self.old)) result self.new }
    {
        self.begins(spot)?;
        self.completes(0, spot)?;
        self.draft.boolean(value, spot.place())?;
        self.put(Held::Operand)
    }

    /// `self`.
    pub(crate) fn put_self(&mut self, spot: Spot) -> Result<(), ParseFail>
        requires fits { FitsTo TheAction.PutSelf spot [] self.old }
        ensures { Answers (act TheAction.PutSelf spot [] (work_of self.old)) result self.new }
    {
        self.begins(spot)?;
        self.completes(0, spot)?;
        self.draft.self_ref(spot.place())?;
        self.put(Held::Operand)
    }

    /// A number.
    pub(crate) fn put_number(&mut self, spot: Spot, bytes: &[u8]) -> Result<(), ParseFail>
        requires fits { FitsTo TheAction.PutNumber spot bytes.now self.old }
        requires token { HasToken (needs TheAction.PutNumber) bytes.now }
        ensures { Answers (act TheAction.PutNumber spot bytes.now (work_of self.old)) result self.new }
    {
        self.begins(spot)?;
        self.completes(0, spot)?;
        self.draft.int(number_value(bytes), spot.place())?;
        self.put(Held::Operand)
    }

    /// A text.
    pub(crate) fn put_text(&mut self, spot: Spot, bytes: &[u8]) -> Result<(), ParseFail>
        requires fits { FitsTo TheAction.PutText spot bytes.now self.old }
        requires token { HasToken (needs TheAction.PutText) bytes.now }
        ensures { Answers (act TheAction.PutText spot bytes.now (work_of self.old)) result self.new }
    {
        self.begins(spot)?;
        self.completes(0, spot)?;
        let value = text_value(self.alloc, bytes)?;
        self.draft.text(&value, spot.place())?;
        self.put(Held::Operand)
    }

    /// A variable.
    pub(crate) fn put_variable(&mut self) -> Result<(), ParseFail>
        requires fits { FitsTo TheAction.PutVariable nowhere [] self.old }
        ensures { Answers (act TheAction.PutVariable nowhere [] (work_of self.old)) result self.new }
    {
        let (name, spot) = take_word(&mut self.held);
        self.completes(0, spot)?;
        self.draft.var(name, spot.place())?;
        self.put(Held::Operand)
    }

    /// A new object.
    pub(crate) fn put_new(&mut self) -> Result<(), ParseFail>
        requires fits { FitsTo TheAction.PutNew nowhere [] self.old }
        ensures { Answers (act TheAction.PutNew nowhere [] (work_of self.old)) result self.new }
    {
        let (class, spot) = take_class(&mut self.held);
        self.completes(0, spot)?;
        self.draft.new_object(class, spot.place())?;
        self.put(Held::Operand)
    }

    /// An assignment.
    pub(crate) fn put_assign(&mut self) -> Result<(), ParseFail>
        requires fits { FitsTo TheAction.PutAssign nowhere [] self.old }
        ensures { Answers (act TheAction.PutAssign nowhere [] (work_of self.old)) result self.new }
    {
        drop_top(&mut self.held);
        let (name, spot) = take_target(&mut self.held);
        self.completes(self.draft.height(0), spot)?;
        self.draft.assign(name, spot.place())?;
        self.depth = self.depth.saturating_sub(1);
        self.put(Held::Operand)
    }

    /// A `print`.
    pub(crate) fn put_print(&mut self) -> Result<(), ParseFail>
        requires fits { FitsTo TheAction.PutPrint nowhere [] self.old }
        ensures { Answers (act TheAction.PutPrint nowhere [] (work_of self.old)) result self.new }
    {
        drop_top(&mut self.held);
        let spot = take_own(&mut self.held);
        self.completes(self.draft.height(0), spot)?;
        self.draft.print(spot.place())?;
        self.depth = self.depth.saturating_sub(1);
        self.put(Held::Operand)
    }

    /// A `str`.
    pub(crate) fn put_str(&mut self) -> Result<(), ParseFail>
        requires fits { FitsTo TheAction.PutStr nowhere [] self.old }
        ensures { Answers (act TheAction.PutStr nowhere [] (work_of self.old)) result self.new }
    {
        drop_top(&mut self.held);
        let spot = take_own(&mut self.held);
        self.completes(self.draft.height(0), spot)?;
        self.draft.to_str(spot.place())?;
        self.put(Held::Operand)
    }

    /// A `not`.
    pub(crate) fn put_not(&mut self) -> Result<(), ParseFail>
        requires fits { FitsTo TheAction.PutNot nowhere [] self.old }
        ensures { Answers (act TheAction.PutNot nowhere [] (work_of self.old)) result self.new }
    {
        drop_top(&mut self.held);
        let spot = take_own(&mut self.held);
        self.completes(self.draft.height(0), spot)?;
        self.draft.not(spot.place())?;
        self.depth = self.depth.saturating_sub(1);
        self.put(Held::Operand)
    }

    /// An operation.
    pub(crate) fn put_binary(&mut self, op: Op) -> Result<(), ParseFail>
        requires fits { FitsTo (TheAction.PutBinary op) nowhere [] self.old }
        ensures { Answers (act (TheAction.PutBinary op) nowhere [] (work_of self.old)) result self.new }
    {
        drop_top(&mut self.held);
        let spot = take_own(&mut self.held);
        drop_top(&mut self.held);
        self.completes(self.highest(2), spot)?;
        self.draft.binary(op, spot.place())?;
        self.put(Held::Operand)
    }

    /// An `if`.
    pub(crate) fn put_if(&mut self) -> Result<(), ParseFail>
        requires fits { FitsTo TheAction.PutIf nowhere [] self.old }
        ensures { Answers (act TheAction.PutIf nowhere [] (work_of self.old)) result self.new }
    {
        drop_top(&mut self.held);
        drop_top(&mut self.held);
        drop_top(&mut self.held);
        let spot = take_own(&mut self.held);
        self.completes(self.highest(3), spot)?;
        self.draft.if_else(spot.place())?;
        self.depth = self.depth.saturating_sub(1);
        self.put(Held::Operand)
    }

    /// A `while`.
    pub(crate) fn put_while(&mut self) -> Result<(), ParseFail>
        requires fits { FitsTo TheAction.PutWhile nowhere [] self.old }
        ensures { Answers (act TheAction.PutWhile nowhere [] (work_of self.old)) result self.new }
    {
        drop_top(&mut self.held);
        drop_top(&mut self.held);
        let spot = take_own(&mut self.held);
        self.completes(self.highest(2), spot)?;
        self.draft.while_loop(spot.place())?;
        self.depth = self.depth.saturating_sub(1);
        self.put(Held::Operand)
    }

    /// A call.
    pub(crate) fn put_call(&mut self) -> Result<(), ParseFail>
        requires fits { FitsTo TheAction.PutCall nowhere [] self.old }
        ensures { Answers (act TheAction.PutCall nowhere [] (work_of self.old)) result self.new }
    {
        let count = run_of(&self.held, Held::Argument);
        self.held.truncate(self.held.len() - count);
        let (name, spot) = take_called(&mut self.held);
        drop_top(&mut self.held);
        self.completes(self.highest(count + 1), spot)?;
        self.draft.call(name, count, spot.place())?;
        self.put(Held::Operand)
    }

    /// The end of a block, which is the last token.
    pub(crate) fn end_block(&mut self, spot: Spot) -> Result<(), ParseFail>
        requires fits { FitsTo TheAction.EndBlock spot [] self.old }
        ensures { Answers (act TheAction.EndBlock spot [] (work_of self.old)) result self.new }
    {
        let count = run_of(&self.held, Held::Item);
        self.held.truncate(self.held.len() - count);
        drop_top(&mut self.held);
        self.completes(self.highest(count), spot)?;
        self.draft.block(count, spot.place())?;
        self.put(Held::Closed)
    }

    /// The greatest height of the last `count` in hand.
    pub(crate) fn highest(&self, count: usize) -> usize
        requires { count ≤ length (in_hand self.now.draft) }
        ensures { result ≡ highest (forest_of (last_in count (in_hand self.now.draft))) }
    {
        let mut most = 0;
        for below in 0..count {
            let height = self.draft.height(below);
            if height > most {
                most = height;
            }
        }
        most
    }

    /// A complete node lies on top, and counts in a body.
    pub(crate) fn put(&mut self, thing: Held) -> Result<(), ParseFail>
        requires { self.old.scope.is_body ≡ true → self.old.scope.nodes < NODES_IN_BODY_MAX }
        ensures held { OnOk result (self.new.held.items ≡ self.old.held.items ++ thing ∷ []) }
        ensures rest { OnOk result (self.new ≡ record self.old { held = self.new.held; scope = with_node self.old.scope }) }
        ensures memory { OnErr result (result ≡ Err ParseFail.NoMemory) }
    {
        if self.scope.is_body {
            self.scope.nodes += 1;
        }
        self.held.push(thing)?;
        Ok(())
    }
}
