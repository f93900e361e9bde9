//! Classes, the setup, scripts and blocks.

ghost use Rattle.std.specs.Prelude.{◌≡◌, [], Some, None};
ghost use Rattle.hb_grammar.specs.declared.actions.Action.{Action as TheAction};
ghost use Rattle.hb_build.specs.Acts.{act};
ghost use Rattle.hb_build.specs.Answers.{Answers, FitsTo, HasNameRoom};
ghost use Rattle.hb_build.specs.Needs.{HasToken, needs};
ghost use Rattle.hb_build.specs.Sound.{work_of};
ghost use Rattle.std.specs.Prelude.{◌<◌, ◌++◌, ◌∷◌, length, OnOk, OnErr, Err};
ghost use Rattle.hb_build.specs.Answers.{nowhere};

use crate::builder::{Builder, Scope};
use crate::checks::run_of;
use crate::faults::{Limit, ParseFail};
use crate::held::{Held, Spot};
use crate::tops::{drop_top, take_script};
use hb_tree::limits::{ARGUMENTS_MAX, CLASSES_MAX, SCRIPTS_MAX};
use hb_types::ids::NameId;
use std::mem::replace;

impl Builder {
    /// One more class.
    pub(crate) fn declare_class(&mut self, spot: Spot, bytes: &[u8]) -> Result<(), ParseFail>
        requires fits { FitsTo TheAction.DeclareClass spot bytes.now self.old }
        requires token { HasToken (needs TheAction.DeclareClass) bytes.now }
        ensures { Answers (act TheAction.DeclareClass spot bytes.now (work_of self.old)) result self.new }
    {
        if self.draft.find_class(bytes).is_some() {
            return Err(ParseFail::TwiceClass(spot.at));
        }
        if self.draft.classes() >= CLASSES_MAX {
            return Err(ParseFail::TooMany(Limit::Classes, spot.at));
        }
        self.draft.class(bytes)?;
        Ok(())
    }

    /// The setup begins.
    pub(crate) fn begin_setup(&mut self) -> Result<(), ParseFail>
        requires fits { FitsTo TheAction.BeginSetup nowhere [] self.old }
        ensures { Answers (act TheAction.BeginSetup nowhere [] (work_of self.old)) result self.new }
    {
        self.begin_scope(false, Vec::new(self.alloc))?;
        Ok(self.held.push(Held::Setup)?)
    }

    /// The setup ends.
    pub(crate) fn end_setup(&mut self) -> Result<(), ParseFail>
        requires fits { FitsTo TheAction.EndSetup nowhere [] self.old }
        ensures { Answers (act TheAction.EndSetup nowhere [] (work_of self.old)) result self.new }
    {
        drop_top(&mut self.held);
        drop_top(&mut self.held);
        self.draft.setup();
        self.end_scope();
        Ok(())
    }

    /// A script begins.
    pub(crate) fn begin_script(&mut self, spot: Spot, bytes: &[u8]) -> Result<(), ParseFail>
        requires fits { FitsTo TheAction.BeginScript spot bytes.now self.old }
        requires token { HasToken (needs TheAction.BeginScript) bytes.now }
        requires room { HasNameRoom self.old }
        ensures { Answers (act TheAction.BeginScript spot bytes.now (work_of self.old)) result self.new }
    {
        let name = self.draft.name(bytes)?;
        if self.scripts.contains(&name) {
            return Err(ParseFail::TwiceScript(spot.at));
        }
        if self.scripts.len() >= SCRIPTS_MAX {
            return Err(ParseFail::TooMany(Limit::Scripts, spot.at));
        }
        self.begin_scope(false, Vec::new(self.alloc))?;
        Ok(self.held.push(Held::Script(name))?)
    }

    /// A script ends, whose last token stands here.
    pub(crate) fn end_script(&mut self, spot: Spot) -> Result<(), ParseFail>
        requires fits { FitsTo TheAction.EndScript spot [] self.old }
        ensures { Answers (act TheAction.EndScript spot [] (work_of self.old)) result self.new }
    {
        if self.scripts.len() >= SCRIPTS_MAX {
            return Err(ParseFail::TooMany(Limit::Scripts, spot.at));
        }
        drop_top(&mut self.held);
        let name = take_script(&mut self.held);
        self.draft.script(name)?;
        self.scripts.push(name)?;
        self.end_scope();
        Ok(())
    }

    /// A block begins.
    pub(crate) fn begin_block(&mut self) -> Result<(), ParseFail>
        requires fits { FitsTo TheAction.BeginBlock nowhere [] self.old }
        ensures { Answers (act TheAction.BeginBlock nowhere [] (work_of self.old)) result self.new }
    {
        Ok(self.held.push(Held::Block)?)
    }

    /// The expression is an item of the block.
    pub(crate) fn add_item(&mut self) -> Result<(), ParseFail>
        requires fits { FitsTo TheAction.AddItem nowhere [] self.old }
        ensures { Answers (act TheAction.AddItem nowhere [] (work_of self.old)) result self.new }
    {
        drop_top(&mut self.held);
        Ok(self.held.push(Held::Item)?)
    }

    /// The expression is an argument of the call, whose last token stands here.
    pub(crate) fn add_argument(&mut self, spot: Spot) -> Result<(), ParseFail>
        requires fits { FitsTo TheAction.AddArgument spot [] self.old }
        ensures { Answers (act TheAction.AddArgument spot [] (work_of self.old)) result self.new }
    {
        drop_top(&mut self.held);
        if run_of(&self.held, Held::Argument) >= ARGUMENTS_MAX {
            return Err(ParseFail::TooMany(Limit::Arguments, spot.at));
        }
        Ok(self.held.push(Held::Argument)?)
    }

    /// A scope begins with these variables.
    pub(crate) fn begin_scope(
        &mut self,
        is_body: bool,
        variables: Vec<NameId>,
    ) -> Result<(), ParseFail>
        ensures outer { OnOk result (self.new.outer.items ≡ self.old.outer.items ++ self.old.scope ∷ []) }
        ensures scope { OnOk result (self.new.scope ≡ record { is_body = is_body; nodes = 0; calls = 0; variables = variables }) }
        ensures rest { OnOk result (self.new ≡ record self.old { scope = self.new.scope; outer = self.new.outer }) }
        ensures memory { OnErr result (result ≡ Err ParseFail.NoMemory) }
    {
        let scope = Scope {
            is_body,
            nodes: 0,
            calls: 0,
            variables,
        };
        self.outer.push(replace(&mut self.scope, scope))?;
        Ok(())
    }

    /// The innermost scope ends.
    pub(crate) fn end_scope(&mut self)
        requires { 0 < length self.old.outer.items }
        ensures outer { self.old.outer.items ≡ self.new.outer.items ++ self.new.scope ∷ [] }
        ensures rest { self.new ≡ record self.old { scope = self.new.scope; outer = self.new.outer } }
    {
        match self.outer.pop() {
            Some(scope) => self.scope = scope,
            None => unreachable!(),
        }
    }
}
