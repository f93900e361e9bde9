//! Words and marks that are held until their node is complete.

ghost use Rattle.std.specs.Prelude.{◌≡◌, [], Some, None};
ghost use Rattle.hb_grammar.specs.declared.actions.Action.{Action as TheAction};
ghost use Rattle.hb_build.specs.Acts.{act};
ghost use Rattle.hb_build.specs.Answers.{Answers, FitsTo, HasNameRoom};
ghost use Rattle.hb_build.specs.Needs.{HasToken, needs};
ghost use Rattle.hb_build.specs.Sound.{work_of};
ghost use Rattle.std.specs.Prelude.{◌⊎◌, ◌&&◌, MatchResult, position, bytes_eq, true, false, nat_le};
ghost use Rattle.hb_build.specs.Answers.{nowhere};
ghost use Rattle.hb_build.specs.Sound.{Assigns, IsOneTooMany, with_call};

use crate::builder::Builder;
use crate::faults::{Limit, ParseFail};
use crate::held::{Held, Spot};
use crate::tops::take_word;
use hb_tree::limits::{CALLS_IN_BODY_MAX, TYPES_MAX, VARIABLES_MAX};
use hb_types::ids::{ClassId, NameId};
use hb_types::types::Ty;

impl Builder {
    /// A parenthesis opens a construct.
    pub(crate) fn open(&mut self, spot: Spot) -> Result<(), ParseFail>
        requires fits { FitsTo TheAction.Open spot [] self.old }
        ensures { Answers (act TheAction.Open spot [] (work_of self.old)) result self.new }
    {
        self.opens(spot)?;
        self.begins(spot)?;
        self.depth += 1;
        Ok(())
    }

    /// A construct ends.
    pub(crate) fn close(&mut self) -> Result<(), ParseFail>
        requires fits { FitsTo TheAction.Close nowhere [] self.old }
        ensures { Answers (act TheAction.Close nowhere [] (work_of self.old)) result self.new }
    {
        self.depth = self.depth.saturating_sub(1);
        Ok(())
    }

    /// A word opens a construct.
    pub(crate) fn open_word(&mut self, spot: Spot) -> Result<(), ParseFail>
        requires fits { FitsTo TheAction.OpenWord spot [] self.old }
        ensures { Answers (act TheAction.OpenWord spot [] (work_of self.old)) result self.new }
    {
        self.opens(spot)?;
        self.begins(spot)?;
        self.depth += 1;
        Ok(self.held.push(Held::Own(spot))?)
    }

    /// A `=` opens a construct.
    pub(crate) fn open_assign(&mut self, spot: Spot) -> Result<(), ParseFail>
        requires fits { FitsTo TheAction.OpenAssign spot [] self.old }
        ensures { Answers (act TheAction.OpenAssign spot [] (work_of self.old)) result self.new }
    {
        let (name, _) = take_word(&mut self.held);
        self.opens(spot)?;
        self.assigns(name, spot)?;
        self.depth += 1;
        Ok(self.held.push(Held::Target(name, spot))?)
    }

    // The innermost scope assigns this variable, which may be one too many.
    fn assigns(&mut self, name: NameId, spot: Spot) -> Result<(), ParseFail>
        ensures result { MatchResult result
            (λ _. self.new ≡ record self.old { scope = record self.old.scope { variables = self.new.scope.variables } } × Assigns self.old.scope name self.new.scope)
            (λ fault. ((fault ≡ ParseFail.TooMany Limit.Variables spot.at) × IsOneTooMany self.old.scope name) ⊎ (fault ≡ ParseFail.NoMemory)) }
    {
        if self.scope.variables.contains(&name) {
            return Ok(());
        }
        if self.scope.variables.len() >= VARIABLES_MAX {
            return Err(ParseFail::TooMany(Limit::Variables, spot.at));
        }
        Ok(self.scope.variables.push(name)?)
    }

    /// An operator.
    pub(crate) fn hold_operator(&mut self, spot: Spot) -> Result<(), ParseFail>
        requires fits { FitsTo TheAction.HoldOperator spot [] self.old }
        ensures { Answers (act TheAction.HoldOperator spot [] (work_of self.old)) result self.new }
    {
        Ok(self.held.push(Held::Own(spot))?)
    }

    /// A `str`.
    pub(crate) fn hold_str(&mut self, spot: Spot) -> Result<(), ParseFail>
        requires fits { FitsTo TheAction.HoldStr spot [] self.old }
        ensures { Answers (act TheAction.HoldStr spot [] (work_of self.old)) result self.new }
    {
        self.begins(spot)?;
        Ok(self.held.push(Held::Own(spot))?)
    }

    /// A `type` or `type?`.
    pub(crate) fn hold_declare(&mut self, spot: Spot) -> Result<(), ParseFail>
        requires fits { FitsTo TheAction.HoldDeclare spot [] self.old }
        ensures { Answers (act TheAction.HoldDeclare spot [] (work_of self.old)) result self.new }
    {
        if self.draft.types() + self.declaring >= TYPES_MAX {
            return Err(ParseFail::TooMany(Limit::Types, spot.at));
        }
        self.begins(spot)?;
        self.declaring += 1;
        Ok(self.held.push(Held::Declaring(spot))?)
    }

    /// A name at the start of an operand.
    pub(crate) fn hold_name(&mut self, spot: Spot, bytes: &[u8]) -> Result<(), ParseFail>
        requires fits { FitsTo TheAction.HoldName spot bytes.now self.old }
        requires token { HasToken (needs TheAction.HoldName) bytes.now }
        requires room { HasNameRoom self.old }
        ensures { Answers (act TheAction.HoldName spot bytes.now (work_of self.old)) result self.new }
    {
        self.begins(spot)?;
        let name = self.draft.name(bytes)?;
        Ok(self.held.push(Held::Word(name, spot))?)
    }

    /// The name of a called method.
    pub(crate) fn hold_call(&mut self, spot: Spot, bytes: &[u8]) -> Result<(), ParseFail>
        requires fits { FitsTo TheAction.HoldCall spot bytes.now self.old }
        requires token { HasToken (needs TheAction.HoldCall) bytes.now }
        requires room { HasNameRoom self.old }
        ensures { Answers (act TheAction.HoldCall spot bytes.now (work_of self.old)) result self.new }
    {
        let name = self.draft.name(bytes)?;
        self.calls(spot)?;
        Ok(self.held.push(Held::Called(name, spot))?)
    }

    // The innermost scope has one call more, which may be one too many in a body.
    fn calls(&mut self, spot: Spot) -> Result<(), ParseFail>
        ensures { MatchResult result
            (λ _. (self.old.scope.is_body && nat_le CALLS_IN_BODY_MAX self.old.scope.calls ≡ false) × (self.new ≡ record self.old { scope = with_call self.old.scope }))
            (λ fault. (self.old.scope.is_body && nat_le CALLS_IN_BODY_MAX self.old.scope.calls ≡ true) × (fault ≡ ParseFail.TooMany Limit.Calls spot.at)) }
    {
        if self.scope.is_body {
            if self.scope.calls >= CALLS_IN_BODY_MAX {
                return Err(ParseFail::TooMany(Limit::Calls, spot.at));
            }
            self.scope.calls += 1;
        }
        Ok(())
    }

    // The class of this name, which is declared before.
    fn known_class(&self, bytes: &[u8], spot: Spot) -> Result<ClassId, ParseFail>
        ensures { MatchResult result
            (λ class. position (bytes_eq bytes.now) self.now.draft.table.classes ≡ Some class.0)
            (λ fault. (position (bytes_eq bytes.now) self.now.draft.table.classes ≡ None) × (fault ≡ ParseFail.UnknownClass spot.at)) }
    {
        self.draft
            .find_class(bytes)
            .ok_or(ParseFail::UnknownClass(spot.at))
    }

    /// A class that is made or has a method.
    pub(crate) fn hold_class(&mut self, spot: Spot, bytes: &[u8]) -> Result<(), ParseFail>
        requires fits { FitsTo TheAction.HoldClass spot bytes.now self.old }
        requires token { HasToken (needs TheAction.HoldClass) bytes.now }
        ensures { Answers (act TheAction.HoldClass spot bytes.now (work_of self.old)) result self.new }
    {
        let class = self.known_class(bytes, spot)?;
        self.begins(spot)?;
        Ok(self.held.push(Held::Class(class, spot))?)
    }

    /// The type of the objects of a class.
    pub(crate) fn hold_class_type(&mut self, spot: Spot, bytes: &[u8]) -> Result<(), ParseFail>
        requires fits { FitsTo TheAction.HoldClassType spot bytes.now self.old }
        requires token { HasToken (needs TheAction.HoldClassType) bytes.now }
        ensures { Answers (act TheAction.HoldClassType spot bytes.now (work_of self.old)) result self.new }
    {
        let class = self.known_class(bytes, spot)?;
        Ok(self.held.push(Held::Type(Ty::Class(class)))?)
    }

    /// A type that is a word.
    pub(crate) fn hold_type(&mut self, ty: Ty) -> Result<(), ParseFail>
        requires fits { FitsTo (TheAction.HoldType ty) nowhere [] self.old }
        ensures { Answers (act (TheAction.HoldType ty) nowhere [] (work_of self.old)) result self.new }
    {
        Ok(self.held.push(Held::Type(ty))?)
    }
}
