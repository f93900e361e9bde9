//! Definitions and declarations.

ghost use Rattle.std.specs.Prelude.{◌≡◌, [], Some, None};
ghost use Rattle.hb_grammar.specs.declared.actions.Action.{Action as TheAction};
ghost use Rattle.hb_build.specs.Acts.{act};
ghost use Rattle.hb_build.specs.Answers.{Answers, FitsTo, HasNameRoom};
ghost use Rattle.hb_build.specs.Needs.{HasToken, needs};
ghost use Rattle.hb_build.specs.Sound.{work_of};
ghost use Rattle.std.specs.Prelude.{◌-◌, ◌++◌, ◌∷◌, List, reverse, OnOk};
ghost use Rattle.hb_types.specs.declared.ids.ClassId.{ClassId as Class};
ghost use Rattle.hb_types.specs.declared.ids.NameId.{NameId as Name};
ghost use Rattle.hb_tree.specs.Program.{IsMethodTyIn};
ghost use Rattle.hb_build.specs.declared.held.Held.{Held as Thing};
ghost use Rattle.hb_build.specs.declared.held.Spot.{Spot as Place};
ghost use Rattle.hb_build.specs.Acts.{declare};
ghost use Rattle.hb_build.specs.Sound.{IsSound, is_named, things_of, pile_of};
ghost use Rattle.hb_tree.specs.Tree.{Tree};
ghost use Rattle.hb_draft.specs.Unfinished.{in_hand};
ghost use Rattle.hb_build.specs.Answers.{nowhere};
ghost use Rattle.hb_build.specs.Ended.{IsEnded, definition};
ghost use Rattle.hb_build.specs.Sound.{numbers};

use crate::builder::Builder;
use crate::faults::{Limit, ParseFail};
use crate::held::{Held, Spot};
use crate::lists::{method_ty, parameter_types, parameters};
use crate::tops::{drop_top, take_class, take_declaring, take_own, take_type};
use hb_types::ids::{ClassId, NameId};
use hb_types::types::{MethodTy, PARAMS_MAX};

impl Builder {
    /// The method has this name.
    pub(crate) fn name_method(&mut self, bytes: &[u8]) -> Result<(), ParseFail>
        requires fits { FitsTo TheAction.NameMethod nowhere bytes.now self.old }
        requires token { HasToken (needs TheAction.NameMethod) bytes.now }
        requires room { HasNameRoom self.old }
        ensures { Answers (act TheAction.NameMethod nowhere bytes.now (work_of self.old)) result self.new }
    {
        let (class, _) = take_class(&mut self.held);
        let name = self.draft.name(bytes)?;
        Ok(self.held.push(Held::Named(class, name))?)
    }

    /// The expression computes the method's name.
    pub(crate) fn compute_method(&mut self) -> Result<(), ParseFail>
        requires fits { FitsTo TheAction.ComputeMethod nowhere [] self.old }
        ensures { Answers (act TheAction.ComputeMethod nowhere [] (work_of self.old)) result self.new }
    {
        drop_top(&mut self.held);
        let (class, _) = take_class(&mut self.held);
        Ok(self.held.push(Held::Computed(class))?)
    }

    /// One more parameter of a definition.
    pub(crate) fn hold_parameter(&mut self, spot: Spot, bytes: &[u8]) -> Result<(), ParseFail>
        requires fits { FitsTo TheAction.HoldParameter spot bytes.now self.old }
        requires token { HasToken (needs TheAction.HoldParameter) bytes.now }
        requires room { HasNameRoom self.old }
        ensures { Answers (act TheAction.HoldParameter spot bytes.now (work_of self.old)) result self.new }
    {
        let name = self.draft.name(bytes)?;
        let params = parameters(self.alloc, &self.held)?;
        if params.contains(&name) {
            return Err(ParseFail::TwiceParam(spot.at));
        }
        if params.len() >= PARAMS_MAX {
            return Err(ParseFail::TooMany(Limit::Parameters, spot.at));
        }
        Ok(self.held.push(Held::Parameter(name))?)
    }

    /// The type is that of a parameter.
    pub(crate) fn add_parameter_type(&mut self, spot: Spot) -> Result<(), ParseFail>
        requires fits { FitsTo TheAction.AddParameterType spot [] self.old }
        ensures { Answers (act TheAction.AddParameterType spot [] (work_of self.old)) result self.new }
    {
        let ty = take_type(&mut self.held);
        if parameter_types(self.alloc, &self.held)?.len() >= PARAMS_MAX {
            return Err(ParseFail::TooMany(Limit::Parameters, spot.at));
        }
        Ok(self.held.push(Held::ParameterType(ty))?)
    }

    /// The parameters are complete, and the body begins.
    pub(crate) fn begin_body(&mut self) -> Result<(), ParseFail>
        requires fits { FitsTo TheAction.BeginBody nowhere [] self.old }
        ensures { Answers (act TheAction.BeginBody nowhere [] (work_of self.old)) result self.new }
    {
        let params = parameters(self.alloc, &self.held)?;
        self.begin_scope(true, params)?;
        Ok(self.held.push(Held::Body)?)
    }

    /// A definition.
    pub(crate) fn put_def(&mut self) -> Result<(), ParseFail>
        requires fits { FitsTo TheAction.PutDef nowhere [] self.old }
        ensures { Answers (act TheAction.PutDef nowhere [] (work_of self.old)) result self.new }
    {
        drop_top(&mut self.held);
        drop_top(&mut self.held);
        self.end_scope();
        let params = parameters(self.alloc, &self.held)?;
        self.held.truncate(self.held.len() - params.len());
        self.depth = self.depth.saturating_sub(1);
        self.define(&params)
    }

    // Puts the definition of the method on top, whose block is the last one in hand.
    fn define(&mut self, params: &[NameId]) -> Result<(), ParseFail>
        requires ended { IsEnded (numbers params.now) self.old }
        ensures { (block : Tree) (others : List Tree) → in_hand self.old.draft ≡ block ∷ others → Answers (definition (numbers params.now) block self.old) result self.new }
    {
        match self.held.pop() {
            Some(Held::Named(class, name)) => {
                let spot = take_own(&mut self.held);
                self.completes(self.highest(1), spot)?;
                self.draft.def(class, name, params, spot.place())?;
                self.put(Held::Operand)
            }
            Some(Held::Computed(class)) => {
                let spot = take_own(&mut self.held);
                self.completes(self.highest(2), spot)?;
                self.draft.def_computed(class, params, spot.place())?;
                self.put(Held::Operand)
            }
            _ => unreachable!(),
        }
    }

    /// A declaration.
    pub(crate) fn put_declare(&mut self, asks: bool) -> Result<(), ParseFail>
        requires fits { FitsTo (TheAction.PutDeclare asks) nowhere [] self.old }
        ensures { Answers (act (TheAction.PutDeclare asks) nowhere [] (work_of self.old)) result self.new }
    {
        let result = take_type(&mut self.held);
        let types = parameter_types(self.alloc, &self.held)?;
        self.held.truncate(self.held.len() - types.len());
        let ty = method_ty(&types, result);
        if has_name(&self.held) {
            self.declare(ty, asks)
        } else {
            self.declare_computed(ty, asks)
        }
    }

    // Puts the declaration of the method on top, whose name is not computed.
    fn declare(&mut self, ty: MethodTy, asks: bool) -> Result<(), ParseFail>
        requires sound { IsSound self.old }
        requires ty { IsMethodTyIn self.old.draft.table ty }
        requires top { (c : Class) × (m : Name) × (p : Place) × (rest : List Thing) × (things_of self.old ≡ Held.Named c m ∷ Held.Declaring p ∷ rest) }
        ensures { Answers (declare ty asks (pile_of self.old) (work_of self.old)) result self.new }
    {
        let (class, name) = take_named(&mut self.held);
        let spot = take_declaring(&mut self.held);
        self.completes(0, spot)?;
        self.draft.declare(class, name, ty, asks, spot.place())?;
        self.declaring -= 1;
        self.put(Held::Operand)
    }

    // Puts the declaration of the method on top, whose name is computed.
    fn declare_computed(&mut self, ty: MethodTy, asks: bool) -> Result<(), ParseFail>
        requires sound { IsSound self.old }
        requires ty { IsMethodTyIn self.old.draft.table ty }
        requires top { (c : Class) × (p : Place) × (rest : List Thing) × (things_of self.old ≡ Held.Computed c ∷ Held.Declaring p ∷ rest) }
        ensures { Answers (declare ty asks (pile_of self.old) (work_of self.old)) result self.new }
    {
        let class = take_computed(&mut self.held);
        let spot = take_declaring(&mut self.held);
        let height = self.draft.height(0);
        self.completes(height, spot)?;
        self.draft.declare_computed(class, ty, asks, spot.place())?;
        self.declaring -= 1;
        self.put(Held::Operand)
    }
}

// Whether the method on top has a name that is not computed.
fn has_name(held: &[Held]) -> bool
    ensures { (top : Thing) (rest : List Thing) → reverse held.now ≡ top ∷ rest → result ≡ is_named top }
{
    matches!(held.last(), Some(Held::Named(_, _)))
}

// Takes off a method with its name.
fn take_named(held: &mut Vec<Held>) -> (ClassId, NameId)
    requires { (c : Class) × (m : Name) × (rest : List Thing) × (reverse held.old.items ≡ Held.Named c m ∷ rest) }
    ensures { reverse held.old.items ≡ Held.Named result.0 result.1 ∷ reverse held.new.items }
{
    match held.pop() {
        Some(Held::Named(class, name)) => (class, name),
        _ => unreachable!(),
    }
}

// Takes off a method whose name is computed.
fn take_computed(held: &mut Vec<Held>) -> ClassId
    requires { (c : Class) × (rest : List Thing) × (reverse held.old.items ≡ Held.Computed c ∷ rest) }
    ensures { reverse held.old.items ≡ Held.Computed result ∷ reverse held.new.items }
{
    match held.pop() {
        Some(Held::Computed(class)) => class,
        _ => unreachable!(),
    }
}
