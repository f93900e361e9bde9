//! Derivations: which types a judgement used, and what it finished.

ghost use Rattle.std.specs.Prelude.{IfOk};
ghost use Rattle.hb_deriv.specs.Derivation.{IsCopy};

use hb_types::ids::{BodySite, ClassId, NameId, NodeId, TypeSite};
use hb_types::types::Ty;
use std::alloc::{AllocError, Global};

/// A method at which a judgement looked, and the `type` or `type?` that gives its type.
#[derive(Clone, Copy, Debug, PartialEq, Eq, Hash)]
pub struct Used {
    pub class: ClassId,
    pub name: NameId,
    pub site: TypeSite,
}

/// A finished expression and its type.
#[derive(Clone, Copy, Debug, PartialEq, Eq, Hash)]
pub struct Step {
    pub node: NodeId,
    pub ty: Ty,
}

/// What claims to show that a body has its declared type. Nothing is known of it.
#[derive(Debug, Drop)]
pub struct RawDerivation {
    /// The class of `self`.
    pub class: ClassId,
    pub body: BodySite,
    pub declared: TypeSite,
    /// In the order of the first looks, without repeats.
    pub uses: Vec<Used>,
    /// In the order in which the judgement finishes the expressions.
    pub steps: Vec<Step>,
}

/// What shows that a body of a program has its declared type. The type itself keeps no fact: whoever makes one says for which program it is.
#[derive(Debug, Drop)]
pub struct Derivation {
    /// The class of `self`.
    pub class: ClassId,
    pub body: BodySite,
    pub declared: TypeSite,
    /// In the order of the first looks, without repeats.
    pub uses: Vec<Used>,
    /// In the order in which the judgement finishes the expressions.
    pub steps: Vec<Step>,
}

impl Derivation {
    /// Another one that says the same, and so is for the same program.
    pub fn copy(&self, alloc: Global) -> Result<Derivation, AllocError>
        ensures { IfOk result (IsCopy self.now) }
    {
        Ok(Derivation {
            class: self.class,
            body: self.body,
            declared: self.declared,
            uses: self.uses.iter().copied().collect(alloc)?,
            steps: self.steps.iter().copied().collect(alloc)?,
        })
    }
}
