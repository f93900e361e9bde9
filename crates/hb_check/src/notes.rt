//! What a check notes on its way, and why it stops.

ghost use Rattle.std.specs.Prelude.{◌≡◌, [], ◌∷◌, List, Option, Ok};
ghost use Rattle.hb_types.specs.Variables.{Variables};
ghost use Rattle.hb_deriv.specs.Events.{Done, done};
ghost use Rattle.hb_deriv.specs.Derivation.{Sites};
ghost use Rattle.hb_check.specs.Asked.{Asked, Refusal};
ghost use Rattle.hb_check.specs.Looking.{site_among};
ghost use Rattle.hb_check.specs.Rules.{concluded};
ghost use Rattle.hb_check.specs.Runs.{Runs, state, with_variables};

use crate::lookup::LookFail;
use hb_deriv::ill::{Ill, Reason};
use hb_deriv::raw::{Step, Used};
use hb_types::env::EnvFull;
use hb_types::ids::{ClassId, NameId, NodeId, TypeSite};
use hb_types::types::Ty;
use std::alloc::{AllocFailed, Global};

/// Why a part of a body has no type here.
#[derive(Clone, Copy, Debug, PartialEq, Eq)]
pub enum Stop {
    /// The judgement fails.
    Ill(Ill),
    /// Memory ran out, or the lookup did not answer.
    Look(LookFail),
    /// There are more variables than an environment holds. No body of a program has so many.
    Full,
}

impl<T: Drop> From<AllocFailed<T>> for Stop {
    ghost use Rattle.std.specs.Prelude.{◌≡◌};
    ghost use Rattle.hb_check.specs.declared.lookup.LookFail.TheVariants.{NoMemory};
    ghost use Rattle.hb_check.specs.declared.notes.Stop.TheVariants.{Look};

    ghost from_gives = { λ _ e. e ≡ Look NoMemory };

    fn from(_: AllocFailed<T>) -> Self {
        Stop::Look(LookFail::NoMemory)
    }
}

impl From<LookFail> for Stop {
    ghost use Rattle.std.specs.Prelude.{◌≡◌};
    ghost use Rattle.hb_check.specs.declared.notes.Stop.TheVariants.{Look};

    ghost from_gives = { λ fail e. e ≡ Look fail };

    fn from(fail: LookFail) -> Self {
        Stop::Look(fail)
    }
}

impl From<EnvFull> for Stop {
    ghost use Rattle.std.specs.Prelude.{◌≡◌};
    ghost use Rattle.hb_check.specs.declared.notes.Stop.TheVariants.{Full};

    ghost from_gives = { λ _ e. e ≡ Full };

    fn from(_: EnvFull) -> Self {
        Stop::Full
    }
}

/// The derivation so far.
#[derive(Debug, Drop)]
pub struct Notes {
    /// The methods whose types were looked up and found.
    pub uses: Vec<Used>,
    /// The expressions that are finished.
    pub steps: Vec<Step>,
}

impl Notes {
    /// Nothing is noted yet.
    pub fn new(alloc: Global) -> Notes
        ensures uses { result.uses.items ≡ [] }
        ensures steps { result.steps.items ≡ [] }
    {
        Notes {
            uses: Vec::new(alloc),
            steps: Vec::new(alloc),
        }
    }

    /// The site that a lookup answered for a method, where it was asked before.
    pub fn site_of(&self, class: ClassId, name: NameId) -> Option<TypeSite>
        ensures { result ≡ site_among self.now.uses.items (class.0, name.0) }
    {
        for used in &self.uses {
            if used.class == class && used.name == name {
                return Some(used.site);
            }
        }
        None
    }

    /// An expression is finished, and has this type.
    pub fn finish(&mut self, node: NodeId, ty: Ty) -> Result<Ty, Stop>
        ensures { (sites : Sites) (G : Variables) (answers : List Asked) (refused : Option Refusal)
            → Runs sites (λ types. Ok (G, ty)) (λ types. Done node.0 ty ∷ []) [] G
            (state answers refused self.old) (state answers refused self.new) (with_variables G result) }
    {
        self.steps.push(Step { node, ty })?;
        Ok(ty)
    }

    /// A rule is done with an expression: it has a type and is finished, or there is a reason why it has none.
    pub fn conclude(&mut self, node: NodeId, verdict: Result<Ty, Reason>) -> Result<Ty, Stop>
        ensures { (sites : Sites) (G : Variables) (answers : List Asked) (refused : Option Refusal)
            → Runs sites (λ types. concluded node.0 G verdict) (λ types. done node.0 (concluded node.0 G verdict)) [] G
            (state answers refused self.old) (state answers refused self.new) (with_variables G result) }
    {
        match verdict {
            Ok(ty) => self.finish(node, ty),
            Err(reason) => Err(Stop::Ill(Ill { node, reason })),
        }
    }
}
