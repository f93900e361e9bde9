//! What a script gives away of its checks.

ghost use Rattle.std.specs.Prelude.{◌≡◌, ◌<◌, ◌≤◌, length, Some, None, IfOk, OnErr};
ghost use Rattle.hb_deriv.specs.Derivation.{IsCopy};
ghost use Rattle.hb_call.specs.Sharing.{IsCopyFor, TakesCopy, collected};

use hb_deriv::raw::Derivation;
use std::alloc::{AllocError, Global};

/// How many derivations are collected at most.
pub const COLLECTED_MAX: usize = 64;

/// What becomes of the checks that a script makes.
#[derive(Debug, Drop)]
pub enum Share {
    /// The script alone has them.
    Off,
    /// Equal copies of the first ones are collected, in their order.
    Collect(Vec<Derivation>),
}

impl Share {
    // A copy of the derivation, where one more is to be collected.
    pub(crate) fn copy_for(
        &self,
        alloc: Global,
        derivation: &Derivation,
    ) -> Result<Option<Derivation>, AllocError>
        ensures { IfOk result (IsCopyFor (collected self.now) derivation.now) }
    {
        match self {
            Share::Collect(made) if made.len() < COLLECTED_MAX => {
                Ok(Some(derivation.copy(alloc)?))
            }
            _ => Ok(None),
        }
    }

    // Takes a copy, where there is one.
    pub(crate) fn take(&mut self, copy: Option<Derivation>) -> Result<(), AllocError>
        ensures taken { IfOk result (λ _. TakesCopy (collected self.old) copy (collected self.new)) }
        ensures failed { OnErr result (collected self.new ≡ collected self.old) }
    {
        match (self, copy) {
            (Share::Collect(made), Some(copy)) => Ok(made.push(copy)?),
            _ => Ok(()),
        }
    }
}
