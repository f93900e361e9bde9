//! Derivations of which nothing is known, and whether they name only what a program has.

ghost use Rattle.std.specs.Prelude.{◌≡◌, ◌↔◌, All, IfOk, IsTrue};
ghost use Rattle.hb_deriv.specs.Derivation.{content_of};
ghost use Rattle.hb_deriv_text.specs.Text.{Fits, IsStepIn, IsTypeIn, IsUseIn, raw_content_of};

use hb_deriv::raw::{Derivation, RawDerivation, Step, Used};
use hb_tree::program::Program;
use hb_types::types::Ty;
use std::alloc::{AllocError, Global};

/// What a derivation says, without what is known of it.
pub fn to_raw(alloc: Global, derivation: &Derivation) -> Result<RawDerivation, AllocError>
    ensures { IfOk result (λ raw. raw_content_of raw ≡ content_of derivation.now) }
{
    Ok(RawDerivation {
        class: derivation.class,
        body: derivation.body,
        declared: derivation.declared,
        uses: derivation.uses.iter().copied().collect(alloc)?,
        steps: derivation.steps.iter().copied().collect(alloc)?,
    })
}

/// Whether each class, name, site and node is one of the program.
pub fn fits(raw: &RawDerivation, prog: &Program) -> bool
    ensures { IsTrue result ↔ Fits prog.now (raw_content_of raw.now) }
{
    (raw.class.0 as usize) < prog.classes()
        && (raw.body.0 as usize) < prog.bodies()
        && (raw.declared.0 as usize) < prog.types()
        && uses_fit(&raw.uses, prog)
        && steps_fit(&raw.steps, prog)
}

fn uses_fit(uses: &[Used], prog: &Program) -> bool
    ensures { IsTrue result ↔ All (IsUseIn prog.now) uses.now }
{
    for used in uses {
        if !use_fits(*used, prog) {
            return false;
        }
    }
    true
}

fn steps_fit(steps: &[Step], prog: &Program) -> bool
    ensures { IsTrue result ↔ All (IsStepIn prog.now) steps.now }
{
    for step in steps {
        if !step_fits(*step, prog) {
            return false;
        }
    }
    true
}

fn use_fits(used: Used, prog: &Program) -> bool
    ensures { IsTrue result ↔ IsUseIn prog.now used }
{
    (used.class.0 as usize) < prog.classes()
        && (used.name.0 as usize) < prog.names()
        && (used.site.0 as usize) < prog.types()
}

fn step_fits(step: Step, prog: &Program) -> bool
    ensures { IsTrue result ↔ IsStepIn prog.now step }
{
    (step.node.0 as usize) < prog.nodes() && type_fits(step.ty, prog)
}

// Whether the class of a type, where it is one of a class, is the program's.
#[tactic(auto, unfolding(crate::specs::Text::IsTypeIn))]
fn type_fits(ty: Ty, prog: &Program) -> bool
    ensures { IsTrue result ↔ IsTypeIn prog.now ty }
{
    match ty {
        Ty::Class(class) => (class.0 as usize) < prog.classes(),
        _ => true,
    }
}
