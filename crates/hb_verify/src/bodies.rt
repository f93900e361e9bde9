//! The verifier: whether a raw derivation is good for a program.

ghost use Rattle.std.specs.Prelude.{◌≡◌, ◌<◌, ◌≤◌, drop, length, nat_eq};
ghost use Rattle.std.specs.List.{IsDistinct};
ghost use Rattle.hb_types.specs.declared.types.TheConstants.{PARAMS_MAX};
ghost use Rattle.hb_types.specs.Types.{IsMethodTy, params_of as types_of};
ghost use Rattle.hb_tree.specs.Nodes.{params_of};
ghost use Rattle.hb_deriv.specs.Judge.{parameters};
ghost use Rattle.hb_deriv.specs.Walk.{at_end};
ghost use Rattle.hb_verify.specs.Follows.{state_of};
ghost use Rattle.hb_verify.specs.Verifies.{Closes, Ends, Few, Verifies};

use crate::expressions::walk_node;
use crate::progress::{Progress, Scene, Stop};
use hb_deriv::raw::{Derivation, RawDerivation};
use hb_tree::parts::Body;
use hb_tree::program::Program;
use hb_types::env::Env;
use hb_types::types::{MethodTy, Ty, below};
use std::alloc::{AllocError, Global};

/// Why a raw derivation is not taken: where its walk over the body stops first.
#[derive(Clone, Copy, Debug, PartialEq, Eq, Hash)]
pub enum VerifyFail {
    /// At a step: so many were passed.
    Step(u32),
    /// At a use: so many were taken.
    Uses(u32),
    NoMemory,
}

impl From<AllocError> for VerifyFail {
    ghost use Rattle.std.specs.Prelude.{◌≡◌};
    ghost use Rattle.hb_verify.specs.declared.bodies.VerifyFail.TheVariants.{NoMemory};

    ghost from_gives = { λ _ e. e ≡ NoMemory };

    fn from(_: AllocError) -> Self {
        VerifyFail::NoMemory
    }
}

/// Verifies a derivation of which nothing is known: the same content where it is good for the program, else the first
/// fault of the walk over the body that it names. (docs/ARCHITECTURE.md, "The verifier")
///
/// It looks at no tables, and needs memory only for what it gives.
pub fn verify(alloc: Global, prog: &Program, raw: &RawDerivation) -> Result<Derivation, VerifyFail>
    requires body { raw.now.body.0 < length prog.now.bodies }
    requires declared { raw.now.declared.0 < length prog.now.types }
    ensures { Verifies prog.now raw.now result }
{
    let mut at = Progress {
        taken: 0,
        passed: 0,
    };
    match walk_body(prog, raw, &mut at) {
        Ok(()) => Ok(Derivation {
            class: raw.class,
            body: raw.body,
            declared: raw.declared,
            uses: raw.uses.iter().copied().collect(alloc)?,
            steps: raw.steps.iter().copied().collect(alloc)?,
        }),
        Err(Stop::Step) => Err(VerifyFail::Step(at.passed as u32)),
        Err(Stop::Uses) => Err(VerifyFail::Uses(at.taken as u32)),
        // A body of a program has no more variables than an environment holds.
        Err(Stop::Full) => unreachable!(),
    }
}

// The walk over the whole body, up to its end.
fn walk_body(prog: &Program, raw: &RawDerivation, at: &mut Progress) -> Result<(), Stop>
    requires body { raw.now.body.0 < length prog.now.bodies }
    requires declared { raw.now.declared.0 < length prog.now.types }
    requires begins { (at.old.taken ≡ 0) × (at.old.passed ≡ 0) }
    ensures ends { Ends prog.now raw.now at.new result }
    ensures few { Few at.new result }
{
    let body = prog.body(raw.body);
    let ty = prog.type_of(raw.declared);
    if body.count != ty.count {
        return Err(Stop::Step);
    }
    let scene = Scene {
        prog,
        class: raw.class,
        uses: &raw.uses,
        steps: &raw.steps,
    };
    let mut env = parameters(&body, &ty);
    let found = walk_node(scene, body.block, &mut env, at)?;
    end_walk(scene, found, ty.result, *at)
}

// The end of a walk over a body of this type: no step is left, the type is below the declared one, and no use is left.
fn end_walk(scene: Scene<'_>, found: Ty, limit: Ty, at: Progress) -> Result<(), Stop>
    ensures { let uses = scene.entry.uses.now in let steps = scene.entry.steps.now in
        Closes (at_end limit (state_of uses steps at) found (drop at.passed steps)) at result }
{
    if at.passed < scene.steps.len() {
        return Err(Stop::Step);
    }
    if !below(found, limit) {
        return Err(Stop::Step);
    }
    if at.taken < scene.uses.len() {
        return Err(Stop::Uses);
    }
    Ok(())
}

// The parameters of a body at their declared types.
fn parameters(body: &Body, ty: &MethodTy) -> Env
    requires count { body.now.count ≡ ty.now.count }
    requires params { IsDistinct nat_eq (params_of body.now) }
    requires places { length body.now.params ≡ PARAMS_MAX }
    requires few { body.now.count ≤ PARAMS_MAX }
    requires form { IsMethodTy ty.now }
    ensures { result ≡ parameters (params_of body.now) (types_of ty.now) }
{
    let mut env = Env::new();
    for i in 0..body.count as usize {
        match env.set(body.params[i], ty.params[i]) {
            Ok(()) => {}
            // There are at most four.
            Err(_) => unreachable!(),
        }
    }
    env
}
