//! The check of a method's body.

ghost use Rattle.std.specs.Prelude.{◌≡◌, ◌<◌, ◌≤◌, [], None, length, nat_eq};
ghost use Rattle.std.specs.List.{IsDistinct};
ghost use Rattle.hb_types.specs.declared.types.TheConstants.{PARAMS_MAX};
ghost use Rattle.hb_types.specs.Types.{IsMethodTy, params_of as types_of};
ghost use Rattle.hb_tree.specs.Nodes.{params_of};
ghost use Rattle.hb_deriv.specs.Judge.{parameters};
ghost use Rattle.hb_check.specs.declared.bodies.Checked.TheVariants as checked;
ghost use Rattle.hb_check.specs.Checking.{Answers};

use crate::expressions::{Scene, check_node};
use crate::lookup::{LookFail, Lookup};
use crate::notes::{Notes, Stop};
use hb_deriv::ill::{Ill, Reason};
use hb_deriv::raw::Derivation;
use hb_tree::parts::Body;
use hb_tree::program::Program;
use hb_types::env::Env;
use hb_types::ids::{BodySite, ClassId, TypeSite};
use hb_types::types::{MethodTy, below};
use std::alloc::Global;

/// What a check finds.
#[derive(Debug, Drop)]
pub enum Checked {
    /// The body is well typed, and this shows it.
    Good(Derivation),
    /// The body is not well typed: its first fault.
    Bad(Ill),
}

/// Checks a body, with `self` of a class, against the type that is declared at a site. The types of the methods that it
/// calls are those that the lookup answers.
///
/// It fails where the lookup refuses an answer or memory runs out. (docs/LANGUAGE.md, "What is checked")
pub fn check<L: Lookup>(
    alloc: Global,
    prog: &Program,
    class: ClassId,
    body: BodySite,
    declared: TypeSite,
    look: &mut L,
) -> Result<Checked, LookFail>
    requires body { body.0 < length prog.now.bodies }
    requires declared { declared.0 < length prog.now.types }
    requires unanswered { L.answers look.old ≡ [] }
    requires unrefused { L.refused look.old ≡ None }
    requires ready { L.ready look.old }
    requires names { length prog.now.names ≤ L.names look.old }
    ensures ready { L.ready look.new }
    ensures alike { L.alike look.old look.new }
    ensures answers { Answers prog.now class.0 body.0 declared.0 (L.answers look.new) (L.refused look.new) result }
{
    let given = prog.body(body);
    let ty = prog.type_of(declared);
    if given.count != ty.count {
        return Ok(bad(given, Reason::Count));
    }
    let scene = Scene { alloc, prog, class };
    let mut env = parameters(&given, &ty);
    let mut notes = Notes::new(alloc);
    match check_node(scene, given.block, &mut env, &mut notes, look) {
        Ok(found) => {
            if below(found, ty.result) {
                Ok(Checked::Good(Derivation {
                    class,
                    body,
                    declared,
                    uses: notes.uses,
                    steps: notes.steps,
                }))
            } else {
                Ok(bad(given, Reason::Result))
            }
        }
        Err(Stop::Ill(ill)) => Ok(Checked::Bad(ill)),
        Err(Stop::Look(cause)) => Err(cause),
        // A body of a program has no more variables than an environment holds.
        Err(Stop::Full) => unreachable!(),
    }
}

// A fault of the body itself.
fn bad(body: Body, reason: Reason) -> Checked
    ensures { result ≡ checked.Bad (record { node = body.block; reason = reason }) }
{
    Checked::Bad(Ill {
        node: body.block,
        reason,
    })
}

// The parameters of a body at their declared types.
fn parameters(body: &Body, ty: &MethodTy) -> Env
    requires count { body.now.count ≡ ty.now.count }
    requires params { IsDistinct nat_eq (params_of body.now) }
    requires places { length body.now.params ≡ PARAMS_MAX }
    requires few { body.now.count ≤ PARAMS_MAX }
    requires form { IsMethodTy ty.now }
    ensures { result ≡ parameters (params_of body.now) (types_of ty.now) }
{
    let mut env = Env::new();
    for i in 0..body.count as usize {
        match env.set(body.params[i], ty.params[i]) {
            Ok(()) => {}
            // There are at most four.
            Err(_) => unreachable!(),
        }
    }
    env
}
