//! How far a walk has come in the uses and steps of a derivation, and why it stops.

ghost use Rattle.std.specs.Prelude.{◌≡◌, ◌&&◌, [], Ok, IfSome, nat_eq};
ghost use Rattle.hb_types.specs.Types.{IsMethodTy, same_ty};
ghost use Rattle.hb_types.specs.Variables.{Variables};
ghost use Rattle.hb_deriv.specs.Judge.{Typed, Verdict};
ghost use Rattle.hb_deriv.specs.Events.{same_key};
ghost use Rattle.hb_deriv.specs.Derivation.{key_of};
ghost use Rattle.hb_deriv.specs.Programs.{sites_of};
ghost use Rattle.hb_deriv.specs.Walk.{finish, walk_call};
ghost use Rattle.hb_verify.specs.Follows.{IsWithin, FindsUse, Follows, find, state_of, with_variables};
ghost use Rattle.hb_verify.specs.Rules.{given, outcome};

use crate::rules::called;
use hb_deriv::raw::{Step, Used};
use hb_tree::program::Program;
use hb_types::env::EnvFull;
use hb_types::ids::{ClassId, NameId, NodeId, TypeSite};
use hb_types::types::{MethodTy, Ty};

/// What stays the same all through the walk over a body.
#[derive(Clone, Copy)]
pub struct Scene<'a> {
    pub prog: &'a Program,
    /// The class of `self`.
    pub class: ClassId,
    pub uses: &'a [Used],
    pub steps: &'a [Step],
}

/// How many uses were taken and how many steps were passed.
#[derive(Clone, Copy, Debug, PartialEq, Eq)]
pub struct Progress {
    pub taken: usize,
    pub passed: usize,
}

/// Why a walk stops.
#[derive(Clone, Copy, Debug, PartialEq, Eq)]
pub enum Stop {
    /// The next step does not name the finished expression and its type, or there is none, or the judgement fails.
    Step,
    /// The next use is not of the method that is called, or there is none.
    Uses,
    /// There are more variables than an environment holds. No body of a program has so many.
    Full,
}

impl From<EnvFull> for Stop {
    ghost use Rattle.std.specs.Prelude.{◌≡◌};
    ghost use Rattle.hb_verify.specs.declared.progress.Stop.TheVariants.{Full};

    ghost from_gives = { λ _ e. e ≡ Full };

    fn from(_: EnvFull) -> Self {
        Stop::Full
    }
}

/// An expression is finished and has this type: the next step must say so, and is passed.
pub fn pass(scene: Scene<'_>, node: NodeId, ty: Ty, at: &mut Progress) -> Result<Ty, Stop>
    requires within { IsWithin scene.uses.now scene.steps.now at.old }
    ensures within { IsWithin scene.entry.uses.now scene.entry.steps.now at.new }
    ensures follows { (G : Variables) → Follows scene.entry.uses.now scene.entry.steps.now
        (finish (state_of scene.entry.uses.now scene.entry.steps.now at.old) node.0 (Ok (G, ty))) [] G at.new (with_variables G result) }
{
    if at.passed < scene.steps.len() {
        if is_step(scene.steps[at.passed], node, ty) {
            at.passed += 1;
            return Ok(ty);
        }
    }
    Err(Stop::Step)
}

// Whether a step names this expression and its type.
fn is_step(step: Step, node: NodeId, ty: Ty) -> bool
    ensures { result ≡ (nat_eq step.node.0 node.0 && same_ty step.ty ty) }
{
    step.node == node && step.ty == ty
}

/// A rule is done with an expression: it has a type and is finished, or has none.
pub fn conclude(
    scene: Scene<'_>,
    node: NodeId,
    verdict: Option<Ty>,
    at: &mut Progress,
) -> Result<Ty, Stop>
    requires within { IsWithin scene.uses.now scene.steps.now at.old }
    ensures within { IsWithin scene.entry.uses.now scene.entry.steps.now at.new }
    ensures follows { (G : Variables) (v : Verdict Typed) → outcome v ≡ given G verdict → Follows scene.entry.uses.now scene.entry.steps.now
        (finish (state_of scene.entry.uses.now scene.entry.steps.now at.old) node.0 v) [] G at.new (with_variables G result) }
{
    match verdict {
        Some(ty) => pass(scene, node, ty, at),
        None => Err(Stop::Step),
    }
}

/// A call of a method by the type of its receiver and those of the arguments.
pub fn conclude_call(
    scene: Scene<'_>,
    node: NodeId,
    receiver: Ty,
    name: NameId,
    args: &[Ty],
    at: &mut Progress,
) -> Result<Ty, Stop>
    requires within { IsWithin scene.uses.now scene.steps.now at.old }
    ensures within { IsWithin scene.entry.uses.now scene.entry.steps.now at.new }
    ensures follows { (G : Variables) → Follows scene.entry.uses.now scene.entry.steps.now
        (walk_call (sites_of scene.entry.prog.now) node.0 name.0 G receiver args.now (state_of scene.entry.uses.now scene.entry.steps.now at.old)) [] G at.new
        (with_variables G result) }
{
    match receiver {
        Ty::Class(class) => {
            let site = take_use(scene, class, name, at)?;
            match declared(scene.prog, site) {
                Some(method) => conclude(scene, node, called(args, &method), at),
                None => Err(Stop::Step),
            }
        }
        _ => Err(Stop::Step),
    }
}

// The site of a method's type: that of its use, which was taken before or is the next one and is taken now.
fn take_use(
    scene: Scene<'_>,
    class: ClassId,
    name: NameId,
    at: &mut Progress,
) -> Result<TypeSite, Stop>
    requires within { IsWithin scene.uses.now scene.steps.now at.old }
    ensures within { IsWithin scene.entry.uses.now scene.entry.steps.now at.new }
    ensures finds { FindsUse scene.entry.uses.now scene.entry.steps.now (class.0, name.0) at.old at.new result }
{
    if let Some(site) = site_among(&scene.uses[..at.taken], class, name) {
        return Ok(site);
    }
    if at.taken < scene.uses.len() {
        let next = scene.uses[at.taken];
        if is_use(next, class, name) {
            at.taken += 1;
            return Ok(next.site);
        }
    }
    Err(Stop::Uses)
}

// The site of the use of a method. As many uses are taken as a body has calls at most, so they are few.
fn site_among(uses: &[Used], class: ClassId, name: NameId) -> Option<TypeSite>
    ensures { result ≡ find uses.now (class.0, name.0) }
{
    for used in uses {
        if is_use(*used, class, name) {
            return Some(used.site);
        }
    }
    None
}

// Whether a use is of this method.
fn is_use(used: Used, class: ClassId, name: NameId) -> bool
    ensures { result ≡ same_key (key_of used) (class.0, name.0) }
{
    used.class == class && used.name == name
}

// The type at a site. A site that is none of the program's gives none.
fn declared(prog: &Program, site: TypeSite) -> Option<MethodTy>
    ensures value { sites_of prog.now site.0 ≡ result }
    ensures form { IfSome result IsMethodTy }
{
    if (site.0 as usize) < prog.types() {
        Some(prog.type_of(site))
    } else {
        None
    }
}
