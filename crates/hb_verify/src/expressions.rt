//! The walk over expressions and blocks, by the numbers of their nodes.

ghost use Rattle.std.specs.Prelude.{◌≡◌, ◌<◌, ◌≤◌, [], All, length};
ghost use Rattle.std.specs.List.{AllByRecursion};
ghost use Rattle.hb_tree.specs.Nodes.{name_parts};
ghost use Rattle.hb_tree.specs.Tree.{TAssign, TBinary, TIf, TWhile, TCall};
ghost use Rattle.hb_tree.specs.TreeAt.{forest_at, tree_at, IsBlockAt};
ghost use Rattle.hb_verify.specs.Walks.{Walks, WalksArgs, WalksMethod, WalksPart};
ghost use Rattle.hb_verify.specs.Follows.{IsWithin, with_list, with_variables};

use crate::progress::{Progress, Scene, Stop, conclude, conclude_call, pass};
use crate::rules::{declared, looped, named, operands, variable};
use arrayvec::ArrayVec;
use hb_tree::limits::ARGUMENTS_MAX;
use hb_tree::node::{Method, Node, Op, arguments};
use hb_types::env::Env;
use hb_types::ids::{NameId, NodeId};
use hb_types::types::{Ty, join};

/// The type of an expression or a block. The variables become those behind it.
#[cycle(expressions)]
pub fn walk_node(scene: Scene<'_>, id: NodeId, env: &mut Env, at: &mut Progress) -> Result<Ty, Stop>
    requires within { id.0 < length scene.prog.now.nodes }
    requires hand { IsWithin scene.uses.now scene.steps.now at.old }
    ensures hand { IsWithin scene.entry.uses.now scene.entry.steps.now at.new }
    ensures walks { Walks scene.entry.prog.now scene.entry.class.0
        (tree_at scene.entry.prog.now id.0) env.old scene.entry.uses.now scene.entry.steps.now at.old at.new (with_variables env.new result) }
{
    match scene.prog.node(id) {
        Node::Nil => pass(scene, id, Ty::Nil, at),
        Node::True => pass(scene, id, Ty::Bool, at),
        Node::False => pass(scene, id, Ty::Bool, at),
        Node::SelfRef => pass(scene, id, Ty::Class(scene.class), at),
        Node::Int(_) => pass(scene, id, Ty::Int, at),
        Node::Text(_) => pass(scene, id, Ty::Str, at),
        Node::Var(name) => conclude(scene, id, variable(env.get(name)), at),
        Node::New(class) => pass(scene, id, Ty::Class(class), at),
        Node::Assign(name, value) => walk_assign(scene, id, name, value, env, at),
        Node::Print(value) => walk_part(scene, id, value, Ty::Nil, env, at),
        Node::ToStr(value) => walk_part(scene, id, value, Ty::Str, env, at),
        Node::Not(value) => walk_part(scene, id, value, Ty::Bool, env, at),
        Node::Binary(op, left, right) => walk_binary(scene, id, op, left, right, env, at),
        Node::If(condition, then, other) => walk_if(scene, id, condition, then, other, env, at),
        Node::While(condition, turn) => walk_while(scene, id, condition, turn, env, at),
        Node::Call(receiver, name, args) => walk_call(
            scene,
            id,
            receiver,
            name,
            arguments(&args),
            env,
            at,
        ),
        Node::Def(method, _) => walk_method(scene, id, method, Ty::Nil, env, at),
        Node::Declare(method, _, asks) => walk_method(scene, id, method, declared(asks), env, at),
        Node::Block(_, _) => walk_items(scene, id, env, at),
    }
}

#[cycle(expressions)]
fn walk_assign(
    scene: Scene<'_>,
    id: NodeId,
    name: NameId,
    value: NodeId,
    env: &mut Env,
    at: &mut Progress,
) -> Result<Ty, Stop>
    requires within { id.0 < length scene.prog.now.nodes }
    requires below { value.0 < id.0 }
    requires hand { IsWithin scene.uses.now scene.steps.now at.old }
    ensures hand { IsWithin scene.entry.uses.now scene.entry.steps.now at.new }
    ensures walks { Walks scene.entry.prog.now scene.entry.class.0
        (TAssign id.0 name.0 (tree_at scene.entry.prog.now value.0)) env.old scene.entry.uses.now scene.entry.steps.now at.old at.new (with_variables env.new result) }
{
    let ty = walk_node(scene, value, env, at)?;
    env.set(name, ty)?;
    pass(scene, id, ty, at)
}

// An expression of this type that has one part of any type.
#[cycle(expressions)]
fn walk_part(
    scene: Scene<'_>,
    id: NodeId,
    part: NodeId,
    ty: Ty,
    env: &mut Env,
    at: &mut Progress,
) -> Result<Ty, Stop>
    requires within { id.0 < length scene.prog.now.nodes }
    requires below { part.0 < id.0 }
    requires hand { IsWithin scene.uses.now scene.steps.now at.old }
    ensures hand { IsWithin scene.entry.uses.now scene.entry.steps.now at.new }
    ensures walks { WalksPart scene.entry.prog.now scene.entry.class.0 id.0
        (tree_at scene.entry.prog.now part.0) ty env.old scene.entry.uses.now scene.entry.steps.now at.old at.new (with_variables env.new result) }
{
    walk_node(scene, part, env, at)?;
    pass(scene, id, ty, at)
}

#[cycle(expressions)]
fn walk_binary(
    scene: Scene<'_>,
    id: NodeId,
    op: Op,
    left: NodeId,
    right: NodeId,
    env: &mut Env,
    at: &mut Progress,
) -> Result<Ty, Stop>
    requires within { id.0 < length scene.prog.now.nodes }
    requires left { left.0 < id.0 }
    requires right { right.0 < id.0 }
    requires hand { IsWithin scene.uses.now scene.steps.now at.old }
    ensures hand { IsWithin scene.entry.uses.now scene.entry.steps.now at.new }
    ensures walks { Walks scene.entry.prog.now scene.entry.class.0
        (TBinary id.0 op (tree_at scene.entry.prog.now left.0)
        (tree_at scene.entry.prog.now right.0)) env.old scene.entry.uses.now scene.entry.steps.now at.old at.new (with_variables env.new result) }
{
    let left = walk_node(scene, left, env, at)?;
    let right = walk_node(scene, right, env, at)?;
    conclude(scene, id, operands(op, left, right), at)
}

#[cycle(expressions)]
fn walk_if(
    scene: Scene<'_>,
    id: NodeId,
    condition: NodeId,
    then: NodeId,
    other: NodeId,
    env: &mut Env,
    at: &mut Progress,
) -> Result<Ty, Stop>
    requires within { id.0 < length scene.prog.now.nodes }
    requires condition { condition.0 < id.0 }
    requires then { then.0 < id.0 }
    requires other { other.0 < id.0 }
    requires hand { IsWithin scene.uses.now scene.steps.now at.old }
    ensures hand { IsWithin scene.entry.uses.now scene.entry.steps.now at.new }
    ensures walks { Walks scene.entry.prog.now scene.entry.class.0
        (TIf id.0 (tree_at scene.entry.prog.now condition.0) (tree_at scene.entry.prog.now then.0)
        (tree_at scene.entry.prog.now other.0)) env.old scene.entry.uses.now scene.entry.steps.now at.old at.new (with_variables env.new result) }
{
    walk_node(scene, condition, env, at)?;
    let mut other_env = env.copied();
    let then = walk_node(scene, then, env, at)?;
    let other = walk_node(scene, other, &mut other_env, at)?;
    *env = env.join(&other_env);
    pass(scene, id, join(then, other), at)
}

#[cycle(expressions)]
fn walk_while(
    scene: Scene<'_>,
    id: NodeId,
    condition: NodeId,
    turn: NodeId,
    env: &mut Env,
    at: &mut Progress,
) -> Result<Ty, Stop>
    requires within { id.0 < length scene.prog.now.nodes }
    requires condition { condition.0 < id.0 }
    requires turn { turn.0 < id.0 }
    requires hand { IsWithin scene.uses.now scene.steps.now at.old }
    ensures hand { IsWithin scene.entry.uses.now scene.entry.steps.now at.new }
    ensures walks { Walks scene.entry.prog.now scene.entry.class.0
        (TWhile id.0 (tree_at scene.entry.prog.now condition.0)
        (tree_at scene.entry.prog.now turn.0)) env.old scene.entry.uses.now scene.entry.steps.now at.old at.new (with_variables env.new result) }
{
    let before = env.copied();
    walk_node(scene, condition, env, at)?;
    let behind_condition = env.copied();
    walk_node(scene, turn, env, at)?;
    let keeps = before.keeps(env);
    *env = behind_condition;
    conclude(scene, id, looped(keeps), at)
}

#[cycle(expressions)]
fn walk_call(
    scene: Scene<'_>,
    id: NodeId,
    receiver: NodeId,
    name: NameId,
    args: &[NodeId],
    env: &mut Env,
    at: &mut Progress,
) -> Result<Ty, Stop>
    requires within { id.0 < length scene.prog.now.nodes }
    requires receiver { receiver.0 < id.0 }
    requires args { All (λ i. i.0 < id.0) args.now }
    requires few { length args.now ≤ ARGUMENTS_MAX }
    requires hand { IsWithin scene.uses.now scene.steps.now at.old }
    ensures hand { IsWithin scene.entry.uses.now scene.entry.steps.now at.new }
    ensures walks { Walks scene.entry.prog.now scene.entry.class.0
        (TCall id.0 (tree_at scene.entry.prog.now receiver.0) name.0
        (forest_at (tree_at scene.entry.prog.now) args.now)) env.old scene.entry.uses.now scene.entry.steps.now at.old at.new (with_variables env.new result) }
{
    let receiver = walk_node(scene, receiver, env, at)?;
    let types = walk_args(scene, id, args, env, at)?;
    conclude_call(scene, id, receiver, name, types.as_slice(), at)
}

// The types of a call's arguments.
#[cycle(expressions)]
fn walk_args(
    scene: Scene<'_>,
    id: NodeId,
    args: &[NodeId],
    env: &mut Env,
    at: &mut Progress,
) -> Result<ArrayVec<Ty, ARGUMENTS_MAX>, Stop>
    requires within { id.0 < length scene.prog.now.nodes }
    requires args { All (λ i. i.0 < id.0) args.now }
    requires few { length args.now ≤ ARGUMENTS_MAX }
    requires hand { IsWithin scene.uses.now scene.steps.now at.old }
    ensures hand { IsWithin scene.entry.uses.now scene.entry.steps.now at.new }
    ensures walks { WalksArgs scene.entry.prog.now scene.entry.class.0
        (forest_at (tree_at scene.entry.prog.now) args.now) env.old [] scene.entry.uses.now scene.entry.steps.now at.old at.new
        (with_list (λ types. types.items) env.new result) }
{
    let mut types = ArrayVec::new();
    for arg in args {
        types.push(walk_node(scene, *arg, env, at)?);
    }
    Ok(types)
}

// A definition or a declaration, which has this type where its method's name is one.
#[cycle(expressions)]
fn walk_method(
    scene: Scene<'_>,
    id: NodeId,
    method: Method,
    ty: Ty,
    env: &mut Env,
    at: &mut Progress,
) -> Result<Ty, Stop>
    requires within { id.0 < length scene.prog.now.nodes }
    requires below { AllByRecursion (λ j. j < id.0) (name_parts method) }
    requires hand { IsWithin scene.uses.now scene.steps.now at.old }
    ensures hand { IsWithin scene.entry.uses.now scene.entry.steps.now at.new }
    ensures walks { WalksMethod scene.entry.prog.now scene.entry.class.0 id.0 method ty env.old scene.entry.uses.now scene.entry.steps.now at.old at.new
        (with_variables env.new result) }
{
    match method {
        Method::Named(_, _) => pass(scene, id, ty, at),
        Method::Computed(_, name) => {
            let name = walk_node(scene, name, env, at)?;
            conclude(scene, id, named(name, ty), at)
        }
    }
}

// The items of a block.
#[cycle(expressions)]
fn walk_items(scene: Scene<'_>, block: NodeId, env: &mut Env, at: &mut Progress) -> Result<Ty, Stop>
    requires block { IsBlockAt scene.prog.now block.0 }
    requires hand { IsWithin scene.uses.now scene.steps.now at.old }
    ensures hand { IsWithin scene.entry.uses.now scene.entry.steps.now at.new }
    ensures walks { Walks scene.entry.prog.now scene.entry.class.0
        (tree_at scene.entry.prog.now block.0) env.old scene.entry.uses.now scene.entry.steps.now at.old at.new (with_variables env.new result) }
{
    let mut last = Ty::Nil;
    for item in scene.prog.items(block) {
        last = walk_node(scene, *item, env, at)?;
    }
    Ok(last)
}
