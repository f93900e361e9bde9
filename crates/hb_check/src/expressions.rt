//! The check of expressions and blocks, by the numbers of their nodes.

ghost use Rattle.std.specs.Prelude.{◌≡◌, ◌<◌, ◌≤◌, [], All, length};
ghost use Rattle.std.specs.List.{AllByRecursion};
ghost use Rattle.hb_tree.specs.Nodes.{name_parts};
ghost use Rattle.hb_tree.specs.Tree.{TAssign, TBinary, TIf, TWhile, TCall};
ghost use Rattle.hb_tree.specs.TreeAt.{forest_at, tree_at, IsBlockAt};
ghost use Rattle.hb_check.specs.Asked.{MayAsk};
ghost use Rattle.hb_check.specs.Checked.{Checks, ChecksArgs, ChecksMethod, ChecksPart};
ghost use Rattle.hb_check.specs.Runs.{state, with_list, with_variables};

use crate::looking::method_of;
use crate::lookup::Lookup;
use crate::notes::{Notes, Stop};
use crate::rules::{declared, fitting, looped, named, operands, variable};
use arrayvec::ArrayVec;
use hb_tree::limits::ARGUMENTS_MAX;
use hb_tree::node::{Method, Node, Op, arguments};
use hb_tree::program::Program;
use hb_types::env::Env;
use hb_types::ids::{ClassId, NameId, NodeId};
use hb_types::types::{Ty, join};
use std::alloc::Global;

/// What stays the same all through the check of a body.
#[derive(Clone, Copy)]
pub struct Scene<'a> {
    pub alloc: Global,
    pub prog: &'a Program,
    /// The class of `self`.
    pub class: ClassId,
}

/// The type of an expression or a block. The variables become those behind it.
#[cycle(expressions)]
pub fn check_node<L: Lookup>(
    scene: Scene<'_>,
    id: NodeId,
    env: &mut Env,
    notes: &mut Notes,
    look: &mut L,
) -> Result<Ty, Stop>
    requires within { id.0 < length scene.prog.now.nodes }
    requires ready { MayAsk (L.ready look.old) (L.names look.old) scene.prog.now }
    ensures ready { MayAsk (L.ready look.new) (L.names look.new) scene.entry.prog.now }
    ensures alike { L.alike look.old look.new }
    ensures checks { Checks scene.entry.prog.now scene.entry.class.0 (tree_at scene.entry.prog.now id.0) env.old
        (state (L.answers look.old) (L.refused look.old) notes.old)
        (state (L.answers look.new) (L.refused look.new) notes.new) (with_variables env.new result) }
{
    match scene.prog.node(id) {
        Node::Nil => notes.finish(id, Ty::Nil),
        Node::True => notes.finish(id, Ty::Bool),
        Node::False => notes.finish(id, Ty::Bool),
        Node::SelfRef => notes.finish(id, Ty::Class(scene.class)),
        Node::Int(_) => notes.finish(id, Ty::Int),
        Node::Text(_) => notes.finish(id, Ty::Str),
        Node::Var(name) => notes.conclude(id, variable(env.get(name))),
        Node::New(class) => notes.finish(id, Ty::Class(class)),
        Node::Assign(name, value) => check_assign(scene, id, name, value, env, notes, look),
        Node::Print(value) => check_part(scene, id, value, Ty::Nil, env, notes, look),
        Node::ToStr(value) => check_part(scene, id, value, Ty::Str, env, notes, look),
        Node::Not(value) => check_part(scene, id, value, Ty::Bool, env, notes, look),
        Node::Binary(op, left, right) => check_binary(scene, id, op, left, right, env, notes, look),
        Node::If(condition, then, other) => check_if(
            scene, id, condition, then, other, env, notes, look,
        ),
        Node::While(condition, turn) => check_while(scene, id, condition, turn, env, notes, look),
        Node::Call(receiver, name, args) => check_call(
            scene,
            id,
            receiver,
            name,
            arguments(&args),
            env,
            notes,
            look,
        ),
        Node::Def(method, _) => check_method(scene, id, method, Ty::Nil, env, notes, look),
        Node::Declare(method, _, asks) => check_method(
            scene,
            id,
            method,
            declared(asks),
            env,
            notes,
            look,
        ),
        Node::Block(_, _) => check_items(scene, id, env, notes, look),
    }
}

#[cycle(expressions)]
fn check_assign<L: Lookup>(
    scene: Scene<'_>,
    id: NodeId,
    name: NameId,
    value: NodeId,
    env: &mut Env,
    notes: &mut Notes,
    look: &mut L,
) -> Result<Ty, Stop>
    requires within { id.0 < length scene.prog.now.nodes }
    requires below { value.0 < id.0 }
    requires ready { MayAsk (L.ready look.old) (L.names look.old) scene.prog.now }
    ensures ready { MayAsk (L.ready look.new) (L.names look.new) scene.entry.prog.now }
    ensures alike { L.alike look.old look.new }
    ensures checks { Checks scene.entry.prog.now scene.entry.class.0 (TAssign id.0 name.0 (tree_at scene.entry.prog.now value.0)) env.old
        (state (L.answers look.old) (L.refused look.old) notes.old)
        (state (L.answers look.new) (L.refused look.new) notes.new) (with_variables env.new result) }
{
    let ty = check_node(scene, value, env, notes, look)?;
    env.set(name, ty)?;
    notes.finish(id, ty)
}

// An expression of this type that has one part of any type.
#[cycle(expressions)]
fn check_part<L: Lookup>(
    scene: Scene<'_>,
    id: NodeId,
    part: NodeId,
    ty: Ty,
    env: &mut Env,
    notes: &mut Notes,
    look: &mut L,
) -> Result<Ty, Stop>
    requires within { id.0 < length scene.prog.now.nodes }
    requires below { part.0 < id.0 }
    requires ready { MayAsk (L.ready look.old) (L.names look.old) scene.prog.now }
    ensures ready { MayAsk (L.ready look.new) (L.names look.new) scene.entry.prog.now }
    ensures alike { L.alike look.old look.new }
    ensures checks { ChecksPart scene.entry.prog.now scene.entry.class.0 id.0 (tree_at scene.entry.prog.now part.0) ty env.old
        (state (L.answers look.old) (L.refused look.old) notes.old)
        (state (L.answers look.new) (L.refused look.new) notes.new) (with_variables env.new result) }
{
    check_node(scene, part, env, notes, look)?;
    notes.finish(id, ty)
}

#[cycle(expressions)]
fn check_binary<L: Lookup>(
    scene: Scene<'_>,
    id: NodeId,
    op: Op,
    left: NodeId,
    right: NodeId,
    env: &mut Env,
    notes: &mut Notes,
    look: &mut L,
) -> Result<Ty, Stop>
    requires within { id.0 < length scene.prog.now.nodes }
    requires left { left.0 < id.0 }
    requires right { right.0 < id.0 }
    requires ready { MayAsk (L.ready look.old) (L.names look.old) scene.prog.now }
    ensures ready { MayAsk (L.ready look.new) (L.names look.new) scene.entry.prog.now }
    ensures alike { L.alike look.old look.new }
    ensures checks { Checks scene.entry.prog.now scene.entry.class.0
        (TBinary id.0 op (tree_at scene.entry.prog.now left.0) (tree_at scene.entry.prog.now right.0)) env.old
        (state (L.answers look.old) (L.refused look.old) notes.old)
        (state (L.answers look.new) (L.refused look.new) notes.new) (with_variables env.new result) }
{
    let left = check_node(scene, left, env, notes, look)?;
    let right = check_node(scene, right, env, notes, look)?;
    notes.conclude(id, operands(op, left, right))
}

#[cycle(expressions)]
fn check_if<L: Lookup>(
    scene: Scene<'_>,
    id: NodeId,
    condition: NodeId,
    then: NodeId,
    other: NodeId,
    env: &mut Env,
    notes: &mut Notes,
    look: &mut L,
) -> Result<Ty, Stop>
    requires within { id.0 < length scene.prog.now.nodes }
    requires condition { condition.0 < id.0 }
    requires then { then.0 < id.0 }
    requires other { other.0 < id.0 }
    requires ready { MayAsk (L.ready look.old) (L.names look.old) scene.prog.now }
    ensures ready { MayAsk (L.ready look.new) (L.names look.new) scene.entry.prog.now }
    ensures alike { L.alike look.old look.new }
    ensures checks { Checks scene.entry.prog.now scene.entry.class.0
        (TIf id.0 (tree_at scene.entry.prog.now condition.0) (tree_at scene.entry.prog.now then.0) (tree_at scene.entry.prog.now other.0)) env.old
        (state (L.answers look.old) (L.refused look.old) notes.old)
        (state (L.answers look.new) (L.refused look.new) notes.new) (with_variables env.new result) }
{
    check_node(scene, condition, env, notes, look)?;
    let mut other_env = env.copied();
    let then = check_node(scene, then, env, notes, look)?;
    let other = check_node(scene, other, &mut other_env, notes, look)?;
    *env = env.join(&other_env);
    notes.finish(id, join(then, other))
}

#[cycle(expressions)]
fn check_while<L: Lookup>(
    scene: Scene<'_>,
    id: NodeId,
    condition: NodeId,
    turn: NodeId,
    env: &mut Env,
    notes: &mut Notes,
    look: &mut L,
) -> Result<Ty, Stop>
    requires within { id.0 < length scene.prog.now.nodes }
    requires condition { condition.0 < id.0 }
    requires turn { turn.0 < id.0 }
    requires ready { MayAsk (L.ready look.old) (L.names look.old) scene.prog.now }
    ensures ready { MayAsk (L.ready look.new) (L.names look.new) scene.entry.prog.now }
    ensures alike { L.alike look.old look.new }
    ensures checks { Checks scene.entry.prog.now scene.entry.class.0
        (TWhile id.0 (tree_at scene.entry.prog.now condition.0) (tree_at scene.entry.prog.now turn.0)) env.old
        (state (L.answers look.old) (L.refused look.old) notes.old)
        (state (L.answers look.new) (L.refused look.new) notes.new) (with_variables env.new result) }
{
    let before = env.copied();
    check_node(scene, condition, env, notes, look)?;
    let behind_condition = env.copied();
    check_node(scene, turn, env, notes, look)?;
    let keeps = before.keeps(env);
    *env = behind_condition;
    notes.conclude(id, looped(keeps))
}

#[cycle(expressions)]
fn check_call<L: Lookup>(
    scene: Scene<'_>,
    id: NodeId,
    receiver: NodeId,
    name: NameId,
    args: &[NodeId],
    env: &mut Env,
    notes: &mut Notes,
    look: &mut L,
) -> Result<Ty, Stop>
    requires within { id.0 < length scene.prog.now.nodes }
    requires receiver { receiver.0 < id.0 }
    requires name { name.0 < length scene.prog.now.names }
    requires args { All (λ i. i.0 < id.0) args.now }
    requires few { length args.now ≤ ARGUMENTS_MAX }
    requires ready { MayAsk (L.ready look.old) (L.names look.old) scene.prog.now }
    ensures ready { MayAsk (L.ready look.new) (L.names look.new) scene.entry.prog.now }
    ensures alike { L.alike look.old look.new }
    ensures checks { Checks scene.entry.prog.now scene.entry.class.0
        (TCall id.0 (tree_at scene.entry.prog.now receiver.0) name.0 (forest_at (tree_at scene.entry.prog.now) args.now)) env.old
        (state (L.answers look.old) (L.refused look.old) notes.old)
        (state (L.answers look.new) (L.refused look.new) notes.new) (with_variables env.new result) }
{
    let receiver = check_node(scene, receiver, env, notes, look)?;
    let types = check_args(scene, id, args, env, notes, look)?;
    let method = method_of(scene.alloc, scene.prog, id, receiver, name, notes, look)?;
    notes.conclude(id, fitting(types.as_slice(), &method))
}

// The types of a call's arguments.
#[cycle(expressions)]
fn check_args<L: Lookup>(
    scene: Scene<'_>,
    id: NodeId,
    args: &[NodeId],
    env: &mut Env,
    notes: &mut Notes,
    look: &mut L,
) -> Result<ArrayVec<Ty, ARGUMENTS_MAX>, Stop>
    requires within { id.0 < length scene.prog.now.nodes }
    requires args { All (λ i. i.0 < id.0) args.now }
    requires few { length args.now ≤ ARGUMENTS_MAX }
    requires ready { MayAsk (L.ready look.old) (L.names look.old) scene.prog.now }
    ensures ready { MayAsk (L.ready look.new) (L.names look.new) scene.entry.prog.now }
    ensures alike { L.alike look.old look.new }
    ensures checks { ChecksArgs scene.entry.prog.now scene.entry.class.0 (forest_at (tree_at scene.entry.prog.now) args.now) env.old []
        (state (L.answers look.old) (L.refused look.old) notes.old)
        (state (L.answers look.new) (L.refused look.new) notes.new) (with_list (λ types. types.items) env.new result) }
{
    let mut types = ArrayVec::new();
    for arg in args {
        types.push(check_node(scene, *arg, env, notes, look)?);
    }
    Ok(types)
}

// A definition or a declaration, which has this type where its method's name is one.
#[cycle(expressions)]
fn check_method<L: Lookup>(
    scene: Scene<'_>,
    id: NodeId,
    method: Method,
    ty: Ty,
    env: &mut Env,
    notes: &mut Notes,
    look: &mut L,
) -> Result<Ty, Stop>
    requires within { id.0 < length scene.prog.now.nodes }
    requires below { AllByRecursion (λ j. j < id.0) (name_parts method) }
    requires ready { MayAsk (L.ready look.old) (L.names look.old) scene.prog.now }
    ensures ready { MayAsk (L.ready look.new) (L.names look.new) scene.entry.prog.now }
    ensures alike { L.alike look.old look.new }
    ensures checks { ChecksMethod scene.entry.prog.now scene.entry.class.0 id.0 method ty env.old
        (state (L.answers look.old) (L.refused look.old) notes.old)
        (state (L.answers look.new) (L.refused look.new) notes.new) (with_variables env.new result) }
{
    match method {
        Method::Named(_, _) => notes.finish(id, ty),
        Method::Computed(_, name) => {
            let name = check_node(scene, name, env, notes, look)?;
            notes.conclude(id, named(name, ty))
        }
    }
}

// The items of a block.
#[cycle(expressions)]
fn check_items<L: Lookup>(
    scene: Scene<'_>,
    block: NodeId,
    env: &mut Env,
    notes: &mut Notes,
    look: &mut L,
) -> Result<Ty, Stop>
    requires block { IsBlockAt scene.prog.now block.0 }
    requires ready { MayAsk (L.ready look.old) (L.names look.old) scene.prog.now }
    ensures ready { MayAsk (L.ready look.new) (L.names look.new) scene.entry.prog.now }
    ensures alike { L.alike look.old look.new }
    ensures checks { Checks scene.entry.prog.now scene.entry.class.0 (tree_at scene.entry.prog.now block.0) env.old
        (state (L.answers look.old) (L.refused look.old) notes.old)
        (state (L.answers look.new) (L.refused look.new) notes.new) (with_variables env.new result) }
{
    let mut last = Ty::Nil;
    for item in scene.prog.items(block) {
        last = check_node(scene, *item, env, notes, look)?;
    }
    Ok(last)
}
