//! How a `def` or a `type` goes on.

ghost use Rattle.std.specs.Prelude.{◌≡◌, ◌+◌, ◌<◌, ◌^◌, ℕ, length, IfOk, OnOk, MatchResult, None, Some};
ghost use Rattle.std.specs.List.{AllByRecursion};
ghost use Rattle.hb_tree.specs.Table.{Table};
ghost use Rattle.hb_tree.specs.TreeAt.{IsExprAt, tree_at};
ghost use Rattle.hb_call.specs.Held.{stands};
ghost use Rattle.hb_call.specs.Growth.{Grown};
ghost use Rattle.hb_eval.specs.declared.cont.Cont.TheVariants as cont;
ghost use Rattle.hb_call.specs.OwnCache.{KeepsChecks};
ghost use Rattle.hb_eval.specs.Machine.{method_named};
ghost use Rattle.hb_eval.specs.Steps.{AreKnown, IsComputed, IsFine, IsPlain, Keeps, Still, weigh_push};
ghost use Rattle.hb_eval.specs.Tables.{ActsOn};
ghost use Rattle.hb_eval.specs.Staying.{Stays};
ghost use Rattle.hb_eval.specs.Naming.{IsNamed, StopsNamed};

use crate::methods::{declare, define};
use crate::moves::halt;
use crate::spelling::is_name;
use crate::state::{Move, State};
use crate::stop::Stop;
use crate::value::Value;
use hb_names::Names;
use hb_tables::desk::Desk;
use hb_tables::entry::BODIES_MAX;
use hb_tree::limits::TYPES_MAX;
use hb_tree::node::{Method, Node};
use hb_tree::program::Program;
use hb_types::ids::{BodySite, ClassId, NameId, NodeId, TypeSite};
use std::alloc::{AllocError, Global};
use std::mem;

/// The site of a `def`, which is below the greatest number.
#[inline(always)]
pub(crate) fn known_body(prog: &Program, site: BodySite) -> BodySite
    requires { site.0 < length prog.now.bodies }
    ensures same { result ≡ site }
    ensures few { result.0 < BODIES_MAX }
{
    let _count = prog.bodies();
    site
}

/// The site of a `type`, which is below the greatest number.
#[inline(always)]
pub(crate) fn known_type(prog: &Program, site: TypeSite) -> TypeSite
    requires { site.0 < length prog.now.types }
    ensures same { result ≡ site }
    ensures few { result.0 < TYPES_MAX }
{
    let _count = prog.types();
    site
}

// The bytes of a value that is the name of a method.
fn name_in(value: &Value) -> Result<&[u8], Stop>
    ensures { MatchResult result (λ bytes. IsNamed value.now bytes.now) (λ stop. StopsNamed value.now stop) }
{
    match value {
        Value::Str(text) => {
            if is_name(text.bytes()) {
                Ok(text.bytes())
            } else {
                Err(Stop::BadName)
            }
        }
        Value::Nil => Err(Stop::NilValue),
        _ => Err(Stop::BadOperand),
    }
}

// The computed name of a method is in hand.
fn method_computed<D: Desk, N: Names>(
    alloc: Global,
    prog: &Program,
    desk: &mut D,
    names: &mut N,
    id: NodeId,
    state: &mut State,
) -> Result<Move, AllocError>
    requires fine { IsExprAt prog.now id.0 × IsComputed (tree_at prog.now id.0) }
    ensures acts { IfOk result (λ m. ActsOn (N.known names.new) (D.fixed desk.old).caller (D.front desk.old) (D.front desk.new)
        (λ w s. method_named (record w { program = prog.now }) (tree_at prog.now id.0) state.old.acc s) state.old state.new m) }
    ensures keeps { (t : Table) → IfOk result (Keeps t None state.old state.new) }
    ensures known { (t : Table) → AreKnown t state.old → OnOk result (AreKnown t state.new) }
    ensures plain { IfOk result (λ m. IsPlain m.under × IsPlain m.push) }
    ensures light { IfOk result (λ m. weigh_push m.under < 1) }
    ensures still { Still state.old state.new }
    ensures stays { Stays (D.fixed desk.old) (D.fixed desk.new) (D.front desk.old) (D.front desk.new) (N.known names.old) (N.known names.new) }
    ensures others { (q : ℕ) → stands (D.fixed desk.old).caller q (D.front desk.new) ≡ stands (D.fixed desk.old).caller q (D.front desk.old) }
    ensures grown { (t : Table) → OnOk result (Grown t (D.fixed desk.old).caller (N.known names.new) (N.asked names.old) (N.asked names.new) (D.front desk.old) (D.front desk.new)) }
    ensures own { (t : Table) → OnOk result (KeepsChecks t (D.fixed desk.old).caller (N.known names.old) (N.known names.new) (N.asked names.old) (N.asked names.new) (D.front desk.old) (D.front desk.new) state.old.cache state.new.cache) }
    ensures alike { N.alike names.old names.new }
{
    let value = mem::replace(&mut state.acc, Value::Nil);
    match name_in(&value) {
        Err(stop) => Ok(halt(state, stop, id)),
        Ok(name) => match prog.node(id) {
            Node::Def(Method::Computed(class, _), site) => {
                let site = known_body(prog, site);
                define(alloc, desk, names, id, class, name, site, state)
            }
            Node::Declare(Method::Computed(class, _), site, asks) => {
                let site = known_type(prog, site);
                declare(alloc, desk, names, id, class, name, site, asks, state)
            }
            _ => unreachable!(),
        },
    }
}

/// A `def` or a `type` goes on, whose name is plain, or is in hand.
#[inline(never)]
pub(crate) fn method<D: Desk, N: Names>(
    alloc: Global,
    prog: &Program,
    desk: &mut D,
    names: &mut N,
    id: NodeId,
    state: &mut State,
) -> Result<Move, AllocError>
    requires fine { IsFine prog.now (cont.Method id) }
    ensures acts { IfOk result (λ m. ActsOn (N.known names.new) (D.fixed desk.old).caller (D.front desk.old) (D.front desk.new)
        (λ w s. method_named (record w { program = prog.now }) (tree_at prog.now id.0) state.old.acc s) state.old state.new m) }
    ensures keeps { (t : Table) → IfOk result (Keeps t None state.old state.new) }
    ensures known { (t : Table) → AreKnown t state.old → OnOk result (AreKnown t state.new) }
    ensures plain { IfOk result (λ m. IsPlain m.under × IsPlain m.push) }
    ensures light { IfOk result (λ m. weigh_push m.under < 1) }
    ensures still { Still state.old state.new }
    ensures stays { Stays (D.fixed desk.old) (D.fixed desk.new) (D.front desk.old) (D.front desk.new) (N.known names.old) (N.known names.new) }
    ensures others { (q : ℕ) → stands (D.fixed desk.old).caller q (D.front desk.new) ≡ stands (D.fixed desk.old).caller q (D.front desk.old) }
    ensures grown { (t : Table) → OnOk result (Grown t (D.fixed desk.old).caller (N.known names.new) (N.asked names.old) (N.asked names.new) (D.front desk.old) (D.front desk.new)) }
    ensures own { (t : Table) → OnOk result (KeepsChecks t (D.fixed desk.old).caller (N.known names.old) (N.known names.new) (N.asked names.old) (N.asked names.new) (D.front desk.old) (D.front desk.new) state.old.cache state.new.cache) }
    ensures alike { N.alike names.old names.new }
{
    match prog.node(id) {
        Node::Def(Method::Named(class, name), site) => {
            let site = known_body(prog, site);
            define(alloc, desk, names, id, class, prog.name(name), site, state)
        }
        Node::Declare(Method::Named(class, name), site, asks) => {
            let site = known_type(prog, site);
            declare(
                alloc,
                desk,
                names,
                id,
                class,
                prog.name(name),
                site,
                asks,
                state,
            )
        }
        Node::Def(Method::Computed(_, _), _) => {
            method_computed(alloc, prog, desk, names, id, state)
        }
        Node::Declare(Method::Computed(_, _), _, _) => {
            method_computed(alloc, prog, desk, names, id, state)
        }
        _ => unreachable!(),
    }
}
