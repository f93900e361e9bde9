//! The types of the methods that a body calls.

ghost use Rattle.std.specs.Prelude.{◌≡◌, ◌<◌, [], ◌∷◌, None, length, IfOk};
ghost use Rattle.hb_types.specs.Types.{IsMethodTy};
ghost use Rattle.hb_types.specs.Variables.{Variables};
ghost use Rattle.hb_deriv.specs.Judge.{keys_of};
ghost use Rattle.hb_deriv.specs.Events.{Look, look_at};
ghost use Rattle.hb_deriv.specs.Programs.{sites_of};
ghost use Rattle.hb_check.specs.Asked.{MayAsk};
ghost use Rattle.hb_check.specs.Looking.{IsVerdict, method_of, site_among, with_type};
ghost use Rattle.hb_check.specs.Runs.{Runs, state, with_variables};

use crate::lookup::Lookup;
use crate::notes::{Notes, Stop};
use hb_deriv::ill::{Ill, Reason};
use hb_deriv::raw::Used;
use hb_tree::program::Program;
use hb_types::ids::{ClassId, NameId, NodeId, TypeSite};
use hb_types::types::{MethodTy, Ty};
use std::alloc::Global;

/// The type of the method that a call at this node means, by the type of its receiver.
pub fn method_of<L: Lookup>(
    alloc: Global,
    prog: &Program,
    node: NodeId,
    receiver: Ty,
    name: NameId,
    notes: &mut Notes,
    look: &mut L,
) -> Result<MethodTy, Stop>
    requires ready { MayAsk (L.ready look.old) (L.names look.old) prog.now }
    requires name { name.0 < length prog.now.names }
    ensures ready { MayAsk (L.ready look.new) (L.names look.new) prog.now }
    ensures alike { L.alike look.old look.new }
    ensures runs { (G : Variables) → Runs (sites_of prog.now)
        (λ types. method_of types node.0 name.0 G receiver) (λ types. look_at node.0 (keys_of receiver name.0)) [] G
        (state (L.answers look.old) (L.refused look.old) notes.old)
        (state (L.answers look.new) (L.refused look.new) notes.new) (with_variables G result) }
    ensures form { IfOk result IsMethodTy }
{
    match receiver {
        Ty::Class(class) => method_type(alloc, prog, node, class, name, notes, look),
        _ => Err(Stop::Ill(Ill {
            node,
            reason: Reason::Receiver,
        })),
    }
}

// The type of a method of a class, which is asked for at the first call of it.
fn method_type<L: Lookup>(
    alloc: Global,
    prog: &Program,
    node: NodeId,
    class: ClassId,
    name: NameId,
    notes: &mut Notes,
    look: &mut L,
) -> Result<MethodTy, Stop>
    requires ready { MayAsk (L.ready look.old) (L.names look.old) prog.now }
    requires name { name.0 < length prog.now.names }
    ensures ready { MayAsk (L.ready look.new) (L.names look.new) prog.now }
    ensures alike { L.alike look.old look.new }
    ensures runs { (G : Variables) → Runs (sites_of prog.now)
        (λ types. with_type node.0 G (types (class.0, name.0))) (λ types. Look node.0 (class.0, name.0) ∷ []) [] G
        (state (L.answers look.old) (L.refused look.old) notes.old)
        (state (L.answers look.new) (L.refused look.new) notes.new) (with_variables G result) }
    ensures form { IfOk result IsMethodTy }
{
    match notes.site_of(class, name) {
        Some(site) => declared(prog, node, site),
        None => ask(alloc, prog, node, class, name, notes, look),
    }
}

// The type of a method that was not asked for before.
fn ask<L: Lookup>(
    alloc: Global,
    prog: &Program,
    node: NodeId,
    class: ClassId,
    name: NameId,
    notes: &mut Notes,
    look: &mut L,
) -> Result<MethodTy, Stop>
    requires ready { MayAsk (L.ready look.old) (L.names look.old) prog.now }
    requires name { name.0 < length prog.now.names }
    ensures ready { MayAsk (L.ready look.new) (L.names look.new) prog.now }
    ensures alike { L.alike look.old look.new }
    ensures runs { site_among notes.old.uses.items (class.0, name.0) ≡ None → (G : Variables) → Runs (sites_of prog.now)
        (λ types. with_type node.0 G (types (class.0, name.0))) (λ types. Look node.0 (class.0, name.0) ∷ []) [] G
        (state (L.answers look.old) (L.refused look.old) notes.old)
        (state (L.answers look.new) (L.refused look.new) notes.new) (with_variables G result) }
    ensures form { IfOk result IsMethodTy }
{
    match look.type_of(alloc, class, name)? {
        None => Err(Stop::Ill(Ill {
            node,
            reason: Reason::NoType,
        })),
        Some(site) => {
            notes.uses.push(Used { class, name, site })?;
            declared(prog, node, site)
        }
    }
}

// The type at a site. A site that is none of the program's gives none.
fn declared(prog: &Program, node: NodeId, site: TypeSite) -> Result<MethodTy, Stop>
    ensures value { (G : Variables) → IsVerdict (with_type node.0 G (sites_of prog.now site.0)) (with_variables G result) }
    ensures form { IfOk result IsMethodTy }
{
    if (site.0 as usize) < prog.types() {
        Ok(prog.type_of(site))
    } else {
        Err(Stop::Ill(Ill {
            node,
            reason: Reason::NoType,
        }))
    }
}
