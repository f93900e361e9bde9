//! The maps of an index: from a place or a spelling to the first of a program's parts that has it.
//! Each is filled from the last part to the first, so that the first one stays.

ghost use Rattle.std.specs.Prelude.{◌≡◌, ◌&&◌, IfOk, OnOk};
ghost use Rattle.hb_tree.specs.Nodes.{place_at};
ghost use Rattle.hb_deriv_text.specs.Reading.{is_expr};
ghost use Rattle.hb_deriv_text.specs.Finds.{FindsExpressions, FindsBodies, FindsTypes, FindsWords};
ghost use Rattle.hb_deriv_text.specs.Written.{HasSmallPlaces};

use hb_tree::node::Node;
use hb_tree::program::Program;
use hb_types::ids::{BodySite, ClassId, NameId, NodeId, TypeSite};
use indexmap::IndexMap;
use std::alloc::{AllocError, Global};

/// What stands at a line and a column.
pub type Places<T> = IndexMap<(u32, u32), T>;

/// What a spelling names.
pub type Spellings<'a, T> = IndexMap<&'a [u8], T>;

/// The expressions by their places.
pub fn expressions(alloc: Global, prog: &Program) -> Result<Places<NodeId>, AllocError>
    ensures first { IfOk result (FindsExpressions prog.now 0) }
    ensures small { OnOk result (HasSmallPlaces prog.now) }
{
    let mut found = IndexMap::new(alloc);
    for i in (0..prog.nodes()).rev() {
        let node = NodeId(i as u16);
        let place = prog.place(node);
        if is_expression(prog.node(node)) {
            found.insert(place, node)?;
        }
    }
    Ok(found)
}

fn is_expression(node: Node) -> bool
    ensures { result ≡ is_expr node }
{
    !matches!(node, Node::Block(_, _))
}

/// The bodies by the places of their definitions.
pub fn bodies(alloc: Global, prog: &Program) -> Result<Places<BodySite>, AllocError>
    ensures { IfOk result (FindsBodies prog.now 0) }
{
    let mut found = IndexMap::new(alloc);
    for i in (0..prog.bodies()).rev() {
        let site = BodySite(i as u16);
        if let Some(place) = place_of(prog, prog.body(site).def) {
            found.insert(place, site)?;
        }
    }
    Ok(found)
}

/// The types by the places of what declares them.
pub fn types(alloc: Global, prog: &Program) -> Result<Places<TypeSite>, AllocError>
    ensures { IfOk result (FindsTypes prog.now 0) }
{
    let mut found = IndexMap::new(alloc);
    for i in (0..prog.types()).rev() {
        let site = TypeSite(i as u16);
        if let Some(place) = place_of(prog, prog.type_node(site)) {
            found.insert(place, site)?;
        }
    }
    Ok(found)
}

// The place of a node, where there is one.
fn place_of(prog: &Program, node: NodeId) -> Option<(u32, u32)>
    ensures { result ≡ place_at prog.now node.0 }
{
    if (node.0 as usize) < prog.nodes() {
        Some(prog.place(node))
    } else {
        None
    }
}

/// The classes by their names.
pub fn classes(alloc: Global, prog: &Program) -> Result<Spellings<'_, ClassId>, AllocError>
    ensures { IfOk result (FindsWords (λ w. w.now) (λ c. c.0) prog.now.classes 0) }
{
    let mut found = IndexMap::new(alloc);
    for i in (0..prog.classes()).rev() {
        let class = ClassId(i as u8);
        found.insert(prog.class_name(class), class)?;
    }
    Ok(found)
}

/// The names by their spellings.
pub fn names(alloc: Global, prog: &Program) -> Result<Spellings<'_, NameId>, AllocError>
    ensures { IfOk result (FindsWords (λ w. w.now) (λ x. x.0) prog.now.names 0) }
{
    let mut found = IndexMap::new(alloc);
    // A program has fewer than 2 ^ 32 names.
    let _nodes = prog.nodes();
    for i in (0..prog.names()).rev() {
        let name = NameId(i as u32);
        found.insert(prog.name(name), name)?;
    }
    Ok(found)
}
