//! A program: its nodes, and what they name.

ghost use Rattle.std.specs.Prelude.{◌≡◌, ◌<◌, ◌+◌, ◌≤◌, length, slice_get, slice_range, All, IfSome};
ghost use Rattle.std.specs.Option.{option_map};
ghost use Rattle.hb_tree.specs.Spelling.{IsName, IsClassName, IsText};
ghost use Rattle.hb_tree.specs.Tree.{TBlock};
ghost use Rattle.hb_tree.specs.Nodes.{node_at, place_at, AllParts};
ghost use Rattle.hb_tree.specs.TreeAt.{forest_at, tree_of, tree_at, IsExprAt, IsBlockAt, HasKinds};
ghost use Rattle.hb_tree.specs.Table.{table_of};
ghost use Rattle.hb_tree.specs.Program.{IsProgram, HasPlaces, IsKnownIn, IsBodyIn, IsMethodTyIn, IsRootIn, IsScriptIn};

use crate::limits::{CLASSES_MAX, NODES_MAX, SCRIPTS_MAX, TYPES_MAX};
use crate::node::Node;
use crate::parts::{Body, ProgramParts};
use hb_types::ids::{BodySite, ClassId, NameId, NodeId, TextId, TypeSite};
use hb_types::types::MethodTy;
use std::marker::Model;

/// A program. Contracts see its table, and a node of it as a tree.
#[derive(Debug, Drop)]
pub struct Program {
    parts: ProgramParts,
}

impl Model for Program {
    ghost use Rattle.hb_tree.specs.Table.{Table};

    ghost Value = { Table };

    ghost use Rattle.hb_tree.specs.Table.{table_of};
    ghost use Rattle.hb_tree.specs.Program.{IsProgram};

    ghost view = { λ p. table_of p.parts };

    ghost invariant = { λ p. IsProgram (table_of p.parts) };
}

impl Program {
    /// The program of these parts. It takes no memory. `IsProgram` has what the parts must meet.
    pub fn make(parts: ProgramParts) -> Program
        requires { IsProgram (table_of parts) }
        ensures { result ≡ table_of parts }
    {
        Program { parts }
    }

    /// How many nodes there are.
    pub fn nodes(&self) -> usize
        ensures count { result ≡ length self.now.nodes }
        ensures program { IsProgram self.now }
    {
        self.parts.nodes.len()
    }

    /// How many classes there are.
    pub fn classes(&self) -> usize
        ensures count { result ≡ length self.now.classes }
        ensures few { result ≤ CLASSES_MAX }
    {
        self.parts.classes.len()
    }

    /// How many different names there are.
    pub fn names(&self) -> usize
        ensures { result ≡ length self.now.names }
    {
        self.parts.names.len()
    }

    /// How many `def`s there are.
    pub fn bodies(&self) -> usize
        ensures count { result ≡ length self.now.bodies }
        ensures few { result ≤ NODES_MAX }
    {
        self.parts.bodies.len()
    }

    /// How many `type`s and `type?`s there are.
    pub fn types(&self) -> usize
        ensures count { result ≡ length self.now.types }
        ensures few { result ≤ TYPES_MAX }
    {
        self.parts.types.len()
    }

    /// How many scripts there are.
    pub fn scripts(&self) -> usize
        ensures count { result ≡ length self.now.scripts }
        ensures few { result ≤ SCRIPTS_MAX }
    {
        self.parts.scripts.len()
    }

    /// A node. Contracts see it as a tree.
    pub fn node(&self, id: NodeId) -> Node
        requires { id.0 < length self.now.nodes }
        ensures value { node_at self.now id.0 ≡ Some result }
        ensures places { HasPlaces self.now result }
        ensures tree { tree_at self.now id.0 ≡ tree_of self.now (tree_at self.now) id.0 result }
        ensures parts { AllParts (λ j. j < id.0) self.now result }
        ensures kinds { HasKinds self.now result }
        ensures known { IsKnownIn self.now id.0 result }
    {
        self.parts.nodes[id.0 as usize].node
    }

    /// The line and the column of a node's own token, both from 1. The column counts bytes.
    pub fn place(&self, id: NodeId) -> (u32, u32)
        requires { id.0 < length self.now.nodes }
        ensures { place_at self.now id.0 ≡ Some result }
    {
        let placed = self.parts.nodes[id.0 as usize];
        (placed.line, placed.column)
    }

    /// The items of a block.
    pub fn items(&self, block: NodeId) -> &[NodeId]
        requires { IsBlockAt self.now block.0 }
        ensures tree { tree_at self.now block.0 ≡ TBlock block.0 (forest_at (tree_at self.now) result.now) }
        ensures below { All (λ i. i.0 < block.0) result.now }
        ensures exprs { All (λ i. IsExprAt self.now i.0) result.now }
    {
        match self.parts.nodes[block.0 as usize].node {
            Node::Block(first, count) => items_from(&self.parts.items, first, count),
            _ => unreachable!(),
        }
    }

    /// What a `def` gives to its method.
    pub fn body(&self, site: BodySite) -> Body
        requires { site.0 < length self.now.bodies }
        ensures value { slice_get self.now.bodies site.0 ≡ Some result }
        ensures meets { IsBodyIn self.now site.0 result }
        ensures block { IsBlockAt self.now result.block.0 }
    {
        self.parts.bodies[site.0 as usize]
    }

    /// The type that a `type` or `type?` gives to its method.
    pub fn type_of(&self, site: TypeSite) -> MethodTy
        requires { site.0 < length self.now.types }
        ensures value { option_map (λ y. y.0) (slice_get self.now.types site.0) ≡ Some result }
        ensures meets { IsMethodTyIn self.now result }
    {
        self.parts.types[site.0 as usize].0
    }

    /// The `type` or `type?` itself.
    pub fn type_node(&self, site: TypeSite) -> NodeId
        requires { site.0 < length self.now.types }
        ensures value { option_map (λ y. y.1) (slice_get self.now.types site.0) ≡ Some result }
        ensures expr { IsExprAt self.now result.0 }
    {
        self.parts.types[site.0 as usize].1
    }

    /// The name of a class.
    pub fn class_name(&self, class: ClassId) -> &[u8]
        requires { class.0 < length self.now.classes }
        ensures value { slice_get self.now.classes class.0 ≡ Some result.now }
        ensures spelled { IsClassName result.now }
    {
        &self.parts.classes[class.0 as usize]
    }

    /// The bytes of a name.
    pub fn name(&self, name: NameId) -> &[u8]
        requires { name.0 < length self.now.names }
        ensures value { slice_get self.now.names name.0 ≡ Some result.now }
        ensures spelled { IsName result.now }
    {
        &self.parts.names[name.0 as usize]
    }

    /// The value of a text literal.
    pub fn text(&self, text: TextId) -> &[u8]
        requires { text.0 < length self.now.texts }
        ensures value { slice_get self.now.texts text.0 ≡ Some result.now }
        ensures spelled { IsText result.now }
    {
        &self.parts.texts[text.0 as usize]
    }

    /// The setup's block, where there is a setup.
    pub fn setup(&self) -> Option<NodeId>
        ensures value { result ≡ self.now.setup }
        ensures meets { IfSome result (IsRootIn self.now) }
        ensures block { IfSome result (λ block. IsBlockAt self.now block.0) }
    {
        self.parts.setup
    }

    /// The name and the block of a script, by its place in the text.
    pub fn script(&self, i: usize) -> (NameId, NodeId)
        requires { i < length self.now.scripts }
        ensures value { slice_get self.now.scripts i ≡ Some result }
        ensures meets { IsScriptIn self.now result }
        ensures block { IsBlockAt self.now result.1.0 }
    {
        self.parts.scripts[i]
    }
}

// The items from a place on.
fn items_from(items: &[NodeId], first: u32, count: u32) -> &[NodeId]
    requires { first + count ≤ length items.now }
    ensures { result.now ≡ slice_range items.now first (first + count) }
{
    let from = first as usize;
    &items[from..from + count as usize]
}
