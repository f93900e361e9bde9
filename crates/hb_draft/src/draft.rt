//! The program under construction.

ghost use Rattle.std.specs.Prelude.{◌≡◌, false, pos, ◌≤ℤ◌, ◌+◌, ◌-◌, ◌<◌, ◌≤◌, ◌^◌, [], ◌∷◌, ◌++◌, None, reverse, OnErr, List, length, map, slice_get, position, Some, bytes_eq, option_map, IfOk, OnOk, take};
ghost use Rattle.std.specs.List.{list_any};
ghost use Rattle.hb_tree.specs.Tree.{TNil, TSelf, TInt, TVar, TNew, TAssign, TPrint, TToStr, TNot};
ghost use Rattle.hb_tree.specs.Counts.{height};
ghost use Rattle.hb_tree.specs.Spelling.{IsClassName, IsName, IsText};
ghost use Rattle.hb_tree.specs.Program.{IsExprNode, IsMethodTyIn, IsProgram};
ghost use Rattle.hb_tree.specs.Roots.{IsReachedOnce};
ghost use Rattle.hb_draft.specs.Laid.{IsLaid};

use crate::pieces::{arg_list, body_of, last_of, placed, push_node};
use crate::words::Words;
use hb_tree::limits::{ARGUMENTS_MAX, CLASSES_MAX, NODES_MAX, SCRIPTS_MAX, TYPES_MAX};
use hb_tree::node::{Method, Node, Op, Placed};
use hb_tree::parts::{Body, ProgramParts};
use hb_tree::program::Program;
use hb_types::ids::{BodySite, ClassId, NameId, NodeId, TextId, TypeSite};
use hb_types::types::MethodTy;
use std::alloc::{AllocError, Global};
use std::marker::Model;

/// The lists of a program so far, and the trees in hand: those that are parts of none yet.
///
/// A tree is built from its parts: a call takes them from the hand, the last one first, and puts
/// the tree that it makes of them there in their stead. Contracts see the lists and the trees; the
/// numbers of nodes stay inside. A place is a line and a column, both from 1, the column in bytes.
///
/// Want of memory is the only error. The draft can then be dropped, and no more is said of it.
#[derive(Drop)]
pub struct Draft {
    alloc: Global,
    classes: Words,
    names: Words,
    texts: Words,
    nodes: Vec<Placed>,
    items: Vec<NodeId>,
    bodies: Vec<Body>,
    types: Vec<(MethodTy, NodeId)>,
    setup: Option<NodeId>,
    scripts: Vec<(NameId, NodeId)>,
    hand: Vec<NodeId>,
    // the heights of the trees in hand
    heights: Vec<u16>,
}

impl Model for Draft {
    ghost use Rattle.hb_draft.specs.Unfinished.{Unfinished};

    ghost Value = { Unfinished };

    ghost use Rattle.hb_draft.specs.Kept.{IsKept};

    ghost view = { λ d. record { table = record { classes = d.classes; names = d.names; texts = d.texts; nodes = d.nodes.items; items = d.items.items; bodies = d.bodies.items; types = d.types.items; setup = d.setup; scripts = d.scripts.items }; nodes = d.hand.items } };

    ghost invariant = { λ d. IsKept (record { classes = d.classes; names = d.names; texts = d.texts; nodes = d.nodes.items; items = d.items.items; bodies = d.bodies.items; types = d.types.items; setup = d.setup; scripts = d.scripts.items }) d.hand.items d.heights.items };
}

impl Draft {
    ghost use Rattle.hb_draft.specs.Put.{CanPut, PutsNode, last_nodes};
    ghost use Rattle.hb_draft.specs.Made.{made_of, made_nothing, word_number, boolean_tree, with_class, with_name, with_node, with_text, with_def, with_computed_def, with_declare, with_computed_declare, with_setup, with_script};
    ghost use Rattle.hb_draft.specs.Unfinished.{in_hand, AddsClass, AddsName, HasExprs, HasBlock, HasNameAndBlock, IsBodyBlock, IsRootBlock, AreParams, Puts, PutsText, PutsDef, PutsComputedDef, PutsDeclare, PutsComputedDeclare, AddsSetup, AddsScript, HasTurn, HasBranches, leaf_over, unary_over, binary_over, if_over, while_over, call_over, block_over};

    /// Nothing is declared yet, and nothing is in hand.
    pub fn new(alloc: Global) -> Draft
        ensures table { result.table ≡ record { classes = []; names = []; texts = []; nodes = []; items = []; bodies = []; types = []; setup = None; scripts = [] } }
        ensures hand { in_hand result ≡ [] }
        ensures made { made_of result ≡ made_nothing }
    {
        Draft {
            alloc,
            classes: Words::new(alloc),
            names: Words::new(alloc),
            texts: Words::new(alloc),
            nodes: Vec::new(alloc),
            items: Vec::new(alloc),
            bodies: Vec::new(alloc),
            types: Vec::new(alloc),
            setup: None,
            scripts: Vec::new(alloc),
            hand: Vec::new(alloc),
            heights: Vec::new(alloc),
        }
    }

    /// The class with this name, if it is declared.
    pub fn find_class(&self, name: &[u8]) -> Option<ClassId>
        ensures { option_map (λ c. c.0) result ≡ position (bytes_eq name.now) self.now.table.classes }
    {
        let i = self.classes.find(name)?;
        Some(ClassId(i as u8))
    }

    /// Declares one more class.
    pub fn class(&mut self, name: &[u8]) -> Result<ClassId, AllocError>
        requires word { IsClassName name.now }
        requires fresh { list_any (bytes_eq name.now) self.old.table.classes ≡ false }
        requires room { length self.old.table.classes < CLASSES_MAX }
        ensures class { OnOk result (AddsClass self.old self.new name.now) }
        ensures number { IfOk result (λ c. c.0 ≡ length self.old.table.classes) }
        ensures made { OnOk result (made_of self.new ≡ with_class (made_of self.old) name.now) }
    {
        let i = self.classes.number(name)?;
        Ok(ClassId(i as u8))
    }

    /// The number of a name, which is a new one where the name did not occur before.
    pub fn name(&mut self, name: &[u8]) -> Result<NameId, AllocError>
        requires word { IsName name.now }
        requires room { length self.old.table.names + 1 < 2 ^ 32 }
        ensures name { OnOk result (AddsName self.old self.new name.now) }
        ensures number { IfOk result (λ x. slice_get self.new.table.names x.0 ≡ Some name.now) }
        ensures index { IfOk result (λ x. x.0 ≡ word_number self.old.table.names name.now) }
        ensures made { OnOk result (made_of self.new ≡ with_name (made_of self.old) name.now) }
    {
        let i = self.names.number(name)?;
        Ok(NameId(i as u32))
    }

    /// How many classes are declared.
    pub fn classes(&self) -> usize
        ensures { result ≡ length self.now.table.classes }
    {
        self.classes.len()
    }

    /// How many names occurred.
    pub fn names(&self) -> usize
        ensures { result ≡ length self.now.table.names }
    {
        self.names.len()
    }

    /// How many nodes there are.
    pub fn nodes(&self) -> usize
        ensures { result ≡ length self.now.table.nodes }
    {
        self.nodes.len()
    }

    /// How many types are declared.
    pub fn types(&self) -> usize
        ensures { result ≡ length self.now.table.types }
    {
        self.types.len()
    }

    /// How many scripts there are.
    pub fn scripts(&self) -> usize
        ensures { result ≡ length self.now.table.scripts }
    {
        self.scripts.len()
    }

    /// The height of the tree that lies below `below` others in hand.
    pub fn height(&self, below: usize) -> usize
        requires { below < length (in_hand self.now) }
        ensures { option_map height (slice_get (in_hand self.now) below) ≡ Some result }
    {
        usize::from(self.heights[self.heights.len() - 1 - below])
    }

    /// `nil`.
    pub fn nil(&mut self, place: (u32, u32)) -> Result<(), AllocError>
        requires room { length self.old.table.nodes < NODES_MAX }
        ensures put { OnOk result (Puts self.old self.new place (leaf_over TNil)) }
        ensures made { OnOk result (made_of self.new ≡ with_node (made_of self.old) place (leaf_over TNil)) }
    {
        self.put(placed(Node::Nil, place), 0)
    }

    /// `true` or `false`.
    pub fn boolean(&mut self, value: bool, place: (u32, u32)) -> Result<(), AllocError>
        requires room { length self.old.table.nodes < NODES_MAX }
        ensures put { OnOk result (Puts self.old self.new place (leaf_over (boolean_tree value))) }
        ensures made { OnOk result (made_of self.new ≡ with_node (made_of self.old) place (leaf_over (boolean_tree value))) }
    {
        let node = if value { Node::True } else { Node::False };
        self.put(placed(node, place), 0)
    }

    /// `self`.
    pub fn self_ref(&mut self, place: (u32, u32)) -> Result<(), AllocError>
        requires room { length self.old.table.nodes < NODES_MAX }
        ensures put { OnOk result (Puts self.old self.new place (leaf_over TSelf)) }
        ensures made { OnOk result (made_of self.new ≡ with_node (made_of self.old) place (leaf_over TSelf)) }
    {
        self.put(placed(Node::SelfRef, place), 0)
    }

    /// A number.
    pub fn int(&mut self, value: i64, place: (u32, u32)) -> Result<(), AllocError>
        requires value { pos 0 ≤ℤ value }
        requires room { length self.old.table.nodes < NODES_MAX }
        ensures put { OnOk result (Puts self.old self.new place (leaf_over (λ id. TInt id value))) }
        ensures made { OnOk result (made_of self.new ≡ with_node (made_of self.old) place (leaf_over (λ id. TInt id value))) }
    {
        self.put(placed(Node::Int(value), place), 0)
    }

    /// A text with this value.
    pub fn text(&mut self, value: &[u8], place: (u32, u32)) -> Result<(), AllocError>
        requires value { IsText value.now }
        requires room { length self.old.table.nodes < NODES_MAX }
        ensures put { OnOk result (PutsText self.old self.new place value.now) }
        ensures made { OnOk result (made_of self.new ≡ with_text (made_of self.old) place value.now) }
    {
        let count = self.texts.len();
        let i = self.texts.number(value)?;
        let node = Node::Text(TextId(i as u16));
        match push_node(
            &mut self.nodes,
            &mut self.hand,
            &mut self.heights,
            placed(node, place),
            0,
        ) {
            Ok(()) => Ok(()),
            Err(full) => {
                self.texts.truncate(count);
                Err(full)
            }
        }
    }

    /// A variable.
    pub fn var(&mut self, name: NameId, place: (u32, u32)) -> Result<(), AllocError>
        requires name { name.0 < length self.old.table.names }
        requires room { length self.old.table.nodes < NODES_MAX }
        ensures put { OnOk result (Puts self.old self.new place (leaf_over (λ id. TVar id name.0))) }
        ensures made { OnOk result (made_of self.new ≡ with_node (made_of self.old) place (leaf_over (λ id. TVar id name.0))) }
    {
        self.put(placed(Node::Var(name), place), 0)
    }

    /// A new object of a class.
    pub fn new_object(&mut self, class: ClassId, place: (u32, u32)) -> Result<(), AllocError>
        requires class { class.0 < length self.old.table.classes }
        requires room { length self.old.table.nodes < NODES_MAX }
        ensures put { OnOk result (Puts self.old self.new place (leaf_over (λ id. TNew id class.0))) }
        ensures made { OnOk result (made_of self.new ≡ with_node (made_of self.old) place (leaf_over (λ id. TNew id class.0))) }
    {
        self.put(placed(Node::New(class), place), 0)
    }

    /// The printing of the last one in hand.
    pub fn print(&mut self, place: (u32, u32)) -> Result<(), AllocError>
        requires parts { HasExprs 1 (in_hand self.old) }
        requires room { length self.old.table.nodes < NODES_MAX }
        ensures put { OnOk result (Puts self.old self.new place (unary_over TPrint)) }
        ensures made { OnOk result (made_of self.new ≡ with_node (made_of self.old) place (unary_over TPrint)) }
    {
        let e = self.on_top(0);
        self.put(placed(Node::Print(e), place), 1)
    }

    /// The text of the last one in hand.
    pub fn to_str(&mut self, place: (u32, u32)) -> Result<(), AllocError>
        requires parts { HasExprs 1 (in_hand self.old) }
        requires room { length self.old.table.nodes < NODES_MAX }
        ensures put { OnOk result (Puts self.old self.new place (unary_over TToStr)) }
        ensures made { OnOk result (made_of self.new ≡ with_node (made_of self.old) place (unary_over TToStr)) }
    {
        let e = self.on_top(0);
        self.put(placed(Node::ToStr(e), place), 1)
    }

    /// The negation of the last one in hand.
    pub fn not(&mut self, place: (u32, u32)) -> Result<(), AllocError>
        requires parts { HasExprs 1 (in_hand self.old) }
        requires room { length self.old.table.nodes < NODES_MAX }
        ensures put { OnOk result (Puts self.old self.new place (unary_over TNot)) }
        ensures made { OnOk result (made_of self.new ≡ with_node (made_of self.old) place (unary_over TNot)) }
    {
        let e = self.on_top(0);
        self.put(placed(Node::Not(e), place), 1)
    }

    /// An assignment of the last one in hand to a variable.
    pub fn assign(&mut self, name: NameId, place: (u32, u32)) -> Result<(), AllocError>
        requires parts { HasExprs 1 (in_hand self.old) }
        requires name { name.0 < length self.old.table.names }
        requires room { length self.old.table.nodes < NODES_MAX }
        ensures put { OnOk result (Puts self.old self.new place (unary_over (λ id e. TAssign id name.0 e))) }
        ensures made { OnOk result (made_of self.new ≡ with_node (made_of self.old) place (unary_over (λ id e. TAssign id name.0 e))) }
    {
        let e = self.on_top(0);
        self.put(placed(Node::Assign(name, e), place), 1)
    }

    /// A choice by the condition that lies below the last two in hand, its two blocks.
    pub fn if_else(&mut self, place: (u32, u32)) -> Result<(), AllocError>
        requires parts { HasBranches (in_hand self.old) }
        requires room { length self.old.table.nodes < NODES_MAX }
        ensures put { OnOk result (Puts self.old self.new place if_over) }
        ensures made { OnOk result (made_of self.new ≡ with_node (made_of self.old) place if_over) }
    {
        let (condition, then, other) = (self.on_top(2), self.on_top(1), self.on_top(0));
        self.put(placed(Node::If(condition, then, other), place), 3)
    }

    /// A loop over the last one in hand, a block, by the condition below it.
    pub fn while_loop(&mut self, place: (u32, u32)) -> Result<(), AllocError>
        requires parts { HasTurn (in_hand self.old) }
        requires room { length self.old.table.nodes < NODES_MAX }
        ensures put { OnOk result (Puts self.old self.new place while_over) }
        ensures made { OnOk result (made_of self.new ≡ with_node (made_of self.old) place while_over) }
    {
        let (condition, block) = (self.on_top(1), self.on_top(0));
        self.put(placed(Node::While(condition, block), place), 2)
    }

    /// An operation on the last two in hand.
    pub fn binary(&mut self, op: Op, place: (u32, u32)) -> Result<(), AllocError>
        requires parts { HasExprs 2 (in_hand self.old) }
        requires room { length self.old.table.nodes < NODES_MAX }
        ensures put { OnOk result (Puts self.old self.new place (binary_over op)) }
        ensures made { OnOk result (made_of self.new ≡ with_node (made_of self.old) place (binary_over op)) }
    {
        let (a, b) = (self.on_top(1), self.on_top(0));
        self.put(placed(Node::Binary(op, a, b), place), 2)
    }

    /// A call with the last `count` in hand as its arguments. The receiver lies below them.
    pub fn call(&mut self, name: NameId, count: usize, place: (u32, u32)) -> Result<(), AllocError>
        requires few { count ≤ ARGUMENTS_MAX }
        requires parts { HasExprs (count + 1) (in_hand self.old) }
        requires name { name.0 < length self.old.table.names }
        requires room { length self.old.table.nodes < NODES_MAX }
        ensures put { OnOk result (Puts self.old self.new place (call_over name.0 count)) }
        ensures made { OnOk result (made_of self.new ≡ with_node (made_of self.old) place (call_over name.0 count)) }
    {
        let receiver = self.on_top(count);
        let args = arg_list(receiver, last_of(&self.hand, count));
        self.put(placed(Node::Call(receiver, name, args), place), count + 1)
    }

    /// A block of the last `count` in hand.
    pub fn block(&mut self, count: usize, place: (u32, u32)) -> Result<(), AllocError>
        requires parts { HasExprs count (in_hand self.old) }
        requires room { length self.old.table.nodes < NODES_MAX }
        ensures put { OnOk result (Puts self.old self.new place (block_over count)) }
        ensures made { OnOk result (made_of self.new ≡ with_node (made_of self.old) place (block_over count)) }
    {
        let first = self.items.len();
        self.items.extend_from_slice(last_of(&self.hand, count))?;
        let node = Node::Block(first as u32, count as u32);
        match push_node(
            &mut self.nodes,
            &mut self.hand,
            &mut self.heights,
            placed(node, place),
            count,
        ) {
            Ok(()) => Ok(()),
            Err(full) => {
                self.items.truncate(first);
                Err(full)
            }
        }
    }

    /// A definition of the method `name`, whose body is the block that is the last one in hand.
    pub fn def(
        &mut self,
        class: ClassId,
        name: NameId,
        params: &[NameId],
        place: (u32, u32),
    ) -> Result<(), AllocError>
        requires class { class.0 < length self.old.table.classes }
        requires name { name.0 < length self.old.table.names }
        requires params { AreParams self.old.table (map (λ x. x.0) params.now) }
        requires block { HasBlock (IsBodyBlock (map (λ x. x.0) params.now)) (in_hand self.old) }
        requires room { length self.old.table.nodes < NODES_MAX }
        ensures put { OnOk result (PutsDef self.old self.new place class.0 name.0 (map (λ x. x.0) params.now)) }
        ensures made { OnOk result (made_of self.new ≡ with_def (made_of self.old) place class.0 name.0 (map (λ x. x.0) params.now)) }
    {
        let block = self.on_top(0);
        let site = self.bodies.len();
        let node = Node::Def(Method::Named(class, name), BodySite(site as u16));
        let id = NodeId(self.nodes.len() as u16);
        self.bodies.push(body_of(id, block, params))?;
        match push_node(
            &mut self.nodes,
            &mut self.hand,
            &mut self.heights,
            placed(node, place),
            1,
        ) {
            Ok(()) => Ok(()),
            Err(full) => {
                self.bodies.truncate(site);
                Err(full)
            }
        }
    }

    /// A definition of a method whose name is computed: the expression of the name lies below the
    /// body's block, the last one in hand.
    pub fn def_computed(
        &mut self,
        class: ClassId,
        params: &[NameId],
        place: (u32, u32),
    ) -> Result<(), AllocError>
        requires class { class.0 < length self.old.table.classes }
        requires params { AreParams self.old.table (map (λ x. x.0) params.now) }
        requires parts { HasNameAndBlock (IsBodyBlock (map (λ x. x.0) params.now)) (in_hand self.old) }
        requires room { length self.old.table.nodes < NODES_MAX }
        ensures put { OnOk result (PutsComputedDef self.old self.new place class.0 (map (λ x. x.0) params.now)) }
        ensures made { OnOk result (made_of self.new ≡ with_computed_def (made_of self.old) place class.0 (map (λ x. x.0) params.now)) }
    {
        let (name, block) = (self.on_top(1), self.on_top(0));
        let site = self.bodies.len();
        let node = Node::Def(Method::Computed(class, name), BodySite(site as u16));
        let id = NodeId(self.nodes.len() as u16);
        self.bodies.push(body_of(id, block, params))?;
        match push_node(
            &mut self.nodes,
            &mut self.hand,
            &mut self.heights,
            placed(node, place),
            2,
        ) {
            Ok(()) => Ok(()),
            Err(full) => {
                self.bodies.truncate(site);
                Err(full)
            }
        }
    }

    /// A declaration of the type of the method `name`, by `type?` where it asks.
    pub fn declare(
        &mut self,
        class: ClassId,
        name: NameId,
        ty: MethodTy,
        asks: bool,
        place: (u32, u32),
    ) -> Result<(), AllocError>
        requires class { class.0 < length self.old.table.classes }
        requires name { name.0 < length self.old.table.names }
        requires ty { IsMethodTyIn self.old.table ty }
        requires types { length self.old.table.types < TYPES_MAX }
        requires room { length self.old.table.nodes < NODES_MAX }
        ensures put { OnOk result (PutsDeclare self.old self.new place class.0 name.0 ty asks) }
        ensures made { OnOk result (made_of self.new ≡ with_declare (made_of self.old) place class.0 name.0 ty asks) }
    {
        let site = self.types.len();
        let node = Node::Declare(Method::Named(class, name), TypeSite(site as u16), asks);
        self.types.push((ty, NodeId(self.nodes.len() as u16)))?;
        match push_node(
            &mut self.nodes,
            &mut self.hand,
            &mut self.heights,
            placed(node, place),
            0,
        ) {
            Ok(()) => Ok(()),
            Err(full) => {
                self.types.truncate(site);
                Err(full)
            }
        }
    }

    /// A declaration of the type of a method whose name is computed by the last one in hand.
    pub fn declare_computed(
        &mut self,
        class: ClassId,
        ty: MethodTy,
        asks: bool,
        place: (u32, u32),
    ) -> Result<(), AllocError>
        requires class { class.0 < length self.old.table.classes }
        requires parts { HasExprs 1 (in_hand self.old) }
        requires ty { IsMethodTyIn self.old.table ty }
        requires types { length self.old.table.types < TYPES_MAX }
        requires room { length self.old.table.nodes < NODES_MAX }
        ensures put { OnOk result (PutsComputedDeclare self.old self.new place class.0 ty asks) }
        ensures made { OnOk result (made_of self.new ≡ with_computed_declare (made_of self.old) place class.0 ty asks) }
    {
        let name = self.on_top(0);
        let site = self.types.len();
        let node = Node::Declare(Method::Computed(class, name), TypeSite(site as u16), asks);
        self.types.push((ty, NodeId(self.nodes.len() as u16)))?;
        match push_node(
            &mut self.nodes,
            &mut self.hand,
            &mut self.heights,
            placed(node, place),
            1,
        ) {
            Ok(()) => Ok(()),
            Err(full) => {
                self.types.truncate(site);
                Err(full)
            }
        }
    }

    /// The setup, whose block is the last one in hand. It takes the place of an earlier one.
    pub fn setup(&mut self)
        requires { HasBlock IsRootBlock (in_hand self.old) }
        ensures setup { AddsSetup self.old self.new }
        ensures made { made_of self.new ≡ with_setup (made_of self.old) }
    {
        let block = self.on_top(0);
        self.setup = Some(block);
        self.hand.truncate(self.hand.len() - 1);
        self.heights.truncate(self.heights.len() - 1);
    }

    /// A script, whose block is the last one in hand.
    pub fn script(&mut self, name: NameId) -> Result<(), AllocError>
        requires name { name.0 < length self.old.table.names }
        requires block { HasBlock IsRootBlock (in_hand self.old) }
        requires room { length self.old.table.scripts < SCRIPTS_MAX }
        ensures script { OnOk result (AddsScript self.old self.new name.0) }
        ensures made { OnOk result (made_of self.new ≡ with_script (made_of self.old) name.0) }
    {
        let block = self.on_top(0);
        self.scripts.push((name, block))?;
        self.hand.truncate(self.hand.len() - 1);
        self.heights.truncate(self.heights.len() - 1);
        Ok(())
    }

    /// The program of the lists. What is still in hand stays a part of none.
    pub fn finish(self) -> Result<Program, AllocError>
        ensures table { IfOk result (λ p. p ≡ self.table) }
        ensures program { IfOk result IsProgram }
        ensures once { IfOk result IsReachedOnce }
        ensures laid { IfOk result IsLaid }
    {
        let Draft {
            alloc,
            classes,
            names,
            texts,
            nodes,
            items,
            bodies,
            types,
            setup,
            scripts,
            hand,
            heights,
        } = self;
        Ok(Program::make(ProgramParts {
            classes: classes.into_vec()?,
            names: names.into_vec()?,
            texts: texts.into_vec()?,
            nodes,
            items,
            bodies,
            types,
            setup,
            scripts,
        }))
    }

    // The node that lies below `depth` others in hand.
    fn on_top(&self, depth: usize) -> NodeId
        requires { depth < length self.now.nodes }
        ensures { last_nodes (depth + 1) self.now.nodes ≡ result ∷ last_nodes depth self.now.nodes }
    {
        self.hand[self.hand.len() - 1 - depth]
    }

    // The next node, an expression, in place of the last `count` in hand, which are its parts.
    fn put(&mut self, node: Placed, count: usize) -> Result<(), AllocError>
        requires over { CanPut self.old node count }
        requires expr { IsExprNode (Some node.node) }
        ensures { OnOk result (PutsNode self.old self.new node count) }
    {
        push_node(
            &mut self.nodes,
            &mut self.hand,
            &mut self.heights,
            node,
            count,
        )?;
        Ok(())
    }
}
