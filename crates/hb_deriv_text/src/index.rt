//! The index of a program, by which what a word names is found without going through the program.

ghost use Rattle.std.specs.Prelude.{◌≡◌, IfOk, OnOk};
ghost use Rattle.std.specs.Option.{option_map};
ghost use Rattle.hb_tree.specs.Nodes.{place_at};
ghost use Rattle.hb_deriv_text.specs.Reading as reading;
ghost use Rattle.hb_deriv_text.specs.Written.{HasSmallPlaces};

use crate::maps::{Places, Spellings, bodies, classes, expressions, names, types};
use hb_tree::program::Program;
use hb_types::ids::{BodySite, ClassId, NameId, NodeId, TypeSite};
use std::alloc::{AllocError, Global};
use std::marker::Model;

/// A program with an index of it, by which texts of derivations are read. Contracts see the program's table.
/// (docs/FORMATS.md, "The text of a derivation")
#[derive(Drop)]
pub struct Finder<'a> {
    prog: &'a Program,
    expressions: Places<NodeId>,
    bodies: Places<BodySite>,
    types: Places<TypeSite>,
    classes: Spellings<'a, ClassId>,
    names: Spellings<'a, NameId>,
}

impl<'a> Model for Finder<'a> {
    ghost use Rattle.hb_tree.specs.Table.{Table};

    ghost Value = { Table };

    ghost use Rattle.hb_deriv_text.specs.Finds.{IsIndex};

    ghost view = { λ f. f.prog.now };

    ghost invariant = { λ f. IsIndex (λ w. w.now) f.prog.now f.expressions f.bodies f.types f.classes f.names };
}

impl<'a> Finder<'a> {
    /// The index of a program. It is made once for all texts that are read for the program.
    pub fn new(alloc: Global, prog: &'a Program) -> Result<Finder<'a>, AllocError>
        ensures prog { IfOk result (λ f. f ≡ prog.now) }
        ensures small { OnOk result (HasSmallPlaces prog.now) }
    {
        Ok(Finder {
            prog,
            expressions: expressions(alloc, prog)?,
            bodies: bodies(alloc, prog)?,
            types: types(alloc, prog)?,
            classes: classes(alloc, prog)?,
            names: names(alloc, prog)?,
        })
    }

    /// The program.
    pub fn program(&self) -> &'a Program
        ensures prog { result.now ≡ self.now }
        ensures small { HasSmallPlaces self.now }
    {
        self.prog
    }

    /// The first class of this name.
    pub(crate) fn class(&self, word: &[u8]) -> Option<ClassId>
        ensures { option_map (λ c. c.0) result ≡ reading.named self.now.classes word.now }
    {
        self.classes.get(word).copied()
    }

    /// The first name that is spelled so.
    pub(crate) fn name(&self, word: &[u8]) -> Option<NameId>
        ensures { option_map (λ x. x.0) result ≡ reading.named self.now.names word.now }
    {
        self.names.get(word).copied()
    }

    /// The first body that is defined at this place.
    pub(crate) fn body(&self, place: (u32, u32)) -> Option<BodySite>
        ensures { option_map (λ b. b.0) result ≡ reading.first (λ b. reading.same_place place (place_at self.now b.def.0)) 0 self.now.bodies }
    {
        self.bodies.get(&place).copied()
    }

    /// The first type that is declared at this place.
    pub(crate) fn declared(&self, place: (u32, u32)) -> Option<TypeSite>
        ensures { option_map (λ y. y.0) result ≡ reading.first (λ y. reading.same_place place (place_at self.now y.1.0)) 0 self.now.types }
    {
        self.types.get(&place).copied()
    }

    /// The first expression at this place.
    pub(crate) fn expression(&self, place: (u32, u32)) -> Option<NodeId>
        ensures { option_map (λ e. e.0) result ≡ reading.first (reading.is_expr_at place) 0 self.now.nodes }
    {
        self.expressions.get(&place).copied()
    }
}
