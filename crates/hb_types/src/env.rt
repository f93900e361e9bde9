//! The variables of a body, and their types.

ghost use Rattle.std.specs.Prelude.{◌≡◌, ◌≤◌, ◌↔◌, false, [], ◌++◌, length, position, nat_eq, OnOk, OnErr, IsErr};
ghost use Rattle.hb_types.specs.Variables as variables;

use crate::ids::NameId;
use crate::types::{Ty, below, join};
use arrayvec::ArrayVec;
use std::marker::Model;

/// How many variables a body has at most.
pub const VARIABLES_MAX: usize = 32;

/// There is no room for one more variable.
#[derive(Clone, Copy, Debug, PartialEq, Eq)]
pub struct EnvFull;

/// Variables and their types. Contracts see a list in which each name stands once.
#[derive(Drop)]
pub struct Env {
    list: ArrayVec<(NameId, Ty), VARIABLES_MAX>,
}

impl Model for Env {
    ghost use Rattle.hb_types.specs.Variables.{Variables, IsMap};

    ghost Value = { Variables };

    ghost view = { λ e. e.list.items };

    ghost invariant = { λ e. IsMap e.list.items };
}

impl Env {
    /// No variable.
    pub fn new() -> Env
        ensures { result ≡ [] }
    {
        Env {
            list: ArrayVec::new(),
        }
    }

    /// The type of a variable.
    pub fn get(&self, name: NameId) -> Option<Ty>
        ensures value { result ≡ variables.get self.now name.0 }
        ensures map { variables.IsMap self.now }
        ensures few { length self.now ≤ VARIABLES_MAX }
    {
        for (known, ty) in self.list.as_slice() {
            if *known == name {
                return Some(*ty);
            }
        }
        None
    }

    /// Whether each variable has a type later that is below its own here.
    pub fn keeps(&self, later: &Env) -> bool
        ensures { result ≡ variables.keeps self.now later.now }
    {
        for (name, ty) in self.list.as_slice() {
            match later.get(*name) {
                None => return false,
                Some(found) => {
                    if !below(found, *ty) {
                        return false;
                    }
                }
            }
        }
        true
    }

    /// The variables of both, each at the join of its types.
    pub fn join(&self, other: &Env) -> Env
        ensures { result ≡ variables.join self.now other.now }
    {
        let mut both = ArrayVec::new();
        for (name, ty) in self.list.as_slice() {
            if let Some(found) = other.get(*name) {
                both.push((*name, join(*ty, found)));
            }
        }
        Env { list: both }
    }

    /// Another one with the same variables.
    pub fn copied(&self) -> Env
        ensures { result ≡ self.now }
    {
        let mut list = ArrayVec::new();
        for variable in self.list.as_slice() {
            list.push(*variable);
        }
        Env { list }
    }

    /// A variable gets a type. It fails exactly where the variable is new and there is no room, and nothing changed then.
    pub fn set(&mut self, name: NameId, ty: Ty) -> Result<(), EnvFull>
        ensures full { IsErr result ↔ (length self.old ≡ VARIABLES_MAX) × (variables.has self.old name.0 ≡ false) }
        ensures map { variables.IsMap self.old }
        ensures ok { OnOk result (self.new ≡ variables.set self.old name.0 ty) }
        ensures err { OnErr result (self.new ≡ self.old) }
    {
        match place_of(self.list.as_slice(), name) {
            Some(at) => self.list[at] = (name, ty),
            None => {
                if self.list.is_full() {
                    return Err(EnvFull);
                }
                self.list.push((name, ty));
            }
        }
        Ok(())
    }
}

// Where a variable stands.
fn place_of(list: &[(NameId, Ty)], name: NameId) -> Option<usize>
    ensures { result ≡ position (λ v. nat_eq v.0.0 name.0) list.now }
{
    list.iter().position(|variable| variable.0 == name)
}
