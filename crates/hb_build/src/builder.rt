//! The program that actions build, with what is not yet used of it.

ghost use Rattle.std.specs.Prelude.{◌≡◌, IfOk};
ghost use Rattle.hb_tree.specs.Program.{IsProgram};
ghost use Rattle.hb_tree.specs.Roots.{IsReachedOnce};
ghost use Rattle.hb_draft.specs.Laid.{IsLaid};
ghost use Rattle.hb_build.specs.Acts.{nothing};
ghost use Rattle.hb_build.specs.Said.{said_in};
ghost use Rattle.hb_build.specs.Sound.{IsSound, work_of};

use crate::held::Held;
use hb_draft::Draft;
use hb_tree::program::Program;
use hb_types::ids::NameId;
use std::alloc::{AllocError, Global};

/// What counts for a body, or for the setup or a script.
#[derive(Debug, Drop)]
pub struct Scope {
    pub is_body: bool,
    pub nodes: usize,
    pub calls: usize,
    /// The names of parameters and of assignments, each once.
    pub variables: Vec<NameId>,
}

/// A program under construction, from the actions of a text.
#[derive(Drop)]
pub struct Builder {
    pub alloc: Global,
    pub draft: Draft,
    /// What is not yet used. Its trees lie in the draft's hand.
    pub held: Vec<Held>,
    /// The innermost scope.
    pub scope: Scope,
    /// The scopes around it, the innermost last.
    pub outer: Vec<Scope>,
    /// How many constructs are open.
    pub depth: usize,
    /// How many declarations are to come.
    pub declaring: usize,
    /// The names of the scripts so far.
    pub scripts: Vec<NameId>,
}

impl Builder {
    /// Nothing is built yet.
    pub fn new(alloc: Global) -> Builder
        ensures sound { IsSound result }
        ensures work { work_of result ≡ nothing }
    {
        Builder {
            alloc,
            draft: Draft::new(alloc),
            held: Vec::new(alloc),
            scope: Scope {
                is_body: false,
                nodes: 0,
                calls: 0,
                variables: Vec::new(alloc),
            },
            outer: Vec::new(alloc),
            depth: 0,
            declaring: 0,
            scripts: Vec::new(alloc),
        }
    }

    /// The program that was built.
    pub fn finish(self) -> Result<Program, AllocError>
        ensures said { IfOk result (λ program. said_in program ≡ (work_of self).said) }
        ensures program { IfOk result IsProgram }
        ensures once { IfOk result IsReachedOnce }
        ensures laid { IfOk result IsLaid }
    {
        self.draft.finish()
    }
}
