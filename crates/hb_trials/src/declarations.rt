//! A lookup that answers from the declarations of a program.

ghost use Rattle.std.specs.Prelude.{◌≡◌, ◌<◌, [], None, length, IfOk, IfSome};
ghost use Rattle.hb_trials.specs.Declarations.{answers_in, refusal_in};

use hb_check::lookup::{LookFail, Lookup};
use hb_tree::limits::TYPES_MAX;
use hb_tree::node::{Method, Node};
use hb_tree::program::Program;
use hb_types::ids::{ClassId, NameId, TypeSite};
use std::alloc::{AllocError, Global};

/// A method whose type is declared.
#[derive(Clone, Copy, Debug, PartialEq, Eq)]
pub struct Declared {
    pub class: ClassId,
    pub name: NameId,
}

/// The method that a `type` or a `type?` is about; none where its name is computed.
pub fn method_of(prog: &Program, site: TypeSite) -> Option<Declared>
    requires { site.0 < length prog.now.types }
    ensures { IfSome result (λ method. method.name.0 < length prog.now.names) }
{
    match prog.node(prog.type_node(site)) {
        Node::Declare(Method::Named(class, name), _, _) => Some(Declared { class, name }),
        _ => None,
    }
}

/// A question, and the answer to it.
#[derive(Clone, Copy, Debug, PartialEq, Eq)]
pub struct Answer {
    pub class: ClassId,
    pub name: NameId,
    pub site: Option<TypeSite>,
}

/// A lookup over declarations, of which the last one of a method counts. It remembers what was asked.
#[derive(Debug, Drop)]
pub struct Declarations {
    /// The method of each `type` and `type?`, by their sites; none where the name is computed.
    declared: Vec<Option<Declared>>,
    answers: Vec<Answer>,
    refused: Option<(ClassId, NameId)>,
}

impl Declarations {
    /// The table of the first declarations of a program, without those whose name is computed.
    pub fn of(alloc: Global, prog: &Program, count: usize) -> Result<Declarations, AllocError>
        ensures { IfOk result (λ t. (answers_in t ≡ []) × (refusal_in t ≡ None)) }
    {
        let mut declared = Vec::new(alloc);
        for i in 0..count.min(prog.types()) {
            declared.push(method_of(prog, TypeSite(i as u16)))?;
        }
        Ok(Declarations {
            declared,
            answers: Vec::new(alloc),
            refused: None,
        })
    }

    /// What was asked, in order.
    pub fn answers(&self) -> &[Answer] {
        &self.answers
    }
}

impl Lookup for Declarations {
    ghost use Rattle.std.proofs.Common.{◌≡◌, ◌∙◌, ◌^◌, refl};
    ghost use Rattle.hb_trials.specs.Declarations.{answers_in, refusal_in};

    ghost answers = { λ t. answers_in t };

    ghost refused = { λ t. refusal_in t };

    ghost bound = { λ t. 65536 };

    ghost names = { λ t. 2 ^ 32 };

    ghost alike = { λ a b. a.declared.items ≡ b.declared.items };

    ghost alike_itself = { λ a. refl };

    ghost alike_on = { λ a b c e f. e ∙ f };

    ghost bound_stays = { λ a b e. refl };

    ghost names_stay = { λ a b e. refl };

    ghost ready = { λ _. Unit {0} };

    fn type_of(
        &mut self,
        alloc: Global,
        class: ClassId,
        name: NameId,
    ) -> Result<Option<TypeSite>, LookFail> {
        let _ = alloc;
        let site = newest(&self.declared, class, name);
        if self.answers.push(Answer { class, name, site }).is_err() {
            self.refused = Some((class, name));
            return Err(LookFail::NoMemory);
        }
        Ok(site)
    }
}

// The site of the last declaration of a method. The declarations count the sites from 0.
fn newest(declared: &[Option<Declared>], class: ClassId, name: NameId) -> Option<TypeSite>
    ensures { IfSome result (λ s. s.0 < 65536) }
{
    let wanted = Some(Declared { class, name });
    let mut site = None;
    for i in 0..declared.len().min(TYPES_MAX) {
        if declared[i] == wanted {
            site = Some(TypeSite(i as u16));
        }
    }
    site
}
