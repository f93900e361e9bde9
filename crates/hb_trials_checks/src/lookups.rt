//! A lookup by which all methods have one type.

ghost use Rattle.std.specs.Prelude.{◌≡◌, [], None};
ghost use Rattle.hb_trials_checks.specs.Lookups.{answers_in, refusal_in};

use hb_check::lookup::{LookFail, Lookup};
use hb_types::ids::{ClassId, NameId, TypeSite};
use std::alloc::Global;

/// A question, and the answer to it.
#[derive(Clone, Copy, Debug, PartialEq, Eq)]
pub struct Answer {
    pub class: ClassId,
    pub name: NameId,
    pub site: Option<TypeSite>,
}

/// A lookup by which each method has the type of one declaration. It remembers what was asked.
#[derive(Debug, Drop)]
pub struct OneType {
    site: TypeSite,
    answers: Vec<Answer>,
    refused: Option<(ClassId, NameId)>,
}

impl OneType {
    /// A lookup that was asked nothing yet.
    pub fn new(alloc: Global, site: TypeSite) -> OneType
        ensures answers { answers_in result ≡ [] }
        ensures refused { refusal_in result ≡ None }
    {
        OneType {
            site,
            answers: Vec::new(alloc),
            refused: None,
        }
    }
}

impl Lookup for OneType {
    ghost use Rattle.std.proofs.Common.{◌≡◌, ◌∙◌, ◌+◌, ◌^◌, ap, refl};
    ghost use Rattle.hb_trials_checks.specs.Lookups.{answers_in, refusal_in};

    ghost answers = { λ t. answers_in t };

    ghost refused = { λ t. refusal_in t };

    ghost bound = { λ t. t.site.0 + 1 };

    ghost names = { λ t. 2 ^ 32 };

    ghost alike = { λ a b. a.site ≡ b.site };

    ghost alike_itself = { λ a. refl };

    ghost alike_on = { λ a b c e f. e ∙ f };

    ghost bound_stays = { λ a b e. ap (λ s. s.0 + 1) e };

    ghost names_stay = { λ a b e. refl };

    ghost ready = { λ _. Unit {0} };

    fn type_of(
        &mut self,
        alloc: Global,
        class: ClassId,
        name: NameId,
    ) -> Result<Option<TypeSite>, LookFail> {
        let _ = alloc;
        let site = Some(self.site);
        if self.answers.push(Answer { class, name, site }).is_err() {
            self.refused = Some((class, name));
            return Err(LookFail::NoMemory);
        }
        Ok(site)
    }
}
