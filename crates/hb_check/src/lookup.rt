//! Where the types of methods come from.

ghost use Rattle.std.specs.Prelude.{◌≡◌, ◌<◌, ◌∷◌, [], ◌++◌, ℕ, List, Option, Some, IfOk, IfErr, IfSome};
ghost use Rattle.hb_check.specs.Asked.{asked, refusal};

use hb_types::ids::{ClassId, NameId, TypeSite};
use std::alloc::Global;

/// Why a lookup does not answer.
#[derive(Clone, Copy, Debug, PartialEq, Eq, Hash)]
pub enum LookFail {
    NoMemory,
    /// No further method name can be known in this run.
    Full,
}

/// Tells which `type` or `type?` gives a method its type now, and remembers what it told.
pub trait Lookup {
    ghost use Rattle.hb_check.specs.Asked.{Asked, Refusal};

    /// What it answered, in order.
    ghost answers: { Self → List Asked };

    /// What it refused last.
    ghost refused: { Self → Option Refusal };

    /// Each site that it answers is below this number.
    ghost bound: { Self → ℕ };

    /// Each name that it may be asked for is below this number.
    ghost names: { Self → ℕ };

    /// The second is the first after some calls: what it was made with is the same.
    ghost alike: { Self → Self → Type 0 };

    ghost alike_itself: { (a : Self) → alike a a };

    ghost alike_on: { (a b c : Self) → alike a b → alike b c → alike a c };

    ghost bound_stays: { (a b : Self) → alike a b → bound a ≡ bound b };

    ghost names_stay: { (a b : Self) → alike a b → names a ≡ names b };

    /// It may be asked.
    ghost ready: { Self → Type 0 };

    /// The `type` or `type?` that gives the method its type, or None where it has none.
    fn type_of(
        &mut self,
        alloc: Global,
        class: ClassId,
        name: NameId,
    ) -> Result<Option<TypeSite>, LookFail>
        requires ready { ready self.old }
        requires name { name.0 < names self.old }
        ensures ready { ready self.new }
        ensures alike { alike self.old self.new }
        ensures below { IfOk result (λ site. IfSome site (λ s. s.0 < bound self.old)) }
        ensures answer { IfOk result (λ site. (answers self.new ≡ answers self.old ++ asked class name site ∷ []) × (refused self.new ≡ refused self.old)) }
        ensures refusal { IfErr result (λ cause. (answers self.new ≡ answers self.old) × (refused self.new ≡ Some (refusal class name cause))) };
}
