//! A check that was kept, and what its call's holds found.

ghost use Rattle.std.specs.Prelude.{◌≡◌};
ghost use Rattle.hb_cache.specs.Kept.{uses};

use hb_deriv::raw::Derivation;
use hb_types::ids::{KeyId, TypeSite};

/// What a hold of a key found: the type, and how often it was changed.
#[derive(Clone, Copy, Debug, PartialEq, Eq)]
pub struct Seen {
    pub key: KeyId,
    pub site: Option<TypeSite>,
    pub changes: u32,
}

/// A check that was kept.
#[derive(Debug, Drop)]
pub struct Kept {
    /// The method whose body was checked.
    pub key: KeyId,
    /// What the hold of the method's own key found.
    pub changes: u32,
    /// One for each of the derivation's uses, in their order. A method that calls itself has its own key among them.
    pub counts: Vec<Seen>,
    pub derivation: Derivation,
}

impl Kept {
    /// Whether the check used the type of the key. It used that of its own.
    pub fn uses(&self, key: KeyId) -> bool
        ensures { result ≡ uses self.now key.0 }
    {
        self.key == key || self.counts.iter().any(|seen| seen.key == key)
    }
}
