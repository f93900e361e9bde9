//! What a call was asked while its body is checked, and what it answered.

ghost use Rattle.std.specs.Prelude.{◌≡◌};
ghost use Rattle.hb_call.specs.Calling.{held_among};

use hb_cache::Seen;
use hb_check::lookup::LookFail;
use hb_tables::desk::Held;
use hb_types::ids::{ClassId, KeyId, NameId};

/// The key that the call holds for a method, and what its hold found.
#[derive(Clone, Copy, Debug, PartialEq, Eq)]
pub struct Answer {
    pub class: ClassId,
    pub name: NameId,
    pub key: KeyId,
    pub held: Held,
}

impl Answer {
    /// What is kept of it.
    pub fn seen(&self) -> Seen
        ensures { result ≡ record { key = self.now.key; site = self.now.held.ty; changes = self.now.held.changes } }
    {
        Seen {
            key: self.key,
            site: self.held.ty,
            changes: self.held.changes,
        }
    }
}

/// A method for which there was no answer, and why.
#[derive(Clone, Copy, Debug, PartialEq, Eq)]
pub struct Refused {
    pub class: ClassId,
    pub name: NameId,
    pub cause: LookFail,
}

/// What a hold of the key found, where an answer tells it.
pub fn found(answers: &[Answer], key: KeyId) -> Option<Held>
    ensures { result ≡ held_among answers.now key.0 }
{
    for answer in answers {
        if answer.key == key {
            return Some(answer.held);
        }
    }
    None
}
