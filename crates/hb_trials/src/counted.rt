//! Names that count how often they are asked for a key.

use hb_names::{NameFail, Names, PlainNames};
use hb_types::ids::{ClassId, KeyId};
use std::alloc::Global;

/// Plain names, and how often they were asked for a key.
#[derive(Drop)]
pub struct CountedNames {
    plain: PlainNames,
    questions: u32,
}

impl CountedNames {
    pub fn new(alloc: Global) -> CountedNames {
        CountedNames {
            plain: PlainNames::new(alloc),
            questions: 0,
        }
    }

    /// How often they were asked.
    pub fn questions(&self) -> u32 {
        self.questions
    }
}

impl Names for CountedNames {
    ghost known = { λ n. n.plain };

    ghost asked = { λ n. n.plain };

    ghost alike = { λ _ _. Unit {0} };

    ghost alike_itself = { λ _. tt };

    ghost alike_on = { λ _ _ _ _ _. tt };

    fn key(&mut self, alloc: Global, class: ClassId, name: &[u8]) -> Result<KeyId, NameFail> {
        self.questions = self.questions.saturating_add(1);
        self.plain.key(alloc, class, name)
    }

    fn name_of(&self, key: KeyId) -> (ClassId, &[u8]) {
        self.plain.name_of(key)
    }
}
