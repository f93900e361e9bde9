//! The names of one caller, or of several that run by turns.

ghost use Rattle.std.specs.Prelude.{◌≡◌, [], ◌<◌, ◌≤◌, ◌↔◌, length, slice_get, Some, None, IfOk, OnOk, OnErr, IsErrOf};

use crate::list::NameList;
use crate::names::{NameFail, Names};
use crate::store::NameStore;
use hb_types::ids::{ClassId, KeyId};
use std::alloc::Global;
use std::marker::Model;

/// Names that nobody else adds to: those that it knows are those that were asked.
#[derive(Drop)]
pub struct PlainNames {
    store: NameStore,
}

impl Model for PlainNames {
    ghost use Rattle.std.specs.Prelude.{List};
    ghost use Rattle.hb_names.specs.Names.{Name};

    ghost Value = { List Name };

    ghost view = { λ n. n.store.names };
}

impl PlainNames {
    /// No name.
    pub fn new(alloc: Global) -> PlainNames
        ensures { result ≡ [] }
    {
        PlainNames {
            store: NameStore::new(alloc),
        }
    }

    /// All the names, in the order of their keys.
    pub fn into_list(self) -> NameList
        ensures { result ≡ self }
    {
        let PlainNames { store } = self;
        store.into_list()
    }
}

impl Names for PlainNames {
    ghost known = { λ n. n };

    ghost asked = { λ n. n };

    ghost alike = { λ _ _. Unit {0} };

    ghost alike_itself = { λ _. tt };

    ghost alike_on = { λ _ _ _ _ _. tt };

    fn key(&mut self, _alloc: Global, class: ClassId, name: &[u8]) -> Result<KeyId, NameFail> {
        self.store.key(class, name)
    }

    fn name_of(&self, key: KeyId) -> (ClassId, &[u8]) {
        self.store.name_of(key)
    }
}
