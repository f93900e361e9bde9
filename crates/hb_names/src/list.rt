//! The names of a run, once it has ended.

ghost use Rattle.std.specs.Prelude.{◌≡◌, ◌<◌, ◌≤◌, length, slice_get, Some};
ghost use Rattle.hb_names.specs.Names.{Differ};

use crate::names::NAMES_MAX;
use crate::store::NameStore;
use hb_types::ids::{ClassId, KeyId};
use std::marker::Model;

/// The names of a run in the order of their keys.
#[derive(Drop)]
pub struct NameList {
    store: NameStore,
}

impl Model for NameList {
    ghost use Rattle.std.specs.Prelude.{List};
    ghost use Rattle.hb_names.specs.Names.{Name};

    ghost Value = { List Name };

    ghost view = { λ l. l.store.names };
}

impl NameList {
    pub(crate) fn new(store: NameStore) -> NameList
        ensures { result ≡ store.names }
    {
        NameList { store }
    }

    /// How many names there are.
    pub fn len(&self) -> usize
        ensures len { result ≡ length self.now }
        ensures few { length self.now ≤ NAMES_MAX }
        ensures differ { Differ self.now }
    {
        self.store.len()
    }

    /// The class and the name that a key stands for.
    pub fn name_of(&self, key: KeyId) -> (ClassId, &[u8])
        requires { key.0 < length self.now }
        ensures { slice_get self.now key.0 ≡ Some (result.0.0, result.1.now) }
    {
        self.store.name_of(key)
    }
}
