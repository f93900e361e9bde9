//! The names that a seat knows, and which of them it was asked for.

ghost use Rattle.std.specs.Prelude.{◌≡◌, ◌<◌, ◌≤◌, [], ◌∷◌, ◌++◌, length, slice_get, Some, None, IfSome, IfNone, OnOk};
ghost use Rattle.hb_names.specs.Names.{place, with_name, Differ};
ghost use Rattle.hb_row.specs.Known.{name_at, AreNamed};

use hb_names::{NAME_BYTES_MAX, NAMES_MAX, NameStore};
use hb_types::ids::{ClassId, KeyId};
use std::alloc::{AllocError, Global};
use std::marker::Model;

/// Known names, in the order of their keys.
#[derive(Drop)]
pub struct KnownNames {
    store: NameStore,
    /// The keys that were asked for, in the order of the first asking.
    asked: Vec<KeyId>,
    /// By key, whether it was asked for.
    marks: Vec<bool>,
}

impl Model for KnownNames {
    ghost use Rattle.std.specs.Prelude.{◌-◌, vec_capacity, vec_len};
    ghost use Rattle.hb_row.specs.Known.{Notes, notes_of, IsNoted};

    ghost Value = { Notes };

    // Each known name may yet be asked for: so the room for keys is what the marks leave of it.
    ghost view = { λ k. notes_of k.store.names k.asked.items k.store.spare (vec_capacity k.marks - vec_len k.marks) (vec_capacity k.asked - vec_len k.marks) };

    ghost invariant = { λ k. IsNoted k.store.names k.asked.items k.marks.items (vec_capacity k.asked) };
}

impl KnownNames {
    /// No name.
    pub(crate) fn new(alloc: Global) -> KnownNames
        ensures known { result.known ≡ [] }
        ensures asked { result.asked ≡ [] }
    {
        KnownNames {
            store: NameStore::new(alloc),
            asked: Vec::new(alloc),
            marks: Vec::new(alloc),
        }
    }

    /// How many names there are.
    pub fn len(&self) -> usize
        ensures len { result ≡ length self.now.known }
        ensures few { length self.now.known ≤ NAMES_MAX }
        ensures differ { Differ self.now.known }
    {
        self.store.len()
    }

    /// The class and the name that a key stands for.
    pub fn name_of(&self, key: KeyId) -> (ClassId, &[u8])
        requires { key.0 < length self.now.known }
        ensures { slice_get self.now.known key.0 ≡ Some (result.0.0, result.1.now) }
    {
        self.store.name_of(key)
    }

    /// The key of a name that is known.
    pub(crate) fn find(&mut self, class: ClassId, name: &[u8]) -> Option<KeyId>
        requires { length name.now ≤ NAME_BYTES_MAX }
        ensures same { self.new ≡ self.old }
        ensures key { IfSome result (λ key. place self.old.known (class.0, name.now) ≡ Some key.0) }
        ensures unknown { IfNone result (place self.old.known (class.0, name.now) ≡ None) }
        ensures few { length self.old.known ≤ NAMES_MAX }
        ensures differ { Differ self.old.known }
    {
        self.store.find(class, name)
    }

    /// Takes the memory for one more name, and for asking for it.
    pub(crate) fn reserve(&mut self) -> Result<(), AllocError>
        ensures known { self.new.known ≡ self.old.known }
        ensures asked { self.new.asked ≡ self.old.asked }
        ensures spare { OnOk result (0 < self.new.spare) }
    {
        self.store.reserve()?;
        self.marks.reserve(1)?;
        let more = self.marks.len() + 1 - self.asked.len();
        self.asked.reserve(more)
    }

    /// Puts a new name last, for which nobody asked. There is room for it.
    pub(crate) fn push(&mut self, class: ClassId, name: &[u8]) -> KeyId
        requires short { length name.now ≤ NAME_BYTES_MAX }
        requires new { place self.old.known (class.0, name.now) ≡ None }
        requires spare { 0 < self.old.spare }
        requires few { length self.old.known < NAMES_MAX }
        ensures known { self.new.known ≡ self.old.known ++ (class.0, name.now) ∷ [] }
        ensures asked { self.new.asked ≡ self.old.asked }
        ensures key { result.0 ≡ length self.old.known }
        ensures answers { AreNamed self.new.asked self.new.known }
    {
        let key = self.store.push(class, name);
        let Ok(()) = self.marks.push(false) else {
            unreachable!()
        };
        key
    }

    /// Marks a name as asked for. It takes no memory.
    pub(crate) fn mark(&mut self, key: KeyId)
        requires { key.0 < length self.old.known }
        ensures known { self.new.known ≡ self.old.known }
        ensures asked { self.new.asked ≡ with_name self.old.asked (name_at self.old.known key.0) }
        ensures answers { AreNamed self.new.asked self.new.known }
    {
        let _count = self.store.len();
        let at = key.0 as usize;
        if self.marks[at] {
            return;
        }
        self.marks[at] = true;
        let Ok(()) = self.asked.push(key) else {
            unreachable!()
        };
    }

    /// The names alone.
    pub(crate) fn into_store(self) -> NameStore
        ensures { result.names ≡ self.known }
    {
        let KnownNames { store, .. } = self;
        store
    }
}
