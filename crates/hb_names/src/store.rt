//! Names in the order of their keys, in which a name's key is found without going through them.

ghost use Rattle.std.specs.Prelude.{◌≡◌, ◌<◌, ◌≤◌, ◌↔◌, [], ◌∷◌, ◌++◌, length, slice_get, Some, None, IsTrue, IfSome, IfNone, IfOk, OnOk, OnErr, IsErrOf};
ghost use Rattle.hb_names.specs.{Names.same, Names.place, Names.with_name, Names.Differ, Names.IsFull, Stored.name_of};

use crate::list::NameList;
use crate::names::{NAME_BYTES_MAX, NAMES_MAX, NameFail};
use arrayvec::ArrayVec;
use hb_types::ids::{ClassId, KeyId};
use indexmap::IndexSet;
use std::alloc::{AllocError, Global};
use std::marker::Model;

/// How many keys are kept at hand, to be found without a hash.
const RECENT_SLOTS: usize = 256;

/// A name with its bytes in place, so that it is looked up without memory.
#[derive(PartialEq, Eq, Hash, Drop)]
struct MethodName {
    class: ClassId,
    bytes: ArrayVec<u8, NAME_BYTES_MAX>,
}

impl MethodName {
    fn new(class: ClassId, name: &[u8]) -> MethodName
        requires { length name.now ≤ NAME_BYTES_MAX }
        ensures { name_of result ≡ (class.0, name.now) }
    {
        let mut bytes = ArrayVec::new();
        let _ = bytes.try_extend_from_slice(name);
        MethodName { class, bytes }
    }

    // Compares in place, so that no name is made.
    #[inline(always)]
    fn is(&self, class: ClassId, name: &[u8]) -> bool
        ensures { result ≡ same (name_of self.now) (class.0, name.now) }
    {
        self.class == class && self.bytes.as_slice() == name
    }
}

/// Names that grow, in the order of their keys. The memory for one more may be taken before it is known.
#[derive(Drop)]
pub struct NameStore {
    names: IndexSet<MethodName>,
    /// By slot, the key of the name that was last found there. It is a hint, which counts only where the names agree.
    recent: [KeyId; RECENT_SLOTS],
}

impl Model for NameStore {
    ghost use Rattle.std.specs.Prelude.{◌≤◌, length, map};
    ghost use Rattle.indexmap.specs.IndexSet as set;
    ghost use Rattle.hb_names.specs.Stored.{Stock, name_of};
    ghost use Rattle.hb_names.specs.declared.names.TheConstants.{NAMES_MAX};

    ghost Value = { Stock };

    ghost view = { λ s. record { names = map name_of s.names.keys; spare = set.spare s.names } };

    ghost invariant = { λ s. length s.names.keys ≤ NAMES_MAX };
}

impl NameStore {
    /// No name.
    pub fn new(alloc: Global) -> NameStore
        ensures { result.names ≡ [] }
    {
        NameStore {
            names: IndexSet::new(alloc),
            recent: [KeyId(0); RECENT_SLOTS],
        }
    }

    /// How many names there are.
    pub fn len(&self) -> usize
        ensures len { result ≡ length self.now.names }
        ensures few { length self.now.names ≤ NAMES_MAX }
        ensures differ { Differ self.now.names }
    {
        self.names.len()
    }

    /// The class and the name that a key stands for.
    pub fn name_of(&self, key: KeyId) -> (ClassId, &[u8])
        requires { key.0 < length self.now.names }
        ensures { slice_get self.now.names key.0 ≡ Some (result.0.0, result.1.now) }
    {
        let name = &self.names.as_slice()[key.0 as usize];
        (name.class, name.bytes.as_slice())
    }

    /// The key of a name, which goes last where it is new.
    pub(crate) fn key(&mut self, class: ClassId, name: &[u8]) -> Result<KeyId, NameFail>
        requires { length name.now ≤ NAME_BYTES_MAX }
        ensures differ { Differ self.new.names }
        ensures few { length self.new.names ≤ NAMES_MAX }
        ensures key { IfOk result (λ key. place self.new.names (class.0, name.now) ≡ Some key.0) }
        ensures below { IfOk result (λ key. key.0 < length self.new.names) }
        ensures names { OnOk result (self.new.names ≡ with_name self.old.names (class.0, name.now)) }
        ensures full { IsErrOf result NameFail.Full ↔ IsFull self.new.names (class.0, name.now) }
        ensures unknown { OnErr result (place self.new.names (class.0, name.now) ≡ None) }
        ensures err { OnErr result (self.new.names ≡ self.old.names) }
    {
        if let Some(key) = self.find(class, name) {
            return Ok(key);
        }
        self.add(class, name)
    }

    /// The key of a name that is there.
    pub fn find(&mut self, class: ClassId, name: &[u8]) -> Option<KeyId>
        requires { length name.now ≤ NAME_BYTES_MAX }
        ensures same { self.new ≡ self.old }
        ensures key { IfSome result (λ key. place self.old.names (class.0, name.now) ≡ Some key.0) }
        ensures unknown { IfNone result (place self.old.names (class.0, name.now) ≡ None) }
        ensures few { length self.old.names ≤ NAMES_MAX }
        ensures differ { Differ self.old.names }
    {
        let at = slot(class, name);
        let recent = self.recent[at];
        if self.is_key(recent, class, name) {
            return Some(recent);
        }
        let key = self.look_up(class, name)?;
        self.recent[at] = key;
        Some(key)
    }

    // Whether the key stands for this very name.
    #[inline(always)]
    fn is_key(&self, key: KeyId, class: ClassId, name: &[u8]) -> bool
        ensures differ { Differ self.now.names }
        ensures key { IsTrue result ↔ (place self.now.names (class.0, name.now) ≡ Some key.0) }
    {
        match self.names.as_slice().get(key.0 as usize) {
            Some(known) => known.is(class, name),
            None => false,
        }
    }

    // The key of a name that is there, by its hash. It is kept out of line, so that the usual way stays short.
    #[inline(never)]
    fn look_up(&self, class: ClassId, name: &[u8]) -> Option<KeyId>
        requires { length name.now ≤ NAME_BYTES_MAX }
        ensures key { IfSome result (λ key. place self.now.names (class.0, name.now) ≡ Some key.0) }
        ensures unknown { IfNone result (place self.now.names (class.0, name.now) ≡ None) }
        ensures few { length self.now.names ≤ NAMES_MAX }
        ensures differ { Differ self.now.names }
    {
        let name = MethodName::new(class, name);
        let _count = self.names.len();
        match self.names.get_index_of(&name) {
            Some(at) => Some(KeyId(at as u16)),
            None => None,
        }
    }

    // The key of a name that is new, which goes last.
    #[inline(never)]
    fn add(&mut self, class: ClassId, name: &[u8]) -> Result<KeyId, NameFail>
        requires short { length name.now ≤ NAME_BYTES_MAX }
        requires new { place self.old.names (class.0, name.now) ≡ None }
        ensures differ { Differ self.new.names }
        ensures few { length self.new.names ≤ NAMES_MAX }
        ensures key { IfOk result (λ key. place self.new.names (class.0, name.now) ≡ Some key.0) }
        ensures below { IfOk result (λ key. key.0 < length self.new.names) }
        ensures names { OnOk result (self.new.names ≡ with_name self.old.names (class.0, name.now)) }
        ensures full { IsErrOf result NameFail.Full ↔ IsFull self.new.names (class.0, name.now) }
        ensures unknown { OnErr result (place self.new.names (class.0, name.now) ≡ None) }
        ensures err { OnErr result (self.new.names ≡ self.old.names) }
    {
        let count = self.len();
        if count == NAMES_MAX {
            return Err(NameFail::Full);
        }
        if self.reserve().is_err() {
            return Err(NameFail::NoMemory);
        }
        let key = self.push(class, name);
        let _more = self.len();
        Ok(key)
    }

    /// Takes the memory for one more name.
    pub fn reserve(&mut self) -> Result<(), AllocError>
        ensures names { self.new.names ≡ self.old.names }
        ensures spare { OnOk result (0 < self.new.spare) }
    {
        self.names.reserve(1)
    }

    /// Puts a new name last. There is room for it.
    pub fn push(&mut self, class: ClassId, name: &[u8]) -> KeyId
        requires short { length name.now ≤ NAME_BYTES_MAX }
        requires new { place self.old.names (class.0, name.now) ≡ None }
        requires spare { 0 < self.old.spare }
        requires few { length self.old.names < NAMES_MAX }
        ensures names { self.new.names ≡ self.old.names ++ (class.0, name.now) ∷ [] }
        ensures key { result.0 ≡ length self.old.names }
    {
        let name = MethodName::new(class, name);
        match self.names.insert_full(name) {
            Ok((at, _)) => KeyId(at as u16),
            Err(_) => unreachable!(),
        }
    }

    /// The names alone.
    pub fn into_list(self) -> NameList
        ensures { result ≡ self.names }
    {
        NameList::new(self)
    }
}

// Where the key of a name is kept once it was found. The class, the length and both ends tell most names apart.
#[inline(always)]
fn slot(class: ClassId, name: &[u8]) -> usize
    requires { length name.now ≤ NAME_BYTES_MAX }
    ensures { result < RECENT_SLOTS }
{
    let (Some(first), Some(last)) = (name.first(), name.last()) else {
        return 0;
    };
    let ends = *first as usize + 4 * (*last as usize);
    (ends + 16 * name.len() + class.0 as usize) % RECENT_SLOTS
}
