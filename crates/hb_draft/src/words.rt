//! Byte strings that differ, numbered by their first occurrence.

ghost use Rattle.std.specs.Prelude.{◌≡◌, [], List, length, map, slice_get, position, Some, bytes_eq, IfOk, OnOk, OnErr, take};
ghost use Rattle.std.specs.List.{IsDistinct, position_or_len};
ghost use Rattle.hb_draft.specs.Words.{with_word};

use indexmap::IndexSet;
use std::alloc::{AllocError, Global};
use std::marker::Model;

/// Words of which no two are equal. Each is found by its bytes, without going through the others.
#[derive(Drop)]
pub struct Words {
    alloc: Global,
    set: IndexSet<Vec<u8>>,
}

impl Model for Words {
    ghost use Rattle.std.specs.Prelude.{ℕ, List, map};

    ghost Value = { List (List ℕ) };

    ghost view = { λ w. map (λ v. v.items) w.set.keys };
}

impl Words {
    pub fn new(alloc: Global) -> Words
        ensures { result ≡ [] }
    {
        Words {
            alloc,
            set: IndexSet::new(alloc),
        }
    }

    pub fn len(&self) -> usize
        ensures len { result ≡ length self.now }
        ensures apart { IsDistinct bytes_eq self.now }
    {
        self.set.len()
    }

    /// The number of a word that is there.
    pub fn find(&self, word: &[u8]) -> Option<usize>
        ensures { result ≡ position (bytes_eq word.now) self.now }
    {
        self.set.get_index_of(word)
    }

    /// The number of a word, which goes last where it is new.
    pub fn number(&mut self, word: &[u8]) -> Result<usize, AllocError>
        ensures words { OnOk result (self.new ≡ with_word self.old word.now) }
        ensures number { IfOk result (λ i. i ≡ position_or_len (bytes_eq word.now) self.old) }
        ensures place { IfOk result (λ i. slice_get self.new i ≡ Some word.now) }
        ensures err { OnErr result (self.new ≡ self.old) }
    {
        match self.set.get_index_of(word) {
            Some(i) => Ok(i),
            None => {
                let copy = Vec::from_slice(self.alloc, word)?;
                let (i, _) = self.set.insert_full(copy)?;
                Ok(i)
            }
        }
    }

    /// Forgets the words past the first `count`.
    pub fn truncate(&mut self, count: usize)
        ensures { self.new ≡ take count self.old }
    {
        self.set.truncate(count);
    }

    /// The words in their order.
    pub fn into_vec(self) -> Result<Vec<Vec<u8>>, AllocError>
        ensures { IfOk result (λ v. map (λ w. w.items) v.items ≡ self) }
    {
        let Words { alloc, set } = self;
        set.into_iter().collect(alloc)
    }
}
