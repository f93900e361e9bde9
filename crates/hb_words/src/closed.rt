//! The words when no thread changes them any more.

ghost use Rattle.std.specs.Prelude.{◌≡◌};
ghost use Rattle.core.specs.Mem.Slots.{slots_items, slots_len, IsFull};
ghost use Rattle.hb_words.specs.declared.layout.TheConstants.{WORDS};
ghost use Rattle.hb_words.specs.Words.{AreWords};

use crate::view::Place;
use std::alloc::Global;

/// The words when no thread changes them any more, and what is known of them: the whole history.
pub struct Closed {
    pub(crate) words: atomic_table::Closed<(), Global>,
    pub(crate) memory: Place,
    ghost full: { IsFull words.words × (slots_len words.words ≡ WORDS) × (slots_len words.slots ≡ 0) },
    ghost are: { AreWords memory.me.0.seen (slots_items words.words) },
}

impl Drop for Closed {
    fn drop(self) {
        let Self { words, memory: _ } = self;
        words.free();
    }
}
