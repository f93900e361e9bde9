//! Where the words of a key stand, and how each is laid out. (docs/ARCHITECTURE.md, "Tables without a lock")

ghost use Rattle.std.specs.Prelude.{◌≡◌, ◌<◌};
ghost use Rattle.hb_words.specs.Layout.{type_at, def_at, pins_in, ty_in, changes_in, redefs_in, look_in, IsDefWord, retyped_word, redefined_word};

use hb_names::NAMES_MAX;
use hb_tables::desk::{Held, Look};
use hb_tables::entry::{BODIES_MAX, VERSIONS_MAX};
use hb_tree::limits::TYPES_MAX;
use hb_types::ids::{BodySite, KeyId, TypeSite};

/// The greatest number of callers: the setup, and the scripts.
pub const CALLERS_MAX: usize = 17;

/// The number of words: one for the seats, and two for each key.
pub const WORDS: usize = 2 * NAMES_MAX + 1;

// The word for the seats.
pub(crate) const SEATS: usize = 0;

// In a type word the pins stand from bit 0 on, the type's site plus one from bit 24 on, and the count of changes from bit 40 on.
const TYPE_UNIT: u64 = 1 << 24;

const TYPE_CODES: u64 = 1 << 16;

const CHANGE_UNIT: u64 = 1 << 40;

// In a def word the definition's site plus one stands from bit 0 on, and the count of changes from bit 32 on.
const REDEF_UNIT: u64 = 1 << 32;

/// The place of a key's type word.
pub(crate) fn type_index(key: KeyId) -> usize
    requires { key.0 < NAMES_MAX }
    ensures { result ≡ type_at key.0 }
{
    1 + 2 * key.0 as usize
}

/// The place of a key's def word.
pub(crate) fn def_index(key: KeyId) -> usize
    requires { key.0 < NAMES_MAX }
    ensures { result ≡ def_at key.0 }
{
    2 + 2 * key.0 as usize
}

/// How many calls hold the key of a type word.
pub(crate) fn pins_of(word: u64) -> u32
    ensures { result ≡ pins_in word }
{
    (word % TYPE_UNIT) as u32
}

/// How often the type of a type word was changed.
pub(crate) fn changes_of(word: u64) -> u32
    ensures { result ≡ changes_in word }
{
    (word / CHANGE_UNIT) as u32
}

/// What a hold found that found this type word.
pub(crate) fn held_of(word: u64) -> Held
    ensures ty { result.ty ≡ ty_in word }
    ensures changes { result.changes ≡ changes_in word }
{
    let code = word / TYPE_UNIT % TYPE_CODES;
    Held {
        ty: if code == 0 {
            None
        } else {
            Some(TypeSite((code - 1) as u16))
        },
        changes: changes_of(word),
    }
}

/// The type word of this site that follows one without pins, with one change more.
pub(crate) fn retyped(site: TypeSite, old: u64) -> u64
    requires site { site.0 < TYPES_MAX }
    requires old { changes_in old < VERSIONS_MAX }
    ensures { result ≡ retyped_word site old }
{
    (site.0 as u64 + 1) * TYPE_UNIT + (old / CHANGE_UNIT + 1) * CHANGE_UNIT
}

/// How often the definition of a def word was changed.
pub(crate) fn redefs_of(word: u64) -> u32
    ensures { result ≡ redefs_in word }
{
    (word / REDEF_UNIT) as u32
}

/// What a look found that found this def word.
pub(crate) fn look_of(word: u64) -> Look
    requires { IsDefWord word }
    ensures { result ≡ look_in word }
{
    let code = word % REDEF_UNIT;
    Look {
        site: if code == 0 {
            None
        } else {
            Some(BodySite((code - 1) as u16))
        },
        changes: redefs_of(word),
    }
}

/// The def word of this site that follows another, with one change more.
pub(crate) fn redefined(site: BodySite, old: u64) -> u64
    requires site { site.0 < BODIES_MAX }
    requires old { redefs_in old < VERSIONS_MAX }
    ensures { result ≡ redefined_word site old }
{
    (site.0 as u64 + 1) + (old / REDEF_UNIT + 1) * REDEF_UNIT
}
