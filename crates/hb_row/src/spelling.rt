//! How a name is spelt in the words of an offer.

ghost use Rattle.std.specs.Prelude.{◌≡◌, ◌<◌, ◌≤◌, ◌/◌, ◌%◌, ◌-◌, ◌≢◌, length, drop, slice_index};
ghost use Rattle.hb_names.specs.Names.{Name, same};
ghost use Rattle.hb_row.specs.Row.{packed, spelt, IsValid};
ghost use Rattle.hb_row.specs.Spelling.{IsSpelt, said, Left};

use arrayvec::ArrayVec;
use hb_names::NAME_BYTES_MAX;
use hb_types::ids::ClassId;

/// How many words an offer has.
pub(crate) const OFFER_WORDS: usize = 9;

/// A name that was read from the words of an offer.
#[derive(Drop)]
pub(crate) struct Spelled {
    pub class: ClassId,
    pub bytes: ArrayVec<u8, NAME_BYTES_MAX>,
}

impl Spelled {
    /// Whether it is this very name.
    pub(crate) fn is(&self, class: ClassId, name: &[u8]) -> bool
        ensures { result ≡ same (said self.now) (class.0, name.now) }
    {
        self.class == class && self.bytes.as_slice() == name
    }
}

/// A word of the offer of a name.
pub(crate) fn offer_word(class: ClassId, name: &[u8], number: usize) -> u64
    requires short { length name.now ≤ NAME_BYTES_MAX }
    requires number { number < 9 }
    ensures { result ≡ spelt (class.0, name.now) number }
{
    if number == 0 {
        return 256 * class.0 as u64 + name.len() as u64;
    }
    let start = 8 * (number - 1);
    if name.len() <= start {
        return 0;
    }
    packed_word(&name[start..])
}

// The first eight bytes as a word.
fn packed_word(bytes: &[u8]) -> u64
    ensures { result ≡ packed 8 bytes.now }
{
    let mut word = 0;
    let mut at = 8;
    while at > 0 {
        at -= 1;
        word = 256 * word + byte_at(bytes, at) as u64;
    }
    word
}

// The byte at a place, or 0 past the end.
fn byte_at(bytes: &[u8], at: usize) -> u8
    ensures { result ≡ slice_index bytes.now at }
{
    if at < bytes.len() { bytes[at] } else { 0 }
}

/// The name that these words spell.
pub(crate) fn decode(words: &[u64; OFFER_WORDS]) -> Spelled
    requires { (name : Name) × IsValid name × IsSpelt name words.now }
    ensures { (name : Name) → IsValid name → IsSpelt name words.now → said result ≡ name }
{
    let count = (words[0] % 256) as usize;
    let class = ClassId((words[0] / 256) as u8);
    let mut bytes = ArrayVec::new();
    let mut left = 0;
    let mut at = 0;
    while at < count {
        let word = word_from(words, left, at);
        bytes.push((word % 256) as u8);
        left = word / 256;
        at += 1;
    }
    Spelled { class, bytes }
}

// The bytes from a place on that are in the same word: the next word, or what is left of the last one.
fn word_from(words: &[u64; OFFER_WORDS], left: u64, at: usize) -> u64
    requires { at < NAME_BYTES_MAX }
    ensures { (name : Name) → IsSpelt name words.now → Left name left at → result ≡ packed (8 - at % 8) (drop at name.1) }
{
    if at % 8 == 0 { words[1 + at / 8] } else { left }
}
