//! What a step tells, by its kind.

use crate::view::View;
use atomic_table::Play;
use std::marker::{Brand, PhantomData};

/// The kind of a step, which each call of one picks.
pub trait Kinds {
    ghost use Rattle.hb_words.specs.Kinds.{Kind};

    ghost kind: { Kind };
}

impl Kinds for Brand {
    ghost use Rattle.hb_words.specs.Kinds.{quiets};

    ghost kind = { quiets };
}

/// A step of this kind tells what such a step tells.
pub struct Tells<K: Kinds> {
    of: PhantomData<K>,
}

impl<K: Kinds> Play<(), View> for Tells<K> {
    ghost use Rattle.hb_words.specs.Kinds.{told};

    ghost then = { told K.kind };
}
