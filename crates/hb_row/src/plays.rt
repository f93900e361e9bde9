//! What each step tells.

use crate::view::View;
use atomic_table::Play;
use std::marker::{Brand, PhantomData};

/// A name, which each try for a place picks.
pub trait Offered {
    ghost use Rattle.hb_names.specs.Names.{Name};

    ghost name: { Name };
}

impl Offered for Brand {
    ghost use Rattle.std.specs.Prelude.{[]};

    ghost name = { (0, []) };
}

/// A word of the next offer is stored.
pub struct Drafts;

impl Play<(), View> for Drafts {
    ghost use Rattle.hb_row.specs.Row.{drafts};

    ghost then = { drafts };
}

/// The first unknown place is tried for a name.
pub struct Places<A: Offered> {
    of: PhantomData<A>,
}

impl<A: Offered> Play<(), View> for Places<A> {
    ghost use Rattle.hb_row.specs.Row.{places};

    ghost then = { places A.name };
}

/// The first unknown place is read.
pub struct Reads;

impl Play<(), View> for Reads {
    ghost use Rattle.hb_row.specs.Row.{reads};

    ghost then = { reads };
}

/// A word of an offer that stands at a known place is read.
pub struct Spells;

impl Play<(), View> for Spells {
    ghost use Rattle.hb_row.specs.Row.{spells};

    ghost then = { spells };
}
