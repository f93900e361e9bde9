//! A caller's door to the row.

ghost use Rattle.std.specs.Prelude.{◌≡◌};
ghost use Rattle.hb_row.specs.Seats.{IsSeatOf};

use crate::row::NameRow;
use crate::seat::NameSeat;
use hb_names::{NameFail, Names};
use hb_types::ids::{ClassId, KeyId};
use std::alloc::Global;

/// One caller's door to the row, by which it asks for keys. (docs/ARCHITECTURE.md, "The row of names")
#[derive(Drop)]
pub struct NameDoor<'a> {
    row: &'a NameRow,
    seat: &'a mut NameSeat,
    ghost fits: { IsSeatOf row.now.table.shared.table_id seat.now },
}

impl<'a> NameDoor<'a> {
    /// The door of the caller that has this seat.
    pub fn new(row: &'a NameRow, seat: &'a mut NameSeat) -> NameDoor<'a>
        requires { IsSeatOf row.now.table.shared.table_id seat.old }
        ensures row { result.row.now ≡ row.now }
        ensures seat { (result.seat.ghost_name ≡ seat.entry.ghost_name) × (result.seat.now ≡ seat.old) }
    {
        NameDoor { row, seat }
    }
}

impl Names for NameDoor<'_> {
    ghost use Rattle.hb_row.specs.{Doors.IsSameDoor, Doors.same_itself, Doors.same_on, Seats.known_of, Seats.asked_by};

    ghost known = { λ d. known_of d.seat.now };

    ghost asked = { λ d. asked_by d.seat.now };

    ghost alike = { IsSameDoor };

    ghost alike_itself = { same_itself };

    ghost alike_on = { same_on };

    fn key(&mut self, _alloc: Global, class: ClassId, name: &[u8]) -> Result<KeyId, NameFail> {
        self.row.key(self.seat, class, name)
    }

    fn name_of(&self, key: KeyId) -> (ClassId, &[u8]) {
        self.seat.names.name_of(key)
    }
}
