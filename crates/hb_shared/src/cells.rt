//! The cells, by caller.

ghost use Rattle.std.specs.Prelude.{◌≡◌, ◌≤◌, IsTrue, ◌↔◌};
ghost use Rattle.hb_shared.specs.Cells.{first_of, owner_of};

use hb_deriv::raw::RawDerivation;
use hb_types::ids::CallerId;

/// How many cells there are.
pub const CELLS_MAX: u32 = 1_024;

/// How many of them each of the 16 callers has.
pub const CALLER_CELLS: u32 = 64;

/// A derivation, and who published it. Nothing is known of the derivation.
#[derive(Debug, Drop)]
pub struct Published {
    pub caller: CallerId,
    pub derivation: RawDerivation,
}

// The first of a caller's cells.
pub(crate) fn first_of(caller: CallerId) -> u32
    requires { 1 ≤ caller.0 }
    ensures { result ≡ first_of caller.0 }
{
    (caller.0 as u32 - 1) * CALLER_CELLS
}

// Whether the caller is the one who has the cell.
pub(crate) fn has_cell(caller: CallerId, at: u32) -> bool
    ensures { IsTrue result ↔ (caller.0 ≡ owner_of at) }
{
    caller.0 as u32 == at / CALLER_CELLS + 1
}
