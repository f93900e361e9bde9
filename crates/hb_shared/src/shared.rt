//! The cells that threads share.

ghost use Rattle.std.specs.Prelude.{◌≡◌, ℕ, ◌+◌, ◌<◌, ◌≤◌, length, None, IfOk, IfSome};
ghost use Rattle.std.specs.Option.{MatchOption};
ghost use Rattle.hb_shared.specs.declared.cells.TheConstants.{CELLS_MAX};
ghost use Rattle.hb_shared.specs.Cells.{Cell, first_of, IsOneFrom};
ghost use Rattle.hb_shared.specs.Notes.{AreNotesOf, known_at, KeepKnown, Takes, IsFull, Finds, KnowsNoneFrom};

use crate::cells::{CELLS_MAX, Published, has_cell};
use crate::notes::{Notes, notes_of};
use crate::turns::{offer, search};
use hb_deriv::raw::RawDerivation;
use hb_types::ids::CallerId;
use once_cell::race::OnceBox;
use std::alloc::{AllocError, Global};
use std::marker::Model;

/// Cells for what the scripts of a run publish: 64 for each caller from 1 to 16, in the order of the callers. Each is set at most once.
#[derive(Drop)]
pub struct SharedDerivations {
    cells: Vec<OnceBox<Published>>,
}

impl Model for SharedDerivations {
    ghost use Rattle.std.specs.Prelude.{◌≡◌, List, length};
    ghost use Rattle.hb_shared.specs.declared.cells.TheConstants.{CELLS_MAX};
    ghost use Rattle.hb_shared.specs.Cells.{Cell};

    ghost Value = { List Cell };

    ghost view = { λ shared. shared.cells.items };

    ghost invariant = { λ shared. length shared.cells.items ≡ CELLS_MAX };
}

impl SharedDerivations {
    /// Empty cells.
    pub fn new(alloc: Global) -> Result<SharedDerivations, AllocError> {
        let mut cells = Vec::new(alloc);
        cells.resize_with(CELLS_MAX as usize, || OnceBox::new(alloc))?;
        Ok(SharedDerivations { cells })
    }

    /// Notes that know nothing yet of these cells.
    pub fn notes(&self, alloc: Global) -> Result<Notes, AllocError>
        ensures notes { IfOk result (λ notes. AreNotesOf self.now notes) }
        ensures nothing { IfOk result (λ notes. (at : ℕ) → known_at notes at ≡ None) }
    {
        Ok(Notes {
            list: notes_of(alloc, &self.cells)?,
        })
    }

    /// Offers a derivation to the caller's cells in turn until one keeps it, and drops it where all are taken.
    pub fn publish(
        &self,
        alloc: Global,
        caller: CallerId,
        derivation: RawDerivation,
    ) -> Result<(), AllocError>
        requires caller { (1 ≤ caller.0) × (caller.0 ≤ 16) }
    {
        let mut notes = self.notes(alloc)?;
        self.publish_as(alloc, caller, derivation, &mut notes)?;
        Ok(())
    }

    /// Publishes, and answers which cell keeps the derivation: the first that was free, or none where all the caller's are taken.
    pub fn publish_as(
        &self,
        alloc: Global,
        caller: CallerId,
        derivation: RawDerivation,
        notes: &mut Notes,
    ) -> Result<Option<u32>, AllocError>
        requires caller { (1 ≤ caller.0) × (caller.0 ≤ 16) }
        requires notes { AreNotesOf self.now notes.old }
        ensures notes { AreNotesOf self.now notes.new }
        ensures kept { KeepKnown notes.old notes.new }
        ensures taken { IfOk result (λ cell. MatchOption cell (IsFull caller notes.new) (Takes (record { caller = caller; derivation = derivation }) notes.old notes.new)) }
    {
        let item = Box::new(alloc, Published { caller, derivation })?;
        Ok(offer(&self.cells, caller, item, &mut notes.list))
    }

    /// The first that is published at or after the index.
    pub fn next_from(&self, index: u32) -> Option<(u32, &Published)>
        ensures { IfSome result (λ found. IsOneFrom index found.0 found.1.now) }
    {
        for at in index..CELLS_MAX {
            if let Some(published) = self.cells[at as usize].get()
                && has_cell(published.caller, at)
            {
                return Some((at, published));
            }
        }
        None
    }

    /// The first that is published at or after the index. What is known is not passed over.
    pub fn next_from_as(&self, index: u32, notes: &mut Notes) -> Option<(u32, &Published)>
        requires notes { AreNotesOf self.now notes.old }
        ensures notes { AreNotesOf self.now notes.new }
        ensures kept { KeepKnown notes.old notes.new }
        ensures found { MatchOption result (KnowsNoneFrom index CELLS_MAX notes.old) (λ found. Finds index notes.old notes.new found.0 found.1.now) }
    {
        search(&self.cells, index, &mut notes.list)
    }
}
