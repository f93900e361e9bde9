//! What a thread has learned of the cells.

ghost use Rattle.std.specs.Prelude.{◌≡◌, ℕ, List, None, IfOk};
ghost use Rattle.hb_shared.specs.Cells.{Cell};
ghost use Rattle.hb_shared.specs.Notes.{AreNotesOf, Agree, known_at};

use crate::cells::Published;
use once_cell::race::{Note, OnceBox};
use std::alloc::{AllocError, Global};
use std::marker::Model;

/// What a thread has learned of the cells: a note of each, in their order. Only proofs read it, and a note takes no bytes.
#[derive(Drop)]
pub struct Notes {
    pub(crate) list: Vec<Note<Published>>,
}

impl Model for Notes {
    ghost use Rattle.std.specs.Prelude.{List};
    ghost use Rattle.once_cell.specs.declared.race.note.Note.{Note};
    ghost use Rattle.hb_shared.specs.declared.cells.Published.{Published};

    ghost Value = { List (Note Published) };

    ghost view = { λ notes. notes.list.items };
}

impl Notes {
    /// Notes of the same cells, of any two threads: where both know what is in a cell, they know the same.
    pub fn compare(&mut self, other: Notes)
        requires same { (cells : List Cell) × AreNotesOf cells self.old × AreNotesOf cells other }
        ensures kept { self.new ≡ self.old }
        ensures agree { Agree self.old other }
    {
        compare_each(&mut self.list, other.list);
    }
}

// Each note with that of the same place.
fn compare_each(notes: &mut Vec<Note<Published>>, others: Vec<Note<Published>>)
    requires same { (cells : List Cell) × AreNotesOf cells notes.old.items × AreNotesOf cells others.items }
    ensures kept { notes.new.items ≡ notes.old.items }
    ensures agree { Agree notes.old.items others.items }
{
    let mut others = others;
    while let Some(other) = others.pop() {
        notes[others.len()].compare(other);
    }
}

// Notes of these cells that know nothing yet.
pub(crate) fn notes_of(
    alloc: Global,
    cells: &Vec<OnceBox<Published>>,
) -> Result<Vec<Note<Published>>, AllocError>
    ensures notes { IfOk result (λ notes. AreNotesOf cells.now.items notes.items) }
    ensures nothing { IfOk result (λ notes. (at : ℕ) → known_at notes.items at ≡ None) }
{
    let mut notes = Vec::new(alloc);
    for cell in cells {
        notes.push(cell.note())?;
    }
    Ok(notes)
}
