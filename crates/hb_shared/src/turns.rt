//! The cells in turn, with what notes of them learn.

ghost use Rattle.std.specs.Prelude.{◌≡◌, ◌<◌, ◌≤◌, length, None, MatchResult};
ghost use Rattle.std.specs.Option.{MatchOption};
ghost use Rattle.hb_shared.specs.declared.cells.TheConstants.{CELLS_MAX};
ghost use Rattle.hb_shared.specs.Notes.{AreNotesOf, known_at, KeepKnown, IsTaken, Learns, Puts, Sees, Takes, IsFull, Finds, KnowsNoneFrom};

use crate::cells::{CALLER_CELLS, CELLS_MAX, Published, first_of, has_cell};
use hb_types::ids::CallerId;
use once_cell::race::{Note, OnceBox};

// Offers the item to one cell, which gives it back where it is taken.
fn put(
    cells: &Vec<OnceBox<Published>>,
    at: u32,
    item: Box<Published>,
    notes: &mut Vec<Note<Published>>,
) -> Result<(), Box<Published>>
    requires at { at < length cells.now.items }
    requires notes { AreNotesOf cells.now.items notes.old.items }
    ensures notes { AreNotesOf cells.now.items notes.new.items }
    ensures learns { Learns at notes.old.items notes.new.items }
    ensures put { MatchResult result (λ _. Puts item.value at notes.old.items notes.new.items) (λ back. (back.value ≡ item.value) × IsTaken notes.new.items at) }
{
    cells[at as usize].set_as(item, &mut notes[at as usize])
}

// What is in one cell.
fn look<'a>(
    cells: &'a Vec<OnceBox<Published>>,
    at: u32,
    notes: &mut Vec<Note<Published>>,
) -> Option<&'a Published>
    requires at { at < length cells.now.items }
    requires notes { AreNotesOf cells.now.items notes.old.items }
    ensures notes { AreNotesOf cells.now.items notes.new.items }
    ensures learns { Learns at notes.old.items notes.new.items }
    ensures seen { MatchOption result (known_at notes.old.items at ≡ None) (λ published. Sees published.now at notes.old.items notes.new.items) }
{
    cells[at as usize].get_as(&mut notes[at as usize])
}

// Offers the item to the caller's cells in turn.
pub(crate) fn offer(
    cells: &Vec<OnceBox<Published>>,
    caller: CallerId,
    item: Box<Published>,
    notes: &mut Vec<Note<Published>>,
) -> Option<u32>
    requires wide { length cells.now.items ≡ CELLS_MAX }
    requires caller { (1 ≤ caller.0) × (caller.0 ≤ 16) }
    requires own { item.value.caller ≡ caller }
    requires notes { AreNotesOf cells.now.items notes.old.items }
    ensures notes { AreNotesOf cells.now.items notes.new.items }
    ensures kept { KeepKnown notes.old.items notes.new.items }
    ensures taken { MatchOption result (IsFull caller notes.new.items) (Takes item.value notes.old.items notes.new.items) }
{
    let first = first_of(caller);
    let mut item = item;
    for at in first..first + CALLER_CELLS {
        match put(cells, at, item, notes) {
            Ok(()) => return Some(at),
            Err(back) => item = back,
        }
    }
    None
}

// The first from the index on that is its owner's.
pub(crate) fn search<'a>(
    cells: &'a Vec<OnceBox<Published>>,
    index: u32,
    notes: &mut Vec<Note<Published>>,
) -> Option<(u32, &'a Published)>
    requires wide { length cells.now.items ≡ CELLS_MAX }
    requires notes { AreNotesOf cells.now.items notes.old.items }
    ensures notes { AreNotesOf cells.now.items notes.new.items }
    ensures kept { KeepKnown notes.old.items notes.new.items }
    ensures found { MatchOption result (KnowsNoneFrom index CELLS_MAX notes.old.items) (λ found. Finds index notes.old.items notes.new.items found.0 found.1.now) }
{
    for at in index..CELLS_MAX {
        if let Some(published) = look(cells, at, notes)
            && has_cell(published.caller, at)
        {
            return Some((at, published));
        }
    }
    None
}
