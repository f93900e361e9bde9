//! What is true of a row between any two steps.

ghost use Rattle.std.specs.Prelude.{◌≡◌, ◌≤◌, ◌<◌, ℕ, true, List, length};
ghost use mathlib.Core.{Option.some, List.IsPrefix};
ghost use lib.ListN.{get_elem?};
ghost use Rattle.atomic_table.specs.Table.{State};
ghost use Rattle.hb_names.specs.Names.{Name};
ghost use Rattle.hb_row.specs.{declared.view.View.View, Row.Rowed, Seats.Tells, Seats.IsRowOf};

use hb_names::NAMES_MAX;

/// There is one list of names. Its names differ, the words tell them in order, and it begins with the names that a seat knows.
pub fn rows_have_one_list()
    ensures { (s : State (Unit {0}) View) → Rowed s → (names : List Name) × IsRowOf s names }
{}

/// The words of a row tell one list alone.
pub fn words_tell_one_list()
    ensures { (words : List ℕ) (names others : List Name) → Tells words names → Tells words others → length names ≡ length others }
{}

/// A seat that knows as many names as there may be knows the whole list.
pub fn full_rows_are_known()
    ensures { (s : State (Unit {0}) View) (names : List Name) (j : ℕ) (v : View) → IsRowOf s names → get_elem? s.views j ≡ some v → v.live ≡ true → length v.known ≡ NAMES_MAX → v.known ≡ names }
{}
