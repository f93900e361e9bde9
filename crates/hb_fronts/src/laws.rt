//! What is true of callers whose fronts are put together.

ghost use Rattle.std.specs.Prelude.{ℕ, List, ◌∷◌};
ghost use Rattle.hb_tree.specs.Table.{Table};
ghost use Rattle.hb_names.specs.Names.{Name};
ghost use Rattle.hb_tables.specs.declared.entry.Entry.{Entry};
ghost use Rattle.hb_eval.specs.Told.{Told};
ghost use Rattle.hb_run.specs.History.{IsHistory};
ghost use Rattle.hb_fronts.specs.Exits.{AreAllExits, IsJoined, View};

/// Callers ran to their ends, each over a front of its own. Where a legal list begins with each front and has no other acts, and each of its names was asked for by one of them, it is a history of the program.
pub fn fronts_make_a_history()
    ensures { (t : Table) (limit steps : ℕ) (names : List Name) (log : List Entry) (first : View) (others : List View) (runs : List Told)
        → AreAllExits t steps t.setup first others runs → IsJoined limit names log (first ∷ others) → IsHistory t limit steps names log runs }
{}
