//! What is true of histories whose names stand in another order.

ghost use Rattle.std.specs.Prelude.{◌≤◌, ℕ, List, length};
ghost use Rattle.hb_tree.specs.Table.{Table};
ghost use Rattle.hb_names.specs.Names.{Differ, Name};
ghost use Rattle.hb_tables.specs.declared.entry.Entry.{Entry};
ghost use Rattle.hb_eval.specs.Told.{Told};
ghost use Rattle.hb_run.specs.History.{IsHistory};
ghost use Rattle.hb_renamed.specs.Renaming.{DifferInOrder, HaveSameNames, moved, renamed};

/// A history is one by each order of its names, with the same runs: each act then has the key of its name in that order.
pub fn names_in_another_order_have_a_history()
    ensures { (t : Table) (limit steps : ℕ) (names others : List Name) (log : List Entry) (runs : List Told) → Differ others → HaveSameNames names others
        → IsHistory t limit steps names log runs → IsHistory t limit steps others (renamed (moved names others) log) runs }
{}

/// Two histories of a program of at most one script differ in the order of their names at most, and have the same runs.
pub fn one_script_has_one_history()
    ensures { (t : Table) (limit steps : ℕ) (names others : List Name) (log second : List Entry) (runs told : List Told) → length t.scripts ≤ 1
        → IsHistory t limit steps names log runs → IsHistory t limit steps others second told → DifferInOrder names others log second runs told }
{}
