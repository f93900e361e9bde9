//! What is true of every history.

ghost use Rattle.std.specs.Prelude.{ℕ, List};
ghost use Rattle.std.specs.List.{AllByRecursion};
ghost use Rattle.hb_tree.specs.Program.{IsProgram};
ghost use Rattle.hb_tree.specs.Roots.{IsReachedOnce};
ghost use Rattle.hb_tree.specs.Table.{Table};
ghost use Rattle.hb_names.specs.Names.{Name};
ghost use Rattle.hb_tables.specs.declared.entry.Entry.{Entry};
ghost use Rattle.hb_eval.specs.Told.{Told};
ghost use Rattle.hb_run.specs.History.{IsHistory};
ghost use Rattle.hb_run.specs.Headline.{KeepsPromise, StopsInBodies};

/// Each call enters its body exactly where a fresh check succeeds in the tables at its place, no type that a live frame uses is changed, and a run stops for a named cause or at a node of its own block. So where no node of the program is reached twice, a stop at a node in a body is for a named cause.
pub fn histories_keep_the_promise()
    ensures promise { (t : Table) (limit steps : ℕ) (names : List Name) (log : List Entry) (runs : List Told) → IsHistory t limit steps names log runs → KeepsPromise t names log runs }
    ensures bodies { (t : Table) (limit steps : ℕ) (names : List Name) (log : List Entry) (runs : List Told) → IsProgram t → IsReachedOnce t
        → IsHistory t limit steps names log runs → AllByRecursion (StopsInBodies t) runs }
{
    hb_tables::laws::verdict_is_the_judgement();
    hb_tables::laws::frames_keep_types();
    hb_sound::laws::stops_in_bodies_are_named();
}
