//! Laws of the whole history.

ghost use Rattle.std.specs.Prelude.{◌≡◌, ℕ, List, ◌∷◌, ◌++◌};
ghost use Rattle.hb_tree.specs.Table.{Table};
ghost use Rattle.hb_names.specs.Names.{Name};
ghost use Rattle.hb_tables.specs.declared.entry.Entry.{Entry};
ghost use Rattle.hb_tables.specs.Rows.{FitsCall, HasCallRows};
ghost use Rattle.hb_words.specs.declared.view.Front.{Front};
ghost use Rattle.hb_words.specs.Words.{Stands, IsWhole};

/// Where the calls of each caller are decided in its front as their rows say, all are in the whole history.
pub fn fronts_make_the_history()
    ensures { (t : Table) (names : List Name) (log : List Entry) (limit made : ℕ) (all : List Front) → IsWhole log limit made all
        → ((f : Front) → Stands f all → (before after : List Entry) (e : Entry) → f.seen ≡ before ++ e ∷ after → e.caller.0 ≡ f.caller → FitsCall t names e.caller.0 before e.act)
        → HasCallRows t names log }
{}
