//! What is true of tables that are laid.

ghost use Rattle.std.specs.Prelude.{◌≡◌, [], length};
ghost use Rattle.hb_tree.specs.Program.{IsProgram};
ghost use Rattle.hb_tree.specs.Table.{Table};
ghost use Rattle.hb_draft.specs.Laid.{IsLaid};
ghost use Rattle.hb_draft.specs.Made.{made_of};
ghost use Rattle.hb_draft.specs.Unfinished.{scripts_in, setup_in};
ghost use Rattle.hb_draft.specs.Whole.{IsWhole};

/// A program whose nodes are all reached has one laid table: two such tables that say the same are equal.
pub fn one_table()
    ensures { (t u : Table) → IsProgram t → IsProgram u → IsLaid t → IsLaid u → IsWhole (length t.nodes) (setup_in t) (scripts_in t)
        → made_of (record { table = t; nodes = [] }) ≡ made_of (record { table = u; nodes = [] }) → t ≡ u }
{}
