//! The way back from the canonical text of a program.

ghost use Rattle.std.specs.Prelude.{ℕ, List};
ghost use Rattle.hb_lex.specs.Text.{HasTokens};
ghost use Rattle.hb_lex.specs.declared.spans.Token.{Token};
ghost use Rattle.hb_tree.specs.Canon.{canon};
ghost use Rattle.hb_tree.specs.Program.{IsProgram};
ghost use Rattle.hb_tree.specs.Table.{Table};
ghost use Rattle.hb_build.specs.Said.{Said, said_in};
ghost use Rattle.hb_parse.specs.Text.{IsProgramOf, Says};
ghost use Rattle.hb_canonical.specs.Same.{IsSameButPlaces};

/// The canonical text of a program reads back as the same program, but for the places of its nodes, where the program
/// is one that a text says.
pub fn reads_back()
    ensures { (text : List ℕ) (tokens others : List Token) (t : Table)
        → HasTokens text tokens → IsProgram t → IsProgramOf text tokens t → HasTokens (canon t) others
        → (again : Said) × Says (canon t) others again × IsSameButPlaces (said_in t) again }
{}
