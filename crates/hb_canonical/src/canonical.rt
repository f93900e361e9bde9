//! What is true of the canonical text of every program.

ghost use Rattle.std.specs.Prelude.{◌≡◌, List, map};
ghost use Rattle.hb_lex.specs.Text.{HasTokens};
ghost use Rattle.hb_lex.specs.declared.spans.Token.{Token};
ghost use Rattle.hb_grammar.specs.Language.{Act, HasActions, IsProgramText, kinds_of};
ghost use Rattle.hb_tree.specs.Canon.{canon, pieces_of};
ghost use Rattle.hb_tree.specs.Program.{IsProgram};
ghost use Rattle.hb_tree.specs.Table.{Table};
ghost use Rattle.hb_build.specs.Said.{said_in};
ghost use Rattle.hb_canonical.specs.Canonical.{HasPieces};
ghost use Rattle.hb_canonical.specs.Deeds.{deeds_in, deeds_of};

/// The canonical text of a program has exactly the tokens that its pieces say, and these are the tokens of a program.
pub fn canonical_tokens()
    ensures pieces { (t : Table) → IsProgram t → HasPieces (canon t) (pieces_of t) }
    ensures program { (t : Table) → IsProgram t → IsProgramText (map (λ piece. piece.kind) (pieces_of t)) }
{}

/// What is done for the canonical text of a program, in which order and with which words, is what the definition writes
/// down from what the program says.
pub fn canonical_deeds()
    ensures { (t : Table) (tokens : List Token) → IsProgram t → HasTokens (canon t) tokens
        → (done : List Act) × HasActions (kinds_of tokens) done × (deeds_in (canon t) tokens done ≡ deeds_of (said_in t)) }
{}
