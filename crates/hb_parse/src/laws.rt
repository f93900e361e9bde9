//! What is true of every text and its tokens.

ghost use Rattle.std.specs.Prelude.{◌≡◌, ℕ, List};
ghost use Rattle.hb_lex.specs.declared.spans.Token.{Token};
ghost use Rattle.hb_lex.specs.Text.{HasTokens};
ghost use Rattle.hb_tree.specs.Program.{IsProgram};
ghost use Rattle.hb_tree.specs.Table.{Table};
ghost use Rattle.hb_build.specs.declared.faults.ParseFail.{ParseFail};
ghost use Rattle.hb_draft.specs.Laid.{IsLaid};
ghost use Rattle.hb_build.specs.Said.{Said};
ghost use Rattle.hb_parse.specs.Places.{HasDifferentPlaces};
ghost use Rattle.hb_parse.specs.Text.{IsFault, IsProgramOf, Says};

/// Tokens of a text say one program or have one first fault, and never both.
pub fn one_answer()
    ensures said { (text : List ℕ) (tokens : List Token) (a b : Said) → Says text tokens a → Says text tokens b → a ≡ b }
    ensures apart { (text : List ℕ) (tokens : List Token) (said : Said) (fault : ParseFail)
        → Says text tokens said → IsFault text tokens fault → ⊥ }
    ensures fault { (text : List ℕ) (tokens : List Token) (e f : ParseFail)
        → IsFault text tokens e → IsFault text tokens f → e ≡ f }
{}

/// A text has one laid program: two are equal in each list of their tables.
pub fn one_program()
    ensures { (text : List ℕ) (tokens : List Token) (a b : Table)
        → HasTokens text tokens → IsProgram a → IsProgram b → IsLaid a → IsLaid b
        → IsProgramOf text tokens a → IsProgramOf text tokens b → a ≡ b }
{}

/// Nodes other than blocks of the program that a text says have different places.
pub fn different_places()
    ensures { (text : List ℕ) (tokens : List Token) (program : Table)
        → HasTokens text tokens → IsProgramOf text tokens program → HasDifferentPlaces program }
{}
