ghost use Rattle.std.specs.Prelude.{◌≡◌, ◌≤◌, ℕ, List, All, Some, length};
ghost use Rattle.hb_lex.specs.Fault.{IsFaultOf};
ghost use Rattle.hb_lex.specs.Text.{HasFault, HasTokens};
ghost use Rattle.hb_lex.specs.Literal.{value_of_number, value_of_text};
ghost use Rattle.hb_lex.specs.Tokens.{AreInOrder, Stands, bytes_of, kind_of};
ghost use Rattle.hb_lex.specs.declared.spans.Token.{Token};
ghost use Rattle.hb_lex.specs.declared.faults.LexFail.{LexFail};
ghost use Rattle.hb_lex.specs.Sizes.{greatest_number, longest_name, longest_text};

use crate::kinds::TokenKind;

/// A text has one list of tokens or one first fault, and never both.
pub fn one_answer()
    ensures tokens { (text : List ℕ) (xs ys : List Token) → HasTokens text xs → HasTokens text ys → xs ≡ ys }
    ensures apart { (text : List ℕ) (tokens : List Token) (fault : LexFail) → HasTokens text tokens → HasFault text fault → ⊥ }
    ensures fault { (text : List ℕ) (e f : LexFail) → HasFault text e → HasFault text f → e ≡ f }
{}

/// The tokens of a text stand in it in order, each with bytes of its kind, within the limits. Its fault is at
/// one of its bytes or at its end.
pub fn tokens_stand()
    ensures ordered { (text : List ℕ) (tokens : List Token) → HasTokens text tokens → AreInOrder 0 tokens }
    ensures standing { (text : List ℕ) (tokens : List Token) → HasTokens text tokens → All (Stands text) tokens }
    ensures fault { (text : List ℕ) (fault : LexFail) → HasFault text fault → IsFaultOf text fault }
{}

/// The bytes of a token are of its kind and within the limits.
pub fn bytes_are_of_kind()
    ensures number { (text : List ℕ) (token : Token) → Stands text token → token.kind ≡ TokenKind.Number
        → (kind_of (bytes_of text token) ≡ Some TokenKind.Number) × (value_of_number (bytes_of text token) ≤ greatest_number) }
    ensures literal { (text : List ℕ) (token : Token) → Stands text token → token.kind ≡ TokenKind.Text
        → (kind_of (bytes_of text token) ≡ Some TokenKind.Text) × (length (value_of_text (bytes_of text token)) ≤ longest_text) }
    ensures name { (text : List ℕ) (token : Token) → Stands text token → token.kind ≡ TokenKind.Name
        → (kind_of (bytes_of text token) ≡ Some TokenKind.Name) × (length (bytes_of text token) ≤ longest_name) }
    ensures class { (text : List ℕ) (token : Token) → Stands text token → token.kind ≡ TokenKind.ClassName
        → (kind_of (bytes_of text token) ≡ Some TokenKind.ClassName) × (length (bytes_of text token) ≤ longest_name) }
{}
