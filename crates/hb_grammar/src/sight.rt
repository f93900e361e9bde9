//! What one token of sight tells.

ghost use Rattle.std.specs.Prelude.{◌≡◌, ◌↔◌, IsTrue, false, map};
ghost use Rattle.hb_grammar.specs.Grammar.{alternatives};
ghost use Rattle.hb_grammar.specs.Sight.{among, choice, is_kind, kind_eq, may_begin};

use crate::starts::{may_be_empty, starts};
use crate::symbols::{Sort, Symbol};
use crate::table::alternatives;
use hb_lex::TokenKind;

fn are_same(a: TokenKind, b: TokenKind) -> bool
    ensures { IsTrue result ↔ (a ≡ b) }
{
    a == b
}

fn is_same(a: TokenKind, b: TokenKind) -> bool
    ensures { result ≡ kind_eq a b }
{
    are_same(a, b)
}

/// Whether the token in sight has this kind.
pub fn is_kind(sight: Option<TokenKind>, kind: TokenKind) -> bool
    ensures { result ≡ is_kind sight kind }
{
    match sight {
        Some(found) => is_same(found, kind),
        None => false,
    }
}

// Whether the token in sight has one of these kinds.
fn among(kinds: &[TokenKind], sight: Option<TokenKind>) -> bool
    ensures { result ≡ among kinds.now sight }
{
    match kinds {
        [] => false,
        [kind, ..] => is_kind(sight, *kind) || among(&kinds[1..], sight),
    }
}

// Whether a phrase may begin with the token in sight.
fn may_begin(phrase: &[Symbol], sight: Option<TokenKind>) -> bool
    ensures { result ≡ may_begin phrase.now false sight }
{
    match phrase {
        [] => false,
        [Symbol::Token(kind), ..] => is_kind(sight, *kind),
        [Symbol::Action(_), ..] => may_begin(&phrase[1..], sight),
        [Symbol::Phrase(sort), ..] => {
            among(starts(*sort), sight) || (may_be_empty(*sort) && may_begin(&phrase[1..], sight))
        }
    }
}

// The first of the phrases that may begin with the token in sight, or the last one.
fn first_of(phrases: &'static [&'static [Symbol]], sight: Option<TokenKind>) -> &'static [Symbol]
    ensures { result.now ≡ choice (map (λ phrase. phrase.now) phrases.now) sight }
{
    match phrases {
        [] => &[],
        [only] => only,
        [first, ..] => {
            if may_begin(first, sight) {
                return first;
            }
            first_of(&phrases[1..], sight)
        }
    }
}

/// The alternative of a sort that the token in sight chooses.
pub fn choice(sort: Sort, sight: Option<TokenKind>) -> &'static [Symbol]
    ensures { result.now ≡ choice (alternatives sort) sight }
{
    first_of(alternatives(sort), sight)
}
