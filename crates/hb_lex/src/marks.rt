ghost use Rattle.std.specs.Prelude.{◌≡◌, nat_eq, find};
ghost use Rattle.std.specs.List.{starts_with};
ghost use Rattle.hb_lex.specs.Spelling.{marks, spelling};

use crate::kinds::TokenKind;

/// Marks, and the separator that is no line feed, longer ones first.
const MARKS: [TokenKind; 14] = [
    TokenKind::Equals,
    TokenKind::Concat,
    TokenKind::Arrow,
    TokenKind::OpenParen,
    TokenKind::CloseParen,
    TokenKind::Comma,
    TokenKind::Colon,
    TokenKind::Dot,
    TokenKind::Assign,
    TokenKind::Less,
    TokenKind::Plus,
    TokenKind::Minus,
    TokenKind::Times,
    TokenKind::Separator,
];

/// The mark at the front of the text.
#[tactic(auto, unfolding(crate::specs::Spelling::marks))]
pub(crate) fn mark(text: &[u8]) -> Option<TokenKind>
    ensures { result ≡ find (λ kind. starts_with nat_eq text.now (spelling kind)) marks }
{
    MARKS
        .iter()
        .copied()
        .find(|kind| text.starts_with(kind.spelling()))
}
