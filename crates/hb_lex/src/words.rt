ghost use Rattle.std.specs.Prelude.{◌≡◌, ◌<◌, ◌||◌, length, slice_index, take_while, true};
ghost use Rattle.hb_lex.specs.Bytes.{is_capital, is_digit, is_small, is_word_byte};
ghost use Rattle.hb_lex.specs.Spelling.{spelled, words};
ghost use Rattle.hb_lex.specs.Tokens.{IsNext};

use crate::bytes::{is_digit, is_small, is_word_byte};
use crate::kinds::TokenKind;

/// Keywords and type words. `type?` is none of them: it is no word.
const WORDS: [TokenKind; 24] = [
    TokenKind::KwClass,
    TokenKind::KwSetup,
    TokenKind::KwScript,
    TokenKind::KwType,
    TokenKind::KwDef,
    TokenKind::KwEnd,
    TokenKind::KwIf,
    TokenKind::KwThen,
    TokenKind::KwElse,
    TokenKind::KwWhile,
    TokenKind::KwDo,
    TokenKind::KwNil,
    TokenKind::KwTrue,
    TokenKind::KwFalse,
    TokenKind::KwSelf,
    TokenKind::KwNew,
    TokenKind::KwNot,
    TokenKind::KwPrint,
    TokenKind::KwStr,
    TokenKind::TyNil,
    TokenKind::TyBool,
    TokenKind::TyInt,
    TokenKind::TyStr,
    TokenKind::TyAny,
];

/// The keyword or type word that these bytes spell.
#[tactic(auto, unfolding(crate::specs::Spelling::words))]
fn reserved(word: &[u8]) -> Option<TokenKind>
    ensures { result ≡ spelled words word.now }
{
    WORDS.iter().copied().find(|kind| kind.spelling() == word)
}

fn word_len(text: &[u8]) -> usize
    ensures { result ≡ length (take_while is_word_byte text.now) }
{
    text.iter().take_while(|b| is_word_byte(**b)).count()
}

fn digits_len(text: &[u8]) -> usize
    ensures { result ≡ length (take_while is_digit text.now) }
{
    text.iter().take_while(|b| is_digit(**b)).count()
}

/// The token at the front of a text that begins with a letter or `_`, and its length.
pub(crate) fn word(text: &[u8]) -> (TokenKind, usize)
    requires some { 0 < length text.now }
    requires letter { (is_small (slice_index text.now 0) || is_capital (slice_index text.now 0)) ≡ true }
    ensures { IsNext text.now result.0 result.1 }
{
    let ask = TokenKind::KwTypeAsk;
    if text.starts_with(ask.spelling()) {
        return (ask, ask.spelling().len());
    }
    let n = word_len(text);
    match reserved(&text[..n]) {
        Some(kind) => (kind, n),
        None if is_small(text[0]) => (TokenKind::Name, n),
        None => (TokenKind::ClassName, n),
    }
}

/// The number at the front of a text that begins with a digit, and its length.
pub(crate) fn number(text: &[u8]) -> (TokenKind, usize)
    requires some { 0 < length text.now }
    requires digit { is_digit (slice_index text.now 0) ≡ true }
    ensures { IsNext text.now result.0 result.1 }
{
    (TokenKind::Number, digits_len(text))
}
