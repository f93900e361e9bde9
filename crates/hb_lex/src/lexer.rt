ghost use Rattle.std.specs.Prelude.{◌≡◌, ◌<◌, ◌≤◌, ◌+◌, ◌-◌, ◌^◌, ◌⊎◌, ◌++◌, ◌∷◌, [], length, take, drop, IfOk, IfErr, MatchResult, OnOk, Some};
ghost use Rattle.hb_lex.specs.Tokens.{BeginsNone, IsNext, excess, kind_of};
ghost use Rattle.hb_lex.specs.Text.{HasFault, HasTokens, IsFront, comment_len, front_fault, separates, token_at};

use crate::bytes::{is_blank, is_capital, is_digit, is_small};
use crate::faults::LexFail;
use crate::kinds::TokenKind;
use crate::literals::{checked_value, closing, value_len};
use crate::marks::mark;
use crate::spans::{Token, Tokens};
use crate::words::{number, word};
use std::alloc::Global;

/// The most bytes that a name or class name has.
const LONGEST_NAME: usize = 64;

/// The most bytes that a text's value has.
const LONGEST_TEXT: usize = 1024;

/// A line feed behind this token is a separator.
fn separates(before: Option<TokenKind>) -> bool
    ensures { result ≡ separates before }
{
    match before {
        None => false,
        Some(
            TokenKind::Separator
            | TokenKind::OpenParen
            | TokenKind::Comma
            | TokenKind::Colon
            | TokenKind::Dot
            | TokenKind::Assign
            | TokenKind::Equals
            | TokenKind::Less
            | TokenKind::Plus
            | TokenKind::Minus
            | TokenKind::Times
            | TokenKind::Concat
            | TokenKind::Arrow
            | TokenKind::KwNot
            | TokenKind::KwPrint,
        ) => false,
        Some(_) => true,
    }
}

/// The length of the comment at the front of the text: up to the next line feed, or to the end.
fn comment_len(text: &[u8]) -> usize
    ensures { result ≡ comment_len text.now }
{
    text.iter().take_while(|b| **b != b'\n').count()
}

/// The longest token at the front of the text, and its length, or the fault of a text that no token begins.
fn longest(text: &[u8], at: u32) -> Result<(TokenKind, usize), LexFail>
    requires some { 0 < length text.now }
    requires fits { at + length text.now < 2 ^ 32 }
    ensures { MatchResult result (λ found. IsNext text.now found.0 found.1) (λ fault. BeginsNone text.now × (front_fault at text.now ≡ Some fault)) }
{
    let b = text[0];
    if is_small(b) || is_capital(b) {
        return Ok(word(text));
    }
    if is_digit(b) {
        return Ok(number(text));
    }
    if b == b'"' {
        let n = closing(&text[1..], at)?;
        return Ok((TokenKind::Text, n + 1));
    }
    match mark(text) {
        Some(kind) => Ok((kind, kind.spelling().len())),
        None => Err(LexFail::BadByte(at)),
    }
}

/// The fault of a whole token at `at` that is too large.
fn excess(kind: TokenKind, at: u32, bytes: &[u8]) -> Option<LexFail>
    requires { kind_of bytes.now ≡ Some kind }
    ensures { result ≡ excess kind at bytes.now }
{
    match kind {
        TokenKind::Name | TokenKind::ClassName if bytes.len() > LONGEST_NAME => {
            Some(LexFail::LongName(at))
        }
        TokenKind::Number if checked_value(bytes).is_none() => Some(LexFail::BigNumber(at)),
        TokenKind::Text if value_len(bytes) > LONGEST_TEXT => Some(LexFail::LongLiteral(at)),
        _ => None,
    }
}

/// The token at the front of the text, and its length.
fn front(text: &[u8], at: u32) -> Result<(TokenKind, usize), LexFail>
    requires some { 0 < length text.now }
    requires fits { at + length text.now < 2 ^ 32 }
    ensures { IsFront at text.now result }
{
    let (kind, n) = longest(text, at)?;
    match excess(kind, at, &text[..n]) {
        Some(fault) => Err(fault),
        None => Ok((kind, n)),
    }
}

fn push(tokens: &mut Vec<Token>, kind: TokenKind, at: usize, n: usize) -> Result<(), LexFail>
    requires { at + n < 2 ^ 32 }
    ensures ok { OnOk result (tokens.new.items ≡ tokens.old.items ++ token_at kind at n ∷ []) }
    ensures err { IfErr result (λ e. e ≡ LexFail.NoMemory) }
{
    let token = Token {
        kind,
        from: at as u32,
        to: (at + n) as u32,
    };
    tokens.push(token).map_err(|_| LexFail::NoMemory)
}

/// The tokens of the bytes, or their first fault.
pub fn lex(alloc: Global, bytes: &[u8]) -> Result<Tokens, LexFail>
    requires { length bytes.now + 1 < 2 ^ 32 }
    ensures tokens { IfOk result (λ tokens. HasTokens bytes.now tokens) }
    ensures fault { IfErr result (λ fault. (fault ≡ LexFail.NoMemory) ⊎ HasFault bytes.now fault) }
{
    let mut tokens = Vec::new(alloc);
    let mut before = None;
    let mut at = 0;
    while at < bytes.len() {
        let rest = &bytes[at..];
        let b = rest[0];
        if is_blank(b) {
            at += 1;
        } else if b == b'#' {
            at += comment_len(rest);
        } else if b == b'\n' {
            if separates(before) {
                push(&mut tokens, TokenKind::Separator, at, 1)?;
                before = Some(TokenKind::Separator);
            }
            at += 1;
        } else {
            let (kind, n) = front(rest, at as u32)?;
            push(&mut tokens, kind, at, n)?;
            before = Some(kind);
            at += n;
        }
    }
    Ok(Tokens::from_vec(tokens))
}
