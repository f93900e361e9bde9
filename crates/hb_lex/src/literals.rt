ghost use Rattle.std.specs.Prelude.{◌≡◌, ◌<◌, ◌≤◌, ◌+◌, ◌^◌, ℕ, length, take, IfOk, MatchResult, SomeIff, Some, pos, true, false};
ghost use Rattle.std.specs.List.{list_all};
ghost use Rattle.std.specs.Iterator.{YieldsFirst, item_count};
ghost use Rattle.hb_lex.specs.Bytes.{is_digit};
ghost use Rattle.hb_lex.specs.Tokens.{kind_of};
ghost use Rattle.hb_lex.specs.Literal.{escape_value, is_closed, is_text, text_fault, value_behind, value_of_number, value_of_text};
ghost use Rattle.hb_lex.specs.Sizes.{greatest_number};

use crate::bytes::{is_escape, is_plain};
use crate::faults::LexFail;
use crate::kinds::TokenKind;
use std::alloc::{AllocError, Global};

/// The greatest number that a program may write.
const GREATEST_NUMBER: u64 = 9_223_372_036_854_775_807;

/// How many of the bytes behind the opening `"` at `quote` belong to its text, the closing `"` included.
pub(crate) fn closing(behind: &[u8], quote: u32) -> Result<usize, LexFail>
    requires { quote + length behind.now + 1 < 2 ^ 32 }
    ensures within { IfOk result (λ n. n ≤ length behind.now) }
    ensures closed { MatchResult result (λ n. is_closed false (take n behind.now) ≡ true) (λ fault. text_fault quote false (quote + 1) behind.now ≡ Some fault) }
{
    let mut escaped = false;
    for (i, b) in behind.iter().enumerate() {
        let at = quote + 1 + i as u32;
        if escaped {
            if *b == b'\n' {
                return Err(LexFail::OpenText(quote));
            }
            if !is_escape(*b) {
                return Err(LexFail::BadEscape(at - 1));
            }
            escaped = false;
        } else if *b == b'"' {
            return Ok(i + 1);
        } else if *b == b'\\' {
            escaped = true;
        } else if *b == b'\n' {
            return Err(LexFail::OpenText(quote));
        } else if !is_plain(*b) {
            return Err(LexFail::BadByte(at));
        }
    }
    Err(LexFail::OpenText(quote))
}

/// What a `\` and this byte stand for in a text.
fn escape_value(b: u8) -> u8
    ensures { result ≡ escape_value b }
{
    match b {
        b'n' => b'\n',
        b't' => b'\t',
        b => b,
    }
}

/// The bytes of a text's value, from the bytes behind its opening `"`.
#[derive(Drop)]
struct ValueBytes<'a>(&'a [u8]);

impl<'a> Iterator for ValueBytes<'a> {
    type Item = u8;

    ghost next_gives = { YieldsFirst (λ s. value_behind false s.0.now) };

    ghost remaining = { item_count (λ s. value_behind false s.0.now) };

    fn next(&mut self) -> Option<u8> {
        let (first, others) = self.0.split_first()?;
        match *first {
            b'"' => None,
            b'\\' => {
                let (second, others) = others.split_first()?;
                self.0 = others;
                Some(escape_value(*second))
            }
            b => {
                self.0 = others;
                Some(b)
            }
        }
    }
}

/// How many bytes a text's value has, from the bytes behind its opening `"`.
#[tactic(auto, using(crate::proofs::Values::value_short))]
fn behind_len(behind: &[u8]) -> usize
    ensures { result ≡ length (value_behind false behind.now) }
{
    ValueBytes(behind).count()
}

/// How many bytes the value of a text token has.
#[tactic(auto, using(crate::proofs::Values::behind_quote))]
pub(crate) fn value_len(literal: &[u8]) -> usize
    requires { is_text literal.now ≡ true }
    ensures { result ≡ length (value_of_text literal.now) }
{
    behind_len(&literal[1..])
}

/// A text's value, from the bytes behind its opening `"`.
fn value_behind(alloc: Global, behind: &[u8]) -> Result<Vec<u8>, AllocError>
    ensures { IfOk result (λ value. value.items ≡ value_behind false behind.now) }
{
    ValueBytes(behind).collect(alloc)
}

/// The value of a text token, from its bytes, with its escapes read. The one error is that memory ran out.
#[tactic(auto, using(crate::proofs::Values::behind_quote, crate::proofs::Forms::text_bytes))]
pub fn text_value(alloc: Global, literal: &[u8]) -> Result<Vec<u8>, AllocError>
    requires { kind_of literal.now ≡ Some TokenKind.Text }
    ensures { IfOk result (λ value. value.items ≡ value_of_text literal.now) }
{
    value_behind(alloc, &literal[1..])
}

/// The value of digits, where it is no greater than the greatest number.
pub(crate) fn checked_value(digits: &[u8]) -> Option<u64>
    requires { list_all is_digit digits.now ≡ true }
    ensures { SomeIff result (value_of_number digits.now ≤ GREATEST_NUMBER) (value_of_number digits.now) }
{
    let mut value = 0;
    for b in digits {
        let digit = u64::from(*b - b'0');
        if value > (GREATEST_NUMBER - digit) / 10 {
            return None;
        }
        value = 10 * value + digit;
    }
    Some(value)
}

/// The value of a number token, from its bytes.
#[tactic(auto, using(crate::proofs::Forms::number_digits))]
pub fn number_value(literal: &[u8]) -> i64
    requires number { kind_of literal.now ≡ Some TokenKind.Number }
    requires small { value_of_number literal.now ≤ greatest_number }
    ensures { result ≡ pos (value_of_number literal.now) }
{
    checked_value(literal).unwrap() as i64
}
