//! The program of a text's tokens.

ghost use Rattle.std.specs.Prelude.{◌≡◌, ◌⊎◌, ◌<◌, ◌≤◌, ◌+◌, ◌-◌, ◌^◌, IfOk, IfSome, MatchResult, length, slice_get};
ghost use Rattle.hb_lex.specs.Place.{column_at, line_at};
ghost use Rattle.hb_lex.specs.Text.{HasTokens};
ghost use Rattle.hb_lex.specs.Tokens.{Stands};
ghost use Rattle.hb_tree.specs.Canon.{canon};
ghost use Rattle.hb_tree.specs.Roots.{IsReachedOnce};
ghost use Rattle.hb_draft.specs.Laid.{IsLaid};
ghost use Rattle.hb_build.specs.Follow.{bytes_in, first_byte, last_of, spot_at};
ghost use Rattle.hb_parse.specs.Text.{IsFault, IsProgramOf, byte_of};

use hb_build::builder::Builder;
use hb_build::faults::ParseFail;
use hb_build::held::Spot;
use hb_grammar::{Course, Step};
use hb_lex::{Token, Tokens, place_behind, tokens_stand};
use hb_tree::program::Program;
use std::alloc::Global;

// Where a token stands that is no earlier than a place that is known.
fn spot_behind(text: &[u8], known: Spot, at: u32) -> Spot
    requires fits { length text.now + 1 < 2 ^ 32 }
    requires order { known.at ≤ at }
    requires within { at ≤ length text.now }
    requires known { known ≡ spot_at text.now known.at }
    ensures { result ≡ spot_at text.now at }
{
    let (line, column) = place_behind(text, known.at, (known.line, known.column), at);
    Spot { at, line, column }
}

// The first byte of the token with this number, or the end of the text.
fn byte_of(text: &[u8], tokens: &[Token], i: usize) -> u32
    requires { length text.now < 2 ^ 32 }
    ensures { result ≡ byte_of text.now (slice_get tokens.now i) }
{
    match tokens.get(i) {
        Some(token) => token.from,
        None => text.len() as u32,
    }
}

// The last of so many tokens.
fn last_of(tokens: &[Token], read: usize) -> Option<Token>
    requires { read ≤ length tokens.now }
    ensures { result ≡ last_of tokens.now read }
{
    if read == 0 {
        return None;
    }
    Some(tokens[read - 1])
}

// The first byte of a token, or the front of the text.
fn first_byte(token: Option<Token>) -> u32
    ensures { result ≡ first_byte token }
{
    match token {
        Some(token) => token.from,
        None => 0,
    }
}

// The bytes of a token.
fn bytes_in(text: &[u8], token: Option<Token>) -> &[u8]
    requires { IfSome token (Stands text.now) }
    ensures { result.now ≡ bytes_in text.now token }
{
    match token {
        Some(token) => &text[token.from as usize..token.to as usize],
        None => &[],
    }
}

/// The program that the tokens of a text say. None of its nodes is reached twice, so its canonical text is short.
///
/// An error is their first fault, from left to right, exactly; only memory may run out beside it.
/// (docs/FORMATS.md, "The faults of a text")
pub fn parse(alloc: Global, text: &[u8], tokens: &Tokens) -> Result<Program, ParseFail>
    requires size { length text.now < 2 ^ 32 - 1 }
    requires tokens { HasTokens text.now tokens.now }
    ensures answer { MatchResult result
        (λ program. IsProgramOf text.now tokens.now program)
        (λ fault. IsFault text.now tokens.now fault ⊎ (fault ≡ ParseFail.NoMemory)) }
    ensures once { IfOk result IsReachedOnce }
    ensures laid { IfOk result IsLaid }
    ensures short { IfOk result (λ program. length (canon program) < 2 ^ 28) }
{
    tokens_stand();
    let tokens = tokens.as_slice();
    let mut course = Course::new(alloc, tokens)?;
    let mut builder = Builder::new(alloc);
    let mut spot = Spot {
        at: 0,
        line: 1,
        column: 1,
    };
    loop {
        match course.next_step()? {
            Step::Act(action) => {
                let token = last_of(tokens, course.read());
                spot = spot_behind(text, spot, first_byte(token));
                builder.act(action, spot, bytes_in(text, token))?;
            }
            Step::Done => return Ok(builder.finish()?),
            Step::Missed(wanted) => {
                return Err(ParseFail::Expected(wanted, byte_of(text, tokens, course.read())));
            }
        }
    }
}
