//! The way of a text through the grammar: its actions, and where it stops to follow the grammar.

ghost use Rattle.std.specs.Prelude.{◌≡◌, ◌++◌, IfOk, OnOk, drop, reverse};
ghost use Rattle.hb_grammar.specs.Language.{kinds_of};
ghost use Rattle.hb_grammar.specs.Course.{start_of};
ghost use Rattle.hb_grammar.specs.Sight.{front, wanted_for};
ghost use Rattle.hb_grammar.specs.Steps.{Comes, IsNearer};

use crate::actions::Action;
use crate::sight::{choice, is_kind};
use crate::symbols::{Sort, Symbol};
use crate::wanted::Wanted;
use hb_lex::{Token, TokenKind};
use std::alloc::{AllocError, Global};
use std::marker::Model;

/// What comes next on the way: an action; or the end of a program; or, where the tokens stop to begin a program, what is
/// wanted there.
#[derive(Clone, Copy, Debug, PartialEq, Eq)]
pub enum Step {
    Act(Action),
    Done,
    Missed(Wanted),
}

// What is wanted where a token of this kind is missing.
fn wanted_for(kind: TokenKind) -> Wanted
    ensures { result ≡ wanted_for kind }
{
    match kind {
        TokenKind::KwEnd => Wanted::End,
        TokenKind::KwThen => Wanted::Then,
        TokenKind::KwDo => Wanted::Do,
        TokenKind::CloseParen => Wanted::Close,
        TokenKind::Number => Wanted::Expression,
        TokenKind::Name => Wanted::Name,
        TokenKind::TyNil => Wanted::TypeWord,
        TokenKind::ClassName => Wanted::ClassName,
        TokenKind::OpenParen => Wanted::Open,
        TokenKind::Dot => Wanted::Dot,
        TokenKind::Colon => Wanted::Colon,
        TokenKind::Arrow => Wanted::Arrow,
        TokenKind::KwNew => Wanted::New,
        _ => Wanted::Item,
    }
}

// The kind of the token behind those that were read.
fn sight(tokens: &[Token], read: usize) -> Option<TokenKind>
    ensures { result ≡ front (drop read (kinds_of tokens.now)) }
{
    if read < tokens.len() {
        return Some(tokens[read].kind);
    }
    None
}

// Puts a phrase on top of the stack, its first symbol uppermost.
fn push_phrase(stack: &mut Vec<Symbol>, phrase: &[Symbol]) -> Result<(), AllocError>
    ensures { OnOk result (reverse stack.new.items ≡ phrase.now ++ reverse stack.old.items) }
{
    let mut i = phrase.len();
    while i > 0 {
        i -= 1;
        stack.push(phrase[i])?;
    }
    Ok(())
}

/// The way of a text through the grammar, as far as it was gone.
///
/// After an error no more is said of it.
#[derive(Drop)]
pub struct Course<'t> {
    // the symbols that are ahead, the next one on top
    stack: Vec<Symbol>,
    tokens: &'t [Token],
    read: usize,
}

impl<'t> Model for Course<'t> {
    ghost use Rattle.std.specs.Prelude.{◌≤◌, length, reverse};
    ghost use Rattle.hb_grammar.specs.Course.{Course};

    ghost Value = { Course };

    ghost view = { λ c. record { tokens = c.tokens.now; ahead = reverse c.stack.items; read = c.read } };

    ghost invariant = { λ c. c.read ≤ length c.tokens.now };
}

impl<'t> Course<'t> {
    /// The way of a text with these tokens, before the first.
    pub fn new(alloc: Global, tokens: &'t [Token]) -> Result<Course<'t>, AllocError>
        ensures { IfOk result (λ course. course ≡ start_of tokens.now) }
    {
        let stack = vec![in alloc; Symbol::Phrase(Sort::Program)]?;
        Ok(Course {
            stack,
            tokens,
            read: 0,
        })
    }

    /// How many tokens were read.
    pub fn read(&self) -> usize
        ensures { result ≡ self.now.read }
    {
        self.read
    }

    /// Goes on to what comes next.
    pub fn next_step(&mut self) -> Result<Step, AllocError>
        ensures comes { IfOk result (λ step. Comes self.old step self.new) }
        ensures nearer { IfOk result (λ step. IsNearer self.old step self.new) }
    {
        while let Some(symbol) = self.stack.pop() {
            match symbol {
                Symbol::Action(action) => return Ok(Step::Act(action)),
                Symbol::Token(kind) => {
                    if !is_kind(sight(self.tokens, self.read), kind) {
                        return Ok(Step::Missed(wanted_for(kind)));
                    }
                    self.read += 1;
                }
                Symbol::Phrase(sort) => {
                    push_phrase(&mut self.stack, choice(sort, sight(self.tokens, self.read)))?;
                }
            }
        }
        if self.read < self.tokens.len() {
            return Ok(Step::Missed(Wanted::Item));
        }
        Ok(Step::Done)
    }
}
