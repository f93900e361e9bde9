//! Tokens written one behind another.

ghost use Rattle.std.specs.Prelude.{◌≡◌, [], ◌∷◌, ◌++◌, ◌&&◌, if◌then◌else◌, IfOk, OnOk};
ghost use Rattle.hb_lex.specs.declared.kinds.TokenKind.{TokenKind};
ghost use Rattle.hb_lex.specs.declared.kinds.TokenKind.TheVariants as kind;
ghost use Rattle.std.specs.Fmt.{signed_decimal};
ghost use Rattle.hb_tree.specs.Pieces.{joined_paren, line_end, mark, may_follow_space, may_precede_space, word};
ghost use Rattle.hb_tree.specs.Canon.{escape, quoted};
ghost use Rattle.hb_tree.specs.Page.{blank, written};

use hb_lex::TokenKind;
use std::alloc::{AllocError, Global};
use std::marker::Model;

/// A text under way. A space stands between two tokens where both let one stand there.
#[derive(Drop)]
pub struct Sheet {
    alloc: Global,
    text: Vec<u8>,
    /// Whether a space may stand behind what is written.
    spaced: bool,
}

impl Model for Sheet {
    ghost use Rattle.hb_tree.specs.Page.{Page};

    ghost Value = { Page };

    ghost view = { λ s. record { text = s.text.items; spaced = s.spaced } };
}

impl Sheet {
    pub fn new(alloc: Global) -> Sheet
        ensures { result ≡ blank }
    {
        Sheet {
            alloc,
            text: Vec::new(alloc),
            spaced: false,
        }
    }

    /// The text that was written.
    pub fn into_text(self) -> Vec<u8>
        ensures { result.items ≡ self.text }
    {
        self.text
    }

    // Writes the space before a token that may follow one.
    fn space(&mut self, before: bool) -> Result<(), AllocError>
        ensures text { OnOk result (self.new.text ≡ self.old.text ++ (if self.old.spaced && before then 32 ∷ [] else [])) }
        ensures spaced { self.new.spaced ≡ self.old.spaced }
    {
        if self.spaced && before {
            self.text.push(b' ')?;
        }
        Ok(())
    }

    // Writes a token with these bytes.
    fn put(&mut self, bytes: &[u8], before: bool, behind: bool) -> Result<(), AllocError>
        ensures { (k : TokenKind) → OnOk result (self.new ≡ written self.old
            (record { kind = k; bytes = bytes.now; before = before; behind = behind } ∷ [])) }
    {
        self.space(before)?;
        self.text.extend_from_slice(bytes)?;
        self.spaced = behind;
        Ok(())
    }

    /// Writes a keyword, a type word, a mark or `;`.
    pub fn mark(&mut self, kind: TokenKind) -> Result<(), AllocError>
        ensures { OnOk result (self.new ≡ written self.old (mark kind ∷ [])) }
    {
        self.put(kind.spelling(), follows_space(kind), precedes_space(kind))
    }

    /// Writes the `(` of arguments, of parameters and of `str`.
    pub fn joined_paren(&mut self) -> Result<(), AllocError>
        ensures { OnOk result (self.new ≡ written self.old (joined_paren ∷ [])) }
    {
        self.put(b"(", false, false)
    }

    /// Ends the line.
    pub fn line_end(&mut self) -> Result<(), AllocError>
        ensures { OnOk result (self.new ≡ written self.old (line_end ∷ [])) }
    {
        self.put(b"\n", false, false)
    }

    /// Writes a name.
    pub fn name(&mut self, bytes: &[u8]) -> Result<(), AllocError>
        ensures { OnOk result (self.new ≡ written self.old (word kind.Name bytes.now ∷ [])) }
    {
        self.put(bytes, true, true)
    }

    /// Writes the name of a class.
    pub fn class_name(&mut self, bytes: &[u8]) -> Result<(), AllocError>
        ensures { OnOk result (self.new ≡ written self.old (word kind.ClassName bytes.now ∷ [])) }
    {
        self.put(bytes, true, true)
    }

    /// Writes a number in decimal.
    pub fn number(&mut self, number: i64) -> Result<(), AllocError>
        ensures { OnOk result (self.new ≡ written self.old (word kind.Number (signed_decimal number) ∷ [])) }
    {
        let digits = format!(in self.alloc; "{number}")?;
        self.put(digits.as_bytes(), true, true)
    }

    /// Writes a text literal with this value.
    pub fn text(&mut self, value: &[u8]) -> Result<(), AllocError>
        ensures { OnOk result (self.new ≡ written self.old (word kind.Text (quoted value.now) ∷ [])) }
    {
        let literal = quoted(self.alloc, value)?;
        self.put(&literal, true, true)
    }
}

// Whether a space may stand before such a token.
fn follows_space(kind: TokenKind) -> bool
    ensures { result ≡ may_follow_space kind }
{
    match kind {
        TokenKind::CloseParen | TokenKind::Comma | TokenKind::Dot | TokenKind::Separator => false,
        _ => true,
    }
}

// Whether a space may stand behind such a token.
fn precedes_space(kind: TokenKind) -> bool
    ensures { result ≡ may_precede_space kind }
{
    match kind {
        TokenKind::OpenParen | TokenKind::Dot => false,
        _ => true,
    }
}

// The text literal with this value.
fn quoted(alloc: Global, value: &[u8]) -> Result<Vec<u8>, AllocError>
    ensures { IfOk result (λ literal. literal.items ≡ quoted value.now) }
{
    let mut literal = vec![in alloc; b'"']?;
    for byte in value {
        push_escaped(&mut literal, *byte)?;
    }
    literal.push(b'"')?;
    Ok(literal)
}

// Adds a byte as it stands in a text literal.
fn push_escaped(literal: &mut Vec<u8>, byte: u8) -> Result<(), AllocError>
    ensures { OnOk result (literal.new.items ≡ literal.old.items ++ escape byte) }
{
    match byte {
        b'"' => literal.extend_from_slice(b"\\\"")?,
        b'\\' => literal.extend_from_slice(b"\\\\")?,
        b'\n' => literal.extend_from_slice(b"\\n")?,
        b'\t' => literal.extend_from_slice(b"\\t")?,
        plain => literal.push(plain)?,
    }
    Ok(())
}
