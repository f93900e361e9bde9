//! The program at the front of a bundle.

ghost use Rattle.std.specs.Prelude.{◌≡◌, IfSome, None};
ghost use Rattle.std.specs.Option.{option_map};
ghost use Rattle.hb_bundle.specs.Bundle.{HasNoProgram, HasProgram, closing};
ghost use Rattle.hb_bundle.specs.Opening.{opened_in, text_in};

use hb_deriv_text::pieces::{behind, number, split};

/// The most bytes of a program's text.
const TEXT_MAX: usize = 1_048_576;

/// What begins a bundle: the text of its program; and what stands behind it.
#[derive(Clone, Copy, Debug)]
pub struct Opened<'a> {
    pub text: &'a [u8],
    pub rest: &'a [u8],
}

/// Opens a bundle, where a program's text begins it. (docs/FORMATS.md, "A bundle")
pub fn open_bundle<'a>(bytes: &'a [u8]) -> Option<Opened<'a>>
    ensures some { IfSome result (λ o. HasProgram bytes.now o.text.now o.rest.now) }
    ensures none { result ≡ None → HasNoProgram bytes.now }
{
    split_bundle(bytes)
}

fn split_bundle<'a>(bytes: &'a [u8]) -> Option<Opened<'a>>
    ensures { option_map (λ o. (o.text.now, o.rest.now)) result ≡ opened_in bytes.now }
{
    let words = behind(b"program ", bytes)?;
    let (word, body) = split(words, b'\n')?;
    let length = number(word)?;
    with_text(body, length as usize)
}

// A text of so many bytes.
fn with_text<'a>(bytes: &'a [u8], length: usize) -> Option<Opened<'a>>
    ensures { option_map (λ o. (o.text.now, o.rest.now)) result ≡ text_in bytes.now length }
{
    if length > TEXT_MAX {
        return None;
    }
    if length > bytes.len() {
        return None;
    }
    let text = &bytes[..length];
    let rest = behind(closing(text), &bytes[length..])?;
    Some(Opened { text, rest })
}

/// The line feed that stands behind a text which does not end with one.
pub fn closing(text: &[u8]) -> &'static [u8]
    ensures { result.now ≡ closing text.now }
{
    if text.is_empty() {
        return b"\n";
    }
    if text[text.len() - 1] == b'\n' {
        return b"";
    }
    b"\n"
}
