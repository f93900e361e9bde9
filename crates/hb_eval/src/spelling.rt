//! Whether bytes are a name.

ghost use Rattle.std.specs.Prelude.{◌≡◌, bytes_eq};
ghost use Rattle.std.specs.List.{list_any, list_all};
ghost use Rattle.hb_tree.specs.Spelling as spelling;
ghost use Rattle.hb_eval.specs.Methods as methods;

use hb_tree::limits::WORD_BYTES_MAX;

fn is_small(b: u8) -> bool
    ensures { result ≡ spelling.is_small b }
{
    b >= b'a' && b <= b'z' || b == b'_'
}

fn is_word_byte(b: u8) -> bool
    ensures { result ≡ spelling.is_word_byte b }
{
    is_small(b) || b >= b'A' && b <= b'Z' || b >= b'0' && b <= b'9'
}

fn are_word_bytes(bytes: &[u8]) -> bool
    ensures { result ≡ list_all spelling.is_word_byte bytes.now }
{
    bytes.iter().all(|b| is_word_byte(*b))
}

// Whether a small letter or `_` begins the bytes, and letters, digits and `_` follow.
fn is_word(bytes: &[u8]) -> bool
    ensures { result ≡ spelling.is_word spelling.is_small bytes.now }
{
    match bytes {
        [] => false,
        [first, rest @ ..] => is_small(*first) && are_word_bytes(rest),
    }
}

// Whether the bytes are one of the words.
fn is_among(bytes: &[u8], words: &[&[u8]]) -> bool
    ensures { result ≡ list_any (λ word. bytes_eq bytes.now word.now) words.now }
{
    words.iter().any(|word| bytes == *word)
}

// Whether the bytes are a word that is taken.
fn is_keyword(bytes: &[u8]) -> bool
    ensures { result ≡ list_any (bytes_eq bytes.now) spelling.keywords }
{
    is_among(
        bytes,
        &[
            b"class", b"setup", b"script", b"type", b"def", b"end", b"if", b"then", b"else",
            b"while", b"do", b"nil", b"true", b"false", b"self", b"new", b"not", b"print", b"str",
        ],
    )
}

/// Whether the bytes are a name.
pub fn is_name(bytes: &[u8]) -> bool
    ensures { result ≡ methods.is_name bytes.now }
{
    is_word(bytes) && !is_keyword(bytes) && bytes.len() <= WORD_BYTES_MAX
}
