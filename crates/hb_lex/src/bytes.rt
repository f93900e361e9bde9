ghost use Rattle.std.specs.Prelude.{◌≡◌};
ghost use Rattle.hb_lex.specs.Bytes.{is_blank, is_capital, is_digit, is_escape, is_plain, is_small, is_word_byte};

pub(crate) fn is_blank(b: u8) -> bool
    ensures { result ≡ is_blank b }
{
    b == b' ' || b == b'\t' || b == b'\r'
}

pub(crate) fn is_digit(b: u8) -> bool
    ensures { result ≡ is_digit b }
{
    b >= b'0' && b <= b'9'
}

pub(crate) fn is_capital(b: u8) -> bool
    ensures { result ≡ is_capital b }
{
    b >= b'A' && b <= b'Z'
}

pub(crate) fn is_small(b: u8) -> bool
    ensures { result ≡ is_small b }
{
    b >= b'a' && b <= b'z' || b == b'_'
}

pub(crate) fn is_word_byte(b: u8) -> bool
    ensures { result ≡ is_word_byte b }
{
    is_small(b) || is_capital(b) || is_digit(b)
}

pub(crate) fn is_plain(b: u8) -> bool
    ensures { result ≡ is_plain b }
{
    b >= b' ' && b <= b'~' && b != b'"' && b != b'\\'
}

pub(crate) fn is_escape(b: u8) -> bool
    ensures { result ≡ is_escape b }
{
    b == b'"' || b == b'\\' || b == b'n' || b == b't'
}
