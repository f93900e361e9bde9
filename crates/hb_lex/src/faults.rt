ghost use Rattle.std.specs.Prelude.{◌≡◌};
ghost use Rattle.hb_lex.specs.Fault.{byte_of};

use std::error::Error;
use std::fmt;

/// Why bytes have no tokens: the first fault, at the byte with this number, counted from 0.
#[derive(Clone, Copy, Debug, PartialEq, Eq)]
pub enum LexFail {
    /// A byte that begins no token, or that may not stand in a text.
    BadByte(u32),
    /// The `"` of a text that its line does not close.
    OpenText(u32),
    /// A `\` before a byte that makes no escape.
    BadEscape(u32),
    /// The first digit of a number above 9,223,372,036,854,775,807.
    BigNumber(u32),
    /// The first letter of a name or class name of more than 64 bytes.
    LongName(u32),
    /// The `"` of a text whose value has more than 1,024 bytes.
    LongLiteral(u32),
    /// No fault of the bytes: memory ran out.
    NoMemory,
}

impl LexFail {
    /// The number of the byte that is at fault, counted from 0. None where memory ran out.
    pub fn byte(self) -> Option<u32>
        ensures { result ≡ byte_of self }
    {
        match self {
            LexFail::BadByte(at)
            | LexFail::OpenText(at)
            | LexFail::BadEscape(at)
            | LexFail::BigNumber(at)
            | LexFail::LongName(at)
            | LexFail::LongLiteral(at) => Some(at),
            LexFail::NoMemory => None,
        }
    }
}

impl fmt::Display for LexFail {
    fn fmt<W: fmt::Write>(&self, f: &mut fmt::Formatter<W>) -> fmt::Result {
        f.write_str(match self {
            LexFail::BadByte(_) => "a byte that may not stand here",
            LexFail::OpenText(_) => "a text that is not closed on its line",
            LexFail::BadEscape(_) => "a backslash that makes no escape",
            LexFail::BigNumber(_) => "a number that is too great",
            LexFail::LongName(_) => "a name that is too long",
            LexFail::LongLiteral(_) => "a text that is too long",
            LexFail::NoMemory => "out of memory",
        })
    }
}

impl Error for LexFail {}
