//! What may stand where a text goes wrong.

use std::fmt::{self, Display, Formatter, Write};

/// What is wanted, in the order in which it is tried. `Item` is a script or the end of the text.
#[derive(Clone, Copy, Debug, PartialEq, Eq)]
pub enum Wanted {
    End,
    Then,
    Do,
    Close,
    Expression,
    Name,
    TypeWord,
    ClassName,
    Open,
    Dot,
    Colon,
    Arrow,
    New,
    Item,
}

impl Display for Wanted {
    fn fmt<W: Write>(&self, f: &mut Formatter<W>) -> fmt::Result {
        f.write_str(match self {
            Wanted::End => "end",
            Wanted::Then => "then",
            Wanted::Do => "do",
            Wanted::Close => ")",
            Wanted::Expression => "expression",
            Wanted::Name => "name",
            Wanted::TypeWord => "type",
            Wanted::ClassName => "classname",
            Wanted::Open => "(",
            Wanted::Dot => ".",
            Wanted::Colon => ":",
            Wanted::Arrow => "->",
            Wanted::New => "new",
            Wanted::Item => "item",
        })
    }
}
