ghost use Rattle.std.specs.Prelude.{◌≡◌};
ghost use Rattle.hb_lex.specs.Spelling.{spelling};

/// What a token is. A keyword's kind begins with `Kw` and a type word's with `Ty`.
#[derive(Clone, Copy, Debug, PartialEq, Eq, Hash)]
pub enum TokenKind {
    KwClass,
    KwSetup,
    KwScript,
    KwType,
    /// `type?`
    KwTypeAsk,
    KwDef,
    KwEnd,
    KwIf,
    KwThen,
    KwElse,
    KwWhile,
    KwDo,
    KwNil,
    KwTrue,
    KwFalse,
    KwSelf,
    KwNew,
    KwNot,
    KwPrint,
    KwStr,
    TyNil,
    TyBool,
    TyInt,
    TyStr,
    TyAny,
    /// `(`
    OpenParen,
    /// `)`
    CloseParen,
    /// `,`
    Comma,
    /// `:`
    Colon,
    /// `.`
    Dot,
    /// `=`
    Assign,
    /// `==`
    Equals,
    /// `<`
    Less,
    /// `+`
    Plus,
    /// `-`
    Minus,
    /// `*`
    Times,
    /// `++`
    Concat,
    /// `->`
    Arrow,
    /// A small letter or `_`, then letters, digits and `_`, and no keyword.
    Name,
    /// A capital letter, then letters, digits and `_`, and no type word.
    ClassName,
    /// One or more decimal digits.
    Number,
    /// Bytes and escapes between two `"`.
    Text,
    /// `;`, or a line feed that ends an item.
    Separator,
}

impl TokenKind {
    /// How a keyword, a type word or a mark is written. Nothing for what may be written in many ways.
    pub fn spelling(self) -> &'static [u8]
        ensures { result.now ≡ spelling self }
    {
        match self {
            TokenKind::KwClass => b"class",
            TokenKind::KwSetup => b"setup",
            TokenKind::KwScript => b"script",
            TokenKind::KwType => b"type",
            TokenKind::KwTypeAsk => b"type?",
            TokenKind::KwDef => b"def",
            TokenKind::KwEnd => b"end",
            TokenKind::KwIf => b"if",
            TokenKind::KwThen => b"then",
            TokenKind::KwElse => b"else",
            TokenKind::KwWhile => b"while",
            TokenKind::KwDo => b"do",
            TokenKind::KwNil => b"nil",
            TokenKind::KwTrue => b"true",
            TokenKind::KwFalse => b"false",
            TokenKind::KwSelf => b"self",
            TokenKind::KwNew => b"new",
            TokenKind::KwNot => b"not",
            TokenKind::KwPrint => b"print",
            TokenKind::KwStr => b"str",
            TokenKind::TyNil => b"Nil",
            TokenKind::TyBool => b"Bool",
            TokenKind::TyInt => b"Int",
            TokenKind::TyStr => b"Str",
            TokenKind::TyAny => b"Any",
            TokenKind::OpenParen => b"(",
            TokenKind::CloseParen => b")",
            TokenKind::Comma => b",",
            TokenKind::Colon => b":",
            TokenKind::Dot => b".",
            TokenKind::Assign => b"=",
            TokenKind::Equals => b"==",
            TokenKind::Less => b"<",
            TokenKind::Plus => b"+",
            TokenKind::Minus => b"-",
            TokenKind::Times => b"*",
            TokenKind::Concat => b"++",
            TokenKind::Arrow => b"->",
            TokenKind::Separator => b";",
            TokenKind::Name | TokenKind::ClassName | TokenKind::Number | TokenKind::Text => b"",
        }
    }
}
