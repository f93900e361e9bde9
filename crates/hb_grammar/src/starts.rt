//! With which tokens a sort of phrase may begin.

ghost use Rattle.std.specs.Prelude.{◌≡◌};
ghost use Rattle.hb_grammar.specs.Sight.{may_be_empty, starts};

use crate::symbols::Sort::{self, *};
use hb_lex::TokenKind::{self, *};

const VALUE: [TokenKind; 12] = [
    KwDef, KwIf, KwWhile, KwNil, KwTrue, KwFalse, KwSelf, KwStr, OpenParen, ClassName, Number, Text,
];

const OTHER_UNARY: [TokenKind; 13] = [
    KwNot, KwDef, KwIf, KwWhile, KwNil, KwTrue, KwFalse, KwSelf, KwStr, OpenParen, ClassName,
    Number, Text,
];

const OPERAND: [TokenKind; 13] = [
    Name, KwDef, KwIf, KwWhile, KwNil, KwTrue, KwFalse, KwSelf, KwStr, OpenParen, ClassName,
    Number, Text,
];

const UNARY: [TokenKind; 14] = [
    KwNot, Name, KwDef, KwIf, KwWhile, KwNil, KwTrue, KwFalse, KwSelf, KwStr, OpenParen, ClassName,
    Number, Text,
];

const EXPRESSION: [TokenKind; 17] = [
    KwPrint, KwType, KwTypeAsk, KwNot, Name, KwDef, KwIf, KwWhile, KwNil, KwTrue, KwFalse, KwSelf,
    KwStr, OpenParen, ClassName, Number, Text,
];

const ITEM: [TokenKind; 18] = [
    Separator, KwPrint, KwType, KwTypeAsk, KwNot, Name, KwDef, KwIf, KwWhile, KwNil, KwTrue,
    KwFalse, KwSelf, KwStr, OpenParen, ClassName, Number, Text,
];

const TYPE: [TokenKind; 6] = [TyNil, TyBool, TyInt, TyStr, TyAny, ClassName];

/// Whether a phrase of this sort may be empty.
pub fn may_be_empty(sort: Sort) -> bool
    ensures { result ≡ may_be_empty sort }
{
    match sort {
        Program
        | Classes
        | Scripts
        | Block
        | Items
        | MoreItems
        | AfterName
        | Types
        | MoreTypes
        | MoreComparison
        | MoreSum
        | MoreProduct
        | MorePostfix
        | Arguments
        | ArgumentList
        | MoreArguments
        | Parameters
        | MoreParameters => true,
        _ => false,
    }
}

/// The kinds of tokens with which a phrase of this sort may begin.
pub fn starts(sort: Sort) -> &'static [TokenKind]
    ensures { result.now ≡ starts sort }
{
    match sort {
        Program | Classes => &[KwClass, KwSetup, KwScript, Separator],
        Scripts => &[KwScript, Separator],
        Block | Items => &ITEM,
        MoreItems => &[Separator],
        Expression | ArgumentList => &EXPRESSION,
        AfterName => &[Dot, Assign, Equals, Less, Plus, Minus, Times, Concat],
        OtherUnary => &OTHER_UNARY,
        Method => &[ClassName],
        MethodName => &[OpenParen, Name],
        Signature | Arguments => &[OpenParen],
        Types | TypeWord => &TYPE,
        MoreTypes | MoreArguments | MoreParameters => &[Comma],
        MoreComparison => &[Equals, Less],
        Sum | Product | Unary => &UNARY,
        MoreSum => &[Plus, Minus, Concat],
        MoreProduct => &[Times],
        Postfix | Primary => &OPERAND,
        MorePostfix => &[Dot],
        Value => &VALUE,
        ElsePart => &[KwElse, KwEnd],
        Parameters => &[Name],
    }
}
