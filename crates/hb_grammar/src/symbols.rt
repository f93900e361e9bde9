//! The symbols of the grammar.

use crate::actions::Action;
use hb_lex::TokenKind;

/// A sort of phrase. One whose name begins with `More` is what may go on behind a phrase.
#[derive(Clone, Copy, Debug, PartialEq, Eq)]
pub enum Sort {
    Program,
    Classes,
    Scripts,
    Block,
    Items,
    MoreItems,
    Expression,
    AfterName,
    OtherUnary,
    Method,
    MethodName,
    Signature,
    Types,
    MoreTypes,
    TypeWord,
    MoreComparison,
    Sum,
    MoreSum,
    Product,
    MoreProduct,
    Unary,
    Postfix,
    MorePostfix,
    Arguments,
    ArgumentList,
    MoreArguments,
    Primary,
    Value,
    ElsePart,
    Parameters,
    MoreParameters,
}

/// What an alternative is made of: tokens of one kind, phrases of one sort, and what is done between them.
#[derive(Clone, Copy, Debug, PartialEq, Eq)]
pub enum Symbol {
    Token(TokenKind),
    Phrase(Sort),
    Action(Action),
}
