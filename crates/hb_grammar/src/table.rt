//! The table of the grammar.

ghost use Rattle.std.specs.Prelude.{◌≡◌, map};
ghost use Rattle.hb_grammar.specs.Grammar.{alternatives};

use crate::actions::Action::*;
use crate::symbols::Sort::{self, *};
use crate::symbols::Symbol::{self, Action as A, Phrase as P, Token as T};
use hb_lex::TokenKind::*;
use hb_tree::node::Op;
use hb_types::types::Ty;

// The parts of a text.

const PROGRAM: &[&[Symbol]] = &[&[P(Classes)]];

const CLASSES: &[&[Symbol]] = &[
    &[T(Separator), P(Classes)],
    &[T(KwClass), T(ClassName), A(DeclareClass), P(Classes)],
    &[
        T(KwSetup),
        A(BeginSetup),
        P(Block),
        T(KwEnd),
        A(EndBlock),
        A(EndSetup),
        P(Scripts),
    ],
    &[
        T(KwScript),
        T(Name),
        A(BeginScript),
        P(Block),
        T(KwEnd),
        A(EndBlock),
        A(EndScript),
        P(Scripts),
    ],
    &[],
];

const SCRIPTS: &[&[Symbol]] = &[
    &[T(Separator), P(Scripts)],
    &[
        T(KwScript),
        T(Name),
        A(BeginScript),
        P(Block),
        T(KwEnd),
        A(EndBlock),
        A(EndScript),
        P(Scripts),
    ],
    &[],
];

// Blocks.

const BLOCK: &[&[Symbol]] = &[&[A(BeginBlock), P(Items)]];

const ITEMS: &[&[Symbol]] = &[
    &[T(Separator), P(Items)],
    &[P(Expression), A(AddItem), P(MoreItems)],
    &[],
];

const MORE_ITEMS: &[&[Symbol]] = &[&[T(Separator), P(Items)], &[]];

// Expressions.

const EXPRESSION: &[&[Symbol]] = &[
    &[T(Name), A(HoldName), P(AfterName)],
    &[T(KwPrint), A(OpenWord), P(Expression), A(PutPrint)],
    &[
        T(KwType),
        A(HoldDeclare),
        P(Method),
        T(Colon),
        P(Signature),
        A(PutDeclare(false)),
    ],
    &[
        T(KwTypeAsk),
        A(HoldDeclare),
        P(Method),
        T(Colon),
        P(Signature),
        A(PutDeclare(true)),
    ],
    &[P(OtherUnary), P(MoreProduct), P(MoreSum), P(MoreComparison)],
];

const AFTER_NAME: &[&[Symbol]] = &[
    &[T(Assign), A(OpenAssign), P(Expression), A(PutAssign)],
    &[
        A(PutVariable),
        P(MorePostfix),
        P(MoreProduct),
        P(MoreSum),
        P(MoreComparison),
    ],
];

const OTHER_UNARY: &[&[Symbol]] = &[
    &[T(KwNot), A(OpenWord), P(Unary), A(PutNot)],
    &[P(Value), P(MorePostfix)],
];

// Methods and their types.

const METHOD: &[&[Symbol]] = &[&[T(ClassName), A(HoldClass), T(Dot), P(MethodName)]];

const METHOD_NAME: &[&[Symbol]] = &[
    &[
        T(OpenParen),
        A(Open),
        P(Expression),
        T(CloseParen),
        A(Close),
        A(ComputeMethod),
    ],
    &[T(Name), A(NameMethod)],
];

const SIGNATURE: &[&[Symbol]] = &[&[
    T(OpenParen),
    A(Open),
    P(Types),
    T(CloseParen),
    A(Close),
    T(Arrow),
    P(TypeWord),
]];

const TYPES: &[&[Symbol]] = &[&[P(TypeWord), A(AddParameterType), P(MoreTypes)], &[]];

const MORE_TYPES: &[&[Symbol]] = &[
    &[T(Comma), P(TypeWord), A(AddParameterType), P(MoreTypes)],
    &[],
];

const TYPE_WORD: &[&[Symbol]] = &[
    &[T(ClassName), A(HoldClassType)],
    &[T(TyBool), A(HoldType(Ty::Bool))],
    &[T(TyInt), A(HoldType(Ty::Int))],
    &[T(TyStr), A(HoldType(Ty::Str))],
    &[T(TyAny), A(HoldType(Ty::Any))],
    &[T(TyNil), A(HoldType(Ty::Nil))],
];

// Operators.

const MORE_COMPARISON: &[&[Symbol]] = &[
    &[T(Less), A(HoldOperator), P(Sum), A(PutBinary(Op::Less))],
    &[T(Equals), A(HoldOperator), P(Sum), A(PutBinary(Op::Equal))],
    &[],
];

const SUM: &[&[Symbol]] = &[&[P(Product), P(MoreSum)]];

const MORE_SUM: &[&[Symbol]] = &[
    &[
        T(Plus),
        A(HoldOperator),
        P(Product),
        A(PutBinary(Op::Add)),
        P(MoreSum),
    ],
    &[
        T(Minus),
        A(HoldOperator),
        P(Product),
        A(PutBinary(Op::Sub)),
        P(MoreSum),
    ],
    &[
        T(Concat),
        A(HoldOperator),
        P(Product),
        A(PutBinary(Op::Concat)),
        P(MoreSum),
    ],
    &[],
];

const PRODUCT: &[&[Symbol]] = &[&[P(Unary), P(MoreProduct)]];

const MORE_PRODUCT: &[&[Symbol]] = &[
    &[
        T(Times),
        A(HoldOperator),
        P(Unary),
        A(PutBinary(Op::Mul)),
        P(MoreProduct),
    ],
    &[],
];

const UNARY: &[&[Symbol]] = &[&[T(KwNot), A(OpenWord), P(Unary), A(PutNot)], &[P(Postfix)]];

// Calls and what is called.

const POSTFIX: &[&[Symbol]] = &[&[P(Primary), P(MorePostfix)]];

const MORE_POSTFIX: &[&[Symbol]] = &[
    &[
        T(Dot),
        T(Name),
        A(HoldCall),
        P(Arguments),
        A(PutCall),
        P(MorePostfix),
    ],
    &[],
];

const ARGUMENTS: &[&[Symbol]] = &[
    &[
        T(OpenParen),
        A(Open),
        P(ArgumentList),
        T(CloseParen),
        A(Close),
    ],
    &[],
];

const ARGUMENT_LIST: &[&[Symbol]] = &[&[P(Expression), A(AddArgument), P(MoreArguments)], &[]];

const MORE_ARGUMENTS: &[&[Symbol]] = &[
    &[T(Comma), P(Expression), A(AddArgument), P(MoreArguments)],
    &[],
];

const PRIMARY: &[&[Symbol]] = &[&[T(Name), A(HoldName), A(PutVariable)], &[P(Value)]];

const VALUE: &[&[Symbol]] = &[
    &[T(Text), A(PutText)],
    &[T(KwNil), A(PutNil)],
    &[T(KwTrue), A(PutBoolean(true))],
    &[T(KwFalse), A(PutBoolean(false))],
    &[T(KwSelf), A(PutSelf)],
    &[T(ClassName), A(HoldClass), T(Dot), T(KwNew), A(PutNew)],
    &[
        T(OpenParen),
        A(Open),
        P(Expression),
        T(CloseParen),
        A(Close),
    ],
    &[
        T(KwStr),
        A(HoldStr),
        T(OpenParen),
        A(Open),
        P(Expression),
        T(CloseParen),
        A(Close),
        A(PutStr),
    ],
    &[
        T(KwIf),
        A(OpenWord),
        P(Expression),
        T(KwThen),
        P(Block),
        P(ElsePart),
        A(PutIf),
    ],
    &[
        T(KwWhile),
        A(OpenWord),
        P(Expression),
        T(KwDo),
        P(Block),
        T(KwEnd),
        A(EndBlock),
        A(PutWhile),
    ],
    &[
        T(KwDef),
        A(OpenWord),
        P(Method),
        T(OpenParen),
        A(Open),
        P(Parameters),
        T(CloseParen),
        A(Close),
        A(BeginBody),
        P(Block),
        T(KwEnd),
        A(EndBlock),
        A(PutDef),
    ],
    &[T(Number), A(PutNumber)],
];

const ELSE_PART: &[&[Symbol]] = &[
    &[T(KwElse), A(EndBlock), P(Block), T(KwEnd), A(EndBlock)],
    &[T(KwEnd), A(EndBlock), A(BeginBlock), A(EndBlock)],
];

const PARAMETERS: &[&[Symbol]] = &[&[T(Name), A(HoldParameter), P(MoreParameters)], &[]];

const MORE_PARAMETERS: &[&[Symbol]] = &[
    &[T(Comma), T(Name), A(HoldParameter), P(MoreParameters)],
    &[],
];

/// The alternatives of a sort of phrase. (docs/LANGUAGE.md, "The grammar of the whole language")
pub fn alternatives(sort: Sort) -> &'static [&'static [Symbol]]
    ensures { map (λ phrase. phrase.now) result.now ≡ alternatives sort }
{
    match sort {
        Program => PROGRAM,
        Classes => CLASSES,
        Scripts => SCRIPTS,
        Block => BLOCK,
        Items => ITEMS,
        MoreItems => MORE_ITEMS,
        Expression => EXPRESSION,
        AfterName => AFTER_NAME,
        OtherUnary => OTHER_UNARY,
        Method => METHOD,
        MethodName => METHOD_NAME,
        Signature => SIGNATURE,
        Types => TYPES,
        MoreTypes => MORE_TYPES,
        TypeWord => TYPE_WORD,
        MoreComparison => MORE_COMPARISON,
        Sum => SUM,
        MoreSum => MORE_SUM,
        Product => PRODUCT,
        MoreProduct => MORE_PRODUCT,
        Unary => UNARY,
        Postfix => POSTFIX,
        MorePostfix => MORE_POSTFIX,
        Arguments => ARGUMENTS,
        ArgumentList => ARGUMENT_LIST,
        MoreArguments => MORE_ARGUMENTS,
        Primary => PRIMARY,
        Value => VALUE,
        ElsePart => ELSE_PART,
        Parameters => PARAMETERS,
        MoreParameters => MORE_PARAMETERS,
    }
}
