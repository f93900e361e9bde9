//! What is done on the way through a text, so that a program comes of it.

use hb_tree::node::Op;
use hb_types::types::Ty;

/// An action of the grammar. It stands in an alternative where it is done: behind the token that it is about, or where
/// a node is complete. What is read and not yet used lies on a pile, the last one on top.
#[derive(Clone, Copy, Debug, PartialEq, Eq)]
pub enum Action {
    /// The class of this name is declared.
    DeclareClass,
    BeginSetup,
    EndSetup,
    /// The script of this name begins.
    BeginScript,
    EndScript,
    BeginBlock,
    /// The block is complete at this token.
    EndBlock,
    /// The expression is an item of the block.
    AddItem,
    /// A parenthesis opens a construct.
    Open,
    Close,
    /// A word opens a construct, and is the own token of its node.
    OpenWord,
    /// A `=` opens a construct, and is the own token of its node.
    OpenAssign,
    /// An operator is the own token of its node.
    HoldOperator,
    /// A `str` is the own token of its node.
    HoldStr,
    /// A `type` or `type?` is the own token of its node.
    HoldDeclare,
    /// A name at the start of an operand.
    HoldName,
    /// The name of the method that is called.
    HoldCall,
    /// A class that is made or has a method.
    HoldClass,
    /// The method has this name.
    NameMethod,
    /// The expression computes the method's name.
    ComputeMethod,
    /// One more parameter of a definition.
    HoldParameter,
    /// The parameters are complete.
    BeginBody,
    HoldType(Ty),
    /// The type of the objects of this class.
    HoldClassType,
    /// The type is that of a parameter.
    AddParameterType,
    /// The expression is an argument of the call.
    AddArgument,
    PutNil,
    PutBoolean(bool),
    PutSelf,
    PutNumber,
    PutText,
    PutVariable,
    PutNew,
    PutAssign,
    PutPrint,
    PutStr,
    PutNot,
    PutBinary(Op),
    PutIf,
    PutWhile,
    PutCall,
    PutDef,
    /// A declaration is complete, of `type?` where the flag is true.
    PutDeclare(bool),
}
