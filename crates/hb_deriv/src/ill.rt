//! Why the judgement does not hold of a body.

use hb_types::ids::NodeId;

/// What is wrong at a node.
#[derive(Clone, Copy, Debug, PartialEq, Eq, Hash)]
pub enum Reason {
    /// A variable that has no type yet.
    Unbound,
    /// The method that is called has no type.
    NoType,
    /// The receiver's type is not a class.
    Receiver,
    /// Another number of arguments, or of a body's parameters, than the method's type has.
    Count,
    /// An argument's type is not below its parameter's.
    Argument,
    /// An operand's type is not below what the operator asks.
    Operand,
    /// A loop's turn gives a variable a type that is not below the one before.
    Loop,
    /// The body's type is not below the declared result.
    Result,
}

/// The first fault of a body.
#[derive(Clone, Copy, Debug, PartialEq, Eq, Hash)]
pub struct Ill {
    pub node: NodeId,
    pub reason: Reason,
}
