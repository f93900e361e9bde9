//! What is left to do with a value.

use hb_tree::node::Op;
use hb_types::ids::{NameId, NodeId};

/// What is left to do with a value, once it is there. It holds numbers of nodes alone: operands stand on a stack of their own.
#[derive(Clone, Copy, Debug)]
pub enum Cont {
    /// Give it to a variable.
    Assign(NameId),
    Print(NodeId),
    ToStr,
    Not,
    /// It is a left operand; the right one comes next.
    Left(NodeId, Op, NodeId),
    /// It is a right operand.
    Right(NodeId, Op),
    /// Go on with one of two blocks.
    Choose(NodeId, NodeId),
    /// It is that of a loop's condition.
    Test(NodeId, NodeId),
    /// It is that of a loop's block.
    Turn(NodeId, NodeId),
    /// Go on with the items of a block from a place on.
    Items(NodeId, u32),
    /// It is the receiver of a call.
    Receiver(NodeId),
    /// It is the argument of a call behind so many others.
    Arguments(NodeId, u8),
    /// The node is a `def` or a `type`. It is the name of its method, where that is computed.
    Method(NodeId),
    /// It is that of a method's body.
    Frame,
}
