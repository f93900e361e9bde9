//! The nodes of a program. A node's parts are other nodes, by their numbers.

ghost use Rattle.std.specs.Prelude.{◌≡◌, ◌≤◌, length};
ghost use Rattle.hb_tree.specs.Nodes.{args_of};

use crate::limits::ARGUMENTS_MAX;
use hb_types::ids::{BodySite, ClassId, NameId, NodeId, TextId, TypeSite};

/// What stands between two operands: `+`, `-`, `*`, `++`, `<` or `==`.
#[derive(Clone, Copy, Debug, PartialEq, Eq, Hash)]
pub enum Op {
    Add,
    Sub,
    Mul,
    Concat,
    Less,
    Equal,
}

/// The method that a `def` or a `type` speaks of.
#[derive(Clone, Copy, Debug, PartialEq, Eq)]
pub enum Method {
    /// `A.m`
    Named(ClassId, NameId),
    /// `A.(e)`, where the node's value is the name.
    Computed(ClassId, NodeId),
}

/// The arguments of a call. The places past the count are filled with the receiver.
#[derive(Clone, Copy, Debug, PartialEq, Eq)]
pub struct ArgList {
    pub count: u8,
    pub ids: [NodeId; ARGUMENTS_MAX],
}

/// A node. Each but `Block` is an expression.
#[derive(Clone, Copy, Debug, PartialEq, Eq)]
pub enum Node {
    Nil,
    True,
    False,
    SelfRef,
    Int(i64),
    Text(TextId),
    Var(NameId),
    New(ClassId),
    Assign(NameId, NodeId),
    Print(NodeId),
    ToStr(NodeId),
    Not(NodeId),
    Binary(Op, NodeId, NodeId),
    /// A condition and two blocks. An absent `else` is an empty block.
    If(NodeId, NodeId, NodeId),
    /// A condition and a block.
    While(NodeId, NodeId),
    /// A receiver, the method's name and the arguments.
    Call(NodeId, NameId, ArgList),
    Def(Method, BodySite),
    /// `type`, or `type?` where the flag is true.
    Declare(Method, TypeSite, bool),
    /// The first and the count of its items in the program's list of items.
    Block(u32, u32),
}

/// A node with the place of its own token: line and column from 1, the column in bytes.
#[derive(Clone, Copy, Debug, PartialEq, Eq)]
pub struct Placed {
    pub node: Node,
    pub line: u32,
    pub column: u32,
}

/// The arguments themselves.
pub fn arguments(args: &ArgList) -> &[NodeId]
    requires { args.now.count ≤ ARGUMENTS_MAX }
    ensures value { result.now ≡ args_of args.now }
    ensures count { length result.now ≡ args.now.count }
{
    &args.ids[..args.count as usize]
}
