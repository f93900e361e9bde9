//! What was read and is not yet used.

ghost use Rattle.std.specs.Prelude.{◌≡◌};

use hb_types::ids::{ClassId, NameId};
use hb_types::types::Ty;

/// Where a token stands: the number of its first byte, and its line and column, both from 1, the column in bytes.
#[derive(Clone, Copy, Debug, PartialEq, Eq)]
pub struct Spot {
    pub at: u32,
    pub line: u32,
    pub column: u32,
}

/// One thing of the pile of what was read and is not yet used. The trees themselves lie in hand, in the same order.
#[derive(Clone, Copy, Debug, PartialEq, Eq)]
pub enum Held {
    /// An expression.
    Operand,
    /// A complete block.
    Closed,
    /// An expression that is an item of the block that began below.
    Item,
    /// An expression that is an argument of the call below.
    Argument,
    /// The own token of a node to come.
    Own(Spot),
    /// The own token of a declaration to come.
    Declaring(Spot),
    /// A name at the start of an operand.
    Word(NameId, Spot),
    /// The variable of an assignment to come, and its `=`.
    Target(NameId, Spot),
    /// The method of a call to come. Its receiver lies below.
    Called(NameId, Spot),
    Class(ClassId, Spot),
    /// The method that is defined or declared.
    Named(ClassId, NameId),
    /// The method whose name an expression computes. That one lies in hand.
    Computed(ClassId),
    Parameter(NameId),
    Type(Ty),
    ParameterType(Ty),
    /// Here a block, a body, the setup or a script of this name begins.
    Block,
    Body,
    Setup,
    Script(NameId),
}

impl Spot {
    /// Its line and column.
    pub fn place(self) -> (u32, u32)
        ensures { result ≡ (self.line, self.column) }
    {
        (self.line, self.column)
    }
}
