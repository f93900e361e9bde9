//! Why a script stops, and how it ends.

use crate::value::Value;
use hb_deriv::ill::Ill;
use hb_types::ids::NodeId;
use std::alloc::AllocError;

/// Why a script stops before its end. The last five come at script level alone.
#[derive(Clone, Copy, Debug, PartialEq, Eq)]
pub enum Stop {
    /// A receiver or an operand is nil.
    NilValue,
    /// The called method has no body.
    NoBody,
    /// The body of the called method has a fault.
    IllTyped(Ill),
    /// A number is out of the range of 64 bits with a sign.
    Overflow,
    /// A joined text would be too long.
    LongText,
    /// The script would print too much.
    OutputFull,
    /// The type of a method that is being run may not be changed.
    Busy,
    /// A computed name is no name.
    BadName,
    /// Too many calls are live.
    Deep,
    /// There is no room for one more name of a method.
    Full,
    /// A type or a definition was changed as often as may be.
    Worn,
    /// The steps are used up.
    Steps,
    /// The called method has no type.
    NoType,
    /// The called method takes other arguments.
    BadArgs,
    /// A receiver or an operand is of another kind.
    BadOperand,
    /// A variable has no value.
    Unbound,
    /// There is no object whose method runs.
    NoSelf,
}

/// How a script ends: with the value of its last item, or with a stop at a node.
#[derive(Drop)]
pub enum Outcome {
    Done(Value),
    Stopped(Stop, NodeId),
}

/// Why there is no value.
#[derive(Clone, Copy, Debug, PartialEq, Eq)]
pub enum Fail {
    NoMemory,
    Stopped(Stop),
}

impl From<AllocError> for Fail {
    ghost use Rattle.std.specs.Prelude.{◌≡◌};
    ghost use Rattle.hb_eval.specs.declared.stop.Fail.TheVariants.{NoMemory};

    ghost from_gives = { λ _ fail. fail ≡ NoMemory };

    fn from(_: AllocError) -> Fail {
        Fail::NoMemory
    }
}
