//! What a machine has in hand.

use crate::cont::Cont;
use crate::stop::Stop;
use crate::value::Value;
use hb_cache::Cache;
use hb_types::ids::{ClassId, NameId, NodeId};

/// What a script has in hand beside its frames and what is left to do.
#[derive(Drop)]
pub struct State {
    /// Values that wait for what is left to do, the last on top.
    pub operands: Vec<Value>,
    /// The variables of all live frames, those of the last on top.
    pub vars: Vec<(NameId, Value)>,
    /// The lines that were printed.
    pub output: Vec<u8>,
    /// The value in hand.
    pub acc: Value,
    /// What begins next; of a stop, its node.
    pub at: NodeId,
    pub stop: Stop,
    /// The frame's variables are those from here on.
    pub base: usize,
    /// The class of self, where a method runs.
    pub class: Option<ClassId>,
    pub fuel: u32,
    /// How many expressions have begun.
    pub begun: u64,
    /// How many calls were made. Their numbers go from 1 on.
    pub made: u32,
    /// How many of them were decided.
    pub decided: u32,
    /// How many of them entered on a check that the script itself had kept.
    pub own: u32,
    /// How many of them entered on a fresh check.
    pub fresh: u32,
    /// The checks that the script keeps.
    pub cache: Cache,
}

/// What comes next.
#[derive(Clone, Copy, Debug, PartialEq, Eq)]
pub enum Hand {
    /// An expression begins.
    Begins,
    /// A value is in hand.
    Gives,
    /// The script stops.
    Stops,
}

/// What a step leaves to do: behind, and first once a value is there. Then what comes next.
#[derive(Clone, Copy, Debug)]
pub struct Move {
    pub under: Option<Cont>,
    pub push: Option<Cont>,
    pub hand: Hand,
}
