//! What a seat knows of the row, and the rule of its table.

use atomic_table::{Join, Seat, Shared, Split, TableRule};
use std::collections::LinkedList;

/// What a caller knew and had placed when its seat was put together with another.
pub struct Front {
    pub caller: u64,
    pub known: LinkedList<(u64, LinkedList<u8>)>,
    pub placed: LinkedList<(u64, LinkedList<u8>)>,
}

/// What a seat knows. No value of it is made.
pub struct View {
    pub caller: u64,
    /// False once another seat has taken it in.
    pub live: bool,
    /// In caller 0's seat: how many callers were made.
    pub made: u64,
    /// The callers whose places are this seat's.
    pub owns: LinkedList<u64>,
    /// True once it has taken in another seat. It places nothing any more.
    pub shut: bool,
    /// The fronts of the seats that were put together.
    pub took: LinkedList<Front>,
    /// The names of the first places.
    pub known: LinkedList<(u64, LinkedList<u8>)>,
    /// The row words of these places.
    pub offers: LinkedList<u64>,
    /// The names that it placed, in the order in which it placed them.
    pub placed: LinkedList<(u64, LinkedList<u8>)>,
    /// The offer in which it spells the next name.
    pub offer: u64,
    /// The words that stand in this offer.
    pub draft: LinkedList<u64>,
}

/// What holds of the words and the seats of a row between any two steps.
pub struct Law;

impl TableRule<(), View, ()> for Law {
    ghost use Rattle.hb_row.specs.Row.{Rowed, newcomer};

    ghost holds = { λ _. Rowed };

    ghost first = { λ _. newcomer 0 1 };
}

/// What the steps are taken on.
pub type Steps = Shared<(), View, (), Law>;

/// What a seat steps with.
pub type Place = Seat<(), View>;

/// How caller 0's seat makes the next caller's.
pub struct Forks;

impl Split<View> for Forks {
    ghost use Rattle.hb_row.specs.Row.{forked, newcomer};

    ghost left = { forked };

    ghost right = { λ v. newcomer v.made 0 };
}

/// How a seat takes in another.
pub struct Gathers;

impl Join<View> for Gathers {
    ghost use Rattle.hb_row.specs.Row.{joined, spent};

    ghost both = { joined };

    ghost spent = { spent };
}
