//! What a seat knows, and the rule of the words. (docs/ARCHITECTURE.md, "Tables without a lock")
use atomic_table::{Join, Seat, Shared, Split, TableRule};
use hb_tables::entry::Entry;
use std::collections::LinkedList;

/// What a caller knew last.
pub struct Front {
    pub caller: u64,
    pub seen: LinkedList<Entry>,
}

/// What a seat knows. Proofs alone speak of it, and no value of it is made.
pub struct View {
    pub limit: u64,
    pub caller: u64,
    /// False once another seat has taken it in.
    pub live: bool,
    /// In caller 0's seat: how many callers were made.
    pub made: u64,
    /// The callers whose entries all stand in `seen`.
    pub owns: LinkedList<u64>,
    /// True once it has taken in another seat. It makes no entry any more.
    pub shut: bool,
    /// The fronts of the seats that were put together.
    pub took: LinkedList<Front>,
    /// The front.
    pub seen: LinkedList<Entry>,
}

/// The rule of the words: they are those after one legal history, of which each seat knows a front.
pub struct Law;

impl TableRule<(), View, u32> for Law {
    ghost use Rattle.hb_words.specs.Words.{Kept, newcomer};
    ghost use Rattle.std.specs.Prelude.{[]};

    ghost holds = { Kept };

    ghost first = { λ limit. newcomer limit 0 1 [] };
}

/// The words, as those step on them who share them.
pub type Steps = Shared<(), View, u32, Law>;

/// A seat at them.
pub type Place = Seat<(), View>;

/// How caller 0's seat makes the next caller's.
pub struct Forks;

impl Split<View> for Forks {
    ghost use Rattle.hb_words.specs.Words.{forked, newcomer};

    ghost left = { forked };

    ghost right = { λ v. newcomer v.limit v.made 0 v.seen };
}

/// How a seat takes in another.
pub struct Gathers;

impl Join<View> for Gathers {
    ghost use Rattle.hb_words.specs.Words.{joined, spent};

    ghost both = { joined };

    ghost spent = { spent };
}

/// How a seat leaves a copy of its view that steps no more.
pub struct Remembers;

impl Split<View> for Remembers {
    ghost use Rattle.hb_words.specs.Words.{memory};

    ghost left = { λ v. v };

    ghost right = { memory };
}
