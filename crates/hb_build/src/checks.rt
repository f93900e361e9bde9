//! The limits that a step may pass.

ghost use Rattle.std.specs.Prelude.{◌≡◌, ◌≤◌, ◌+◌, ◌<◌, ◌-◌, ◌&&◌, MatchResult, false, true, nat_le, nat_lt, length, take, reverse, slice_get, None, Some};
ghost use Rattle.std.specs.Bool.{Decides};
ghost use Rattle.std.specs.List.{AllByRecursion};
ghost use Rattle.hb_build.specs.Pile.{is_full};
ghost use Rattle.hb_build.specs.Acts.{passed};
ghost use Rattle.hb_build.specs.Sound.{IsSound, pile_of};

use crate::builder::Builder;
use crate::faults::{Limit, ParseFail};
use crate::held::{Held, Spot};
use hb_tree::limits::{ARGUMENTS_MAX, CONSTRUCTS_MAX, HEIGHT_MAX, NODES_IN_BODY_MAX, NODES_MAX};

// Whether these are the same.
fn is_same(one: Held, other: Held) -> bool
    ensures { Decides result (one ≡ other) }
{
    one == other
}

/// How many of the last things are this one.
pub fn run_of(held: &[Held], thing: Held) -> usize
    ensures within { result ≤ length held.now }
    ensures same { AllByRecursion (λ t. t ≡ thing) (take result (reverse held.now)) }
    ensures ends { slice_get (reverse held.now) result ≡ Some thing → ⊥ }
{
    let mut count = 0;
    while count < held.len() && is_same(held[held.len() - 1 - count], thing) {
        count += 1;
    }
    count
}

impl Builder {
    /// An expression begins here, which may be no argument too many.
    pub(crate) fn begins(&self, spot: Spot) -> Result<(), ParseFail>
        requires { IsSound self.now }
        ensures { MatchResult result
            (λ _. is_full (pile_of self.now) ≡ false)
            (λ fault. (is_full (pile_of self.now) ≡ true) × (fault ≡ ParseFail.TooMany Limit.Arguments spot.at)) }
    {
        if run_of(&self.held, Held::Argument) >= ARGUMENTS_MAX {
            return Err(ParseFail::TooMany(Limit::Arguments, spot.at));
        }
        Ok(())
    }

    /// A construct opens here, which may be too deep.
    pub(crate) fn opens(&self, spot: Spot) -> Result<(), ParseFail>
        ensures { MatchResult result
            (λ _. nat_le CONSTRUCTS_MAX self.now.depth ≡ false)
            (λ fault. (nat_le CONSTRUCTS_MAX self.now.depth ≡ true) × (fault ≡ ParseFail.TooDeep spot.at)) }
    {
        if self.depth >= CONSTRUCTS_MAX {
            return Err(ParseFail::TooDeep(spot.at));
        }
        Ok(())
    }

    /// A node is complete, whose highest part has this height, with its own token here; it may pass a limit.
    pub(crate) fn completes(&self, highest: usize, spot: Spot) -> Result<(), ParseFail>
        ensures { MatchResult result
            (λ _. passed (1 + highest) (length self.now.draft.table.nodes) (self.now.scope.is_body && nat_lt NODES_IN_BODY_MAX (self.now.scope.nodes + 1)) spot.at ≡ None)
            (λ fault. passed (1 + highest) (length self.now.draft.table.nodes) (self.now.scope.is_body && nat_lt NODES_IN_BODY_MAX (self.now.scope.nodes + 1)) spot.at ≡ Some fault) }
    {
        if highest >= HEIGHT_MAX {
            return Err(ParseFail::TooDeep(spot.at));
        }
        if self.draft.nodes() >= NODES_MAX {
            return Err(ParseFail::TooMany(Limit::Nodes, spot.at));
        }
        if self.scope.is_body && self.scope.nodes >= NODES_IN_BODY_MAX {
            return Err(ParseFail::TooMany(Limit::Body, spot.at));
        }
        Ok(())
    }
}
