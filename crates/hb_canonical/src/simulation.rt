//! What two lists of deeds build that differ in parentheses alone.

ghost use Rattle.std.specs.Prelude.{◌≡◌, ◌≤◌, ℕ, List};
ghost use Rattle.hb_tree.specs.declared.limits.TheConstants.{CONSTRUCTS_MAX};
ghost use Rattle.hb_tree.specs.Program.{IsProgram};
ghost use Rattle.hb_tree.specs.Table.{Table};
ghost use Rattle.hb_build.specs.declared.held.Spot.{Spot};
ghost use Rattle.hb_build.specs.Acts.{Goes, Work, nothing};
ghost use Rattle.hb_build.specs.Said.{said_in};
ghost use Rattle.hb_canonical.specs.Calm.{IsCalm};
ghost use Rattle.hb_canonical.specs.Deeds.{Deed, bare, deepest, deeds_of};
ghost use Rattle.hb_canonical.specs.Perform.{perform};
ghost use Rattle.hb_canonical.specs.Same.{IsSameButPlaces};

/// What deeds build, others build that are the same but for parentheses and places, where these are calm and open no
/// more constructs inside one another than there may be.
pub fn simulated()
    ensures { (first second : ℕ → Spot) (ds es : List Deed) (w : Work)
        → bare ds ≡ bare es → IsCalm es → deepest es 0 ≤ CONSTRUCTS_MAX → perform first ds nothing ≡ Goes w
        → (v : Work) × (perform second es nothing ≡ Goes v) × IsSameButPlaces w.said v.said }
{}

/// The deeds of what a program says are calm: each parenthesis opens where an expression begins, or over no argument.
pub fn deeds_calm()
    ensures { (t : Table) → IsProgram t → IsCalm (deeds_of (said_in t)) }
{}
