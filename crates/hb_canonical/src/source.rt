//! What is true of every text whose actions build something, and of the canonical text of what it says.

ghost use Rattle.std.specs.Prelude.{◌≡◌, ◌≤◌, ℕ, List};
ghost use Rattle.hb_lex.specs.Text.{HasTokens};
ghost use Rattle.hb_lex.specs.declared.spans.Token.{Token};
ghost use Rattle.hb_tree.specs.declared.limits.TheConstants.{CONSTRUCTS_MAX};
ghost use Rattle.hb_grammar.specs.Language.{Act, HasActions, kinds_of};
ghost use Rattle.hb_build.specs.Acts.{Goes, Work, nothing};
ghost use Rattle.hb_build.specs.Follow.{follow};
ghost use Rattle.hb_canonical.specs.Deeds.{bare, deepest, deeds_in, deeds_of};
ghost use Rattle.hb_canonical.specs.Perform.{perform, spots_in};

/// A text does the same as the canonical text of what it says, in the same order, but for parentheses.
pub fn source_words()
    ensures { (text : List ℕ) (tokens : List Token) (done : List Act) (w : Work)
        → HasActions (kinds_of tokens) done → follow text tokens done nothing ≡ Goes w
        → bare (deeds_in text tokens done) ≡ bare (deeds_of w.said) }
{}

/// The canonical text of what a text says opens no more constructs inside one another than there may be: it has
/// parentheses only where the text needs them too.
pub fn source_depth()
    ensures { (text : List ℕ) (tokens : List Token) (done : List Act) (w : Work)
        → HasActions (kinds_of tokens) done → follow text tokens done nothing ≡ Goes w
        → deepest (deeds_of w.said) 0 ≤ CONSTRUCTS_MAX }
{}

/// What the actions of a text build, its deeds build with no sight of the text.
pub fn deeds_build()
    ensures { (text : List ℕ) (tokens : List Token) (done : List Act) (w : Work)
        → HasTokens text tokens → HasActions (kinds_of tokens) done
        → follow text tokens done w ≡ perform (spots_in text tokens done) (deeds_in text tokens done) w }
{}
