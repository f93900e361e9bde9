//! What is true of every list of tokens.

ghost use Rattle.std.specs.Prelude.{◌≡◌, ℕ, List};
ghost use Rattle.hb_lex.specs.declared.kinds.TokenKind.{TokenKind};
ghost use Rattle.hb_grammar.specs.Language.{Act, HasActions, HasFirstActions, IsProgramText, Misses};
ghost use Rattle.hb_grammar.specs.declared.wanted.Wanted.{Wanted};

/// Tokens are a program's or stop to begin one, never both, and at one place, where one thing is wanted; and both a
/// program's tokens and those that stop to begin one have one list of actions.
pub fn one_answer()
    ensures apart { (kinds : List TokenKind) (at : ℕ) (wanted : Wanted) → IsProgramText kinds → Misses kinds at wanted → ⊥ }
    ensures place { (kinds : List TokenKind) (at at2 : ℕ) (wanted wanted2 : Wanted)
        → Misses kinds at wanted → Misses kinds at2 wanted2 → at ≡ at2 }
    ensures wanted { (kinds : List TokenKind) (at at2 : ℕ) (wanted wanted2 : Wanted)
        → Misses kinds at wanted → Misses kinds at2 wanted2 → wanted ≡ wanted2 }
    ensures actions { (kinds : List TokenKind) (done done2 : List Act)
        → HasActions kinds done → HasActions kinds done2 → done ≡ done2 }
    ensures first_actions { (kinds : List TokenKind) (at at2 : ℕ) (wanted wanted2 : Wanted) (done done2 : List Act)
        → HasFirstActions kinds at wanted done → HasFirstActions kinds at2 wanted2 done2 → done ≡ done2 }
{}
