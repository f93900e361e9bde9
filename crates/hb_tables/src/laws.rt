//! What is true of histories, and of the verdicts in them.

ghost use Rattle.std.specs.Prelude.{◌≡◌, ◌≤◌, ◌↔◌, ℕ, List, ◌∷◌, ◌++◌, length, Option, None};
ghost use Rattle.std.specs.List.{last_or};
ghost use mathlib.Core.List.{IsPrefix};
ghost use Rattle.hb_types.specs.declared.ids.BodySite.{BodySite};
ghost use Rattle.hb_types.specs.declared.ids.CallNo.{CallNo};
ghost use Rattle.hb_types.specs.declared.ids.KeyId.{KeyId};
ghost use Rattle.hb_types.specs.declared.ids.TypeSite.{TypeSite};
ghost use Rattle.hb_types.specs.declared.types.MethodTy.{MethodTy};
ghost use Rattle.hb_types.specs.declared.types.Ty.{Ty};
ghost use Rattle.hb_tree.specs.declared.parts.Body.{Body};
ghost use Rattle.hb_tree.specs.Table.{Table};
ghost use Rattle.hb_deriv.specs.declared.ill.Ill.{Ill};
ghost use Rattle.hb_deriv.specs.Judge.{Types};
ghost use Rattle.hb_deriv.specs.Judgement.{IsJudged};
ghost use Rattle.hb_deriv.specs.Faults.{BodyFails};
ghost use Rattle.hb_deriv.specs.Events.{SameAt};
ghost use Rattle.hb_tables.specs.declared.entry.Entry.{Entry};
ghost use Rattle.hb_tables.specs.declared.entry.Act.TheVariants.{Hold, Retype};
ghost use Rattle.hb_tables.specs.declared.entry.Verdict.{Verdict};
ghost use Rattle.hb_tables.specs.declared.entry.Verdict.TheVariants as verdict;
ghost use Rattle.hb_tables.specs.declared.entry.By.TheVariants as by;
ghost use Rattle.hb_tables.specs.History.{spot, times, of_caller, journal, entry, IsLegal, Sound};
ghost use Rattle.hb_tables.specs.Changes.{types_given, bodies_given};
ghost use Rattle.hb_tables.specs.Frames.{acts, StaysLive, KeepsHold};
ghost use Rattle.hb_tables.specs.Fronts.{HasFront};
ghost use Rattle.hb_tables.specs.Holdings.{HoldsSince};
ghost use Rattle.hb_names.specs.Names.{Name};
ghost use Rattle.hb_tables.specs.Standing.{standing, count_of};
ghost use Rattle.hb_tables.specs.Verdicts.{verdict_of, looks_of, Reaches};
ghost use Rattle.hb_tables.specs.Rows.{IsDecided, FitsCall, HasCallRows, IsLegalFor};

/// A key has the last type and the last definition that it was given, and its counts are the numbers of those that it was given.
pub fn state_is_what_was_given()
    ensures ty { (k : ℕ) (log : List Entry) → (spot k log).ty ≡ last_or None (types_given k log) }
    ensures changes { (k : ℕ) (log : List Entry) → (spot k log).changes ≡ length (types_given k log) }
    ensures body { (k : ℕ) (log : List Entry) → (spot k log).body ≡ last_or None (bodies_given k log) }
    ensures redefs { (k : ℕ) (log : List Entry) → (spot k log).redefs ≡ length (bodies_given k log) }
{}

/// In a legal list a call holds a key where it began to and has not given it back since. What it holds follows from what its own caller did.
pub fn calls_hold_until_they_free()
    ensures held { (limit c : ℕ) (q : CallNo) (key : KeyId) (log : List Entry) → IsLegal limit log → (times (c, q.0) (spot key.0 log).calls ≡ 1) ↔ HoldsSince c q key log }
    ensures standing { (c q k : ℕ) (log : List Entry) → times (c, q) (spot k log).calls ≡ count_of k (standing q (acts c log)) }
    ensures own { (k c : ℕ) (xs ys : List Entry) → journal c xs ≡ journal c ys → of_caller c (spot k xs).calls ≡ of_caller c (spot k ys).calls }
{}

/// What a hold found stays so while its call does not give the key back.
pub fn holds_keep_types()
    ensures { (limit c : ℕ) (before rest : List Entry) (q : CallNo) (key : KeyId) (ty : Option TypeSite) (n : ℕ)
        → IsLegal limit (before ++ entry c (Hold key q ty n) ∷ rest) → KeepsHold q.0 key.0 (acts c rest)
        → ((spot key.0 (before ++ entry c (Hold key q ty n) ∷ rest)).ty ≡ ty)
        × ((spot key.0 (before ++ entry c (Hold key q ty n) ∷ rest)).changes ≡ n)
        × (1 ≤ times (c, q.0) (spot key.0 (before ++ entry c (Hold key q ty n) ∷ rest)).calls) }
{}

/// While a frame is live, no type that it uses is changed.
pub fn frames_keep_types()
    ensures none { (limit k c q : ℕ) (before rest after : List Entry) (d : ℕ) (key : KeyId) (site : TypeSite)
        → IsLegal limit ((before ++ rest) ++ entry d (Retype key site) ∷ after) → StaysLive q (acts c rest) → times (c, q) (spot k before).calls ≡ 1 → key.0 ≡ k → ⊥ }
    ensures same { (limit k c q : ℕ) (before rest : List Entry) → IsLegal limit (before ++ rest) → StaysLive q (acts c rest) → times (c, q) (spot k before).calls ≡ 1
        → ((spot k (before ++ rest)).ty ≡ (spot k before).ty) × ((spot k (before ++ rest)).changes ≡ (spot k before).changes) }
{}

/// A legal list keeps the counts, the sites and the holds in their bounds.
pub fn legal_lists_stay_in_bounds()
    ensures { (limit : ℕ) (log : List Entry) → IsLegal limit log → (k : ℕ) → Sound limit (spot k log) }
{}

/// A beginning of a legal list is legal, and its calls are decided as their rows say. Where this holds of each caller's calls in its front, it holds in the whole list.
pub fn fronts_make_the_history()
    ensures legal { (limit : ℕ) (xs ys : List Entry) → IsPrefix xs ys → IsLegal limit ys → IsLegal limit xs }
    ensures calls { (t : Table) (names : List Name) (xs ys : List Entry) → IsPrefix xs ys → HasCallRows t names ys → HasCallRows t names xs }
    ensures whole { (t : Table) (names : List Name) (log : List Entry) → ((c : ℕ) → HasFront (λ before e. FitsCall t names e.caller.0 before e.act) log c) → HasCallRows t names log }
{}

/// A verdict enters a body exactly where the body is judged, and tells a fault exactly where the body has it.
pub fn verdict_is_the_judgement()
    ensures enters { (t : Table) (types : Types) (class : ℕ) (b : Option Body) (m : Option MethodTy) (kinds : List Ty)
        → (verdict_of t types class b m kinds ≡ verdict.Enter by.Fresh) ↔ Reaches (IsJudged types) t class b m kinds }
    ensures fails { (t : Table) (types : Types) (class : ℕ) (b : Option Body) (m : Option MethodTy) (kinds : List Ty) (f : Ill)
        → (verdict_of t types class b m kinds ≡ verdict.IllTyped f) ↔ Reaches (λ s. BodyFails types s f) t class b m kinds }
{}

/// A verdict and its looks are the same in tables that have the same types at these looks.
pub fn verdict_rests_on_its_looks()
    ensures { (t : Table) (types others : Types) (class : ℕ) (b : Option Body) (m : Option MethodTy) (kinds : List Ty) → SameAt types others (looks_of t types class b m kinds)
        → (verdict_of t types class b m kinds ≡ verdict_of t others class b m kinds) × (looks_of t types class b m kinds ≡ looks_of t others class b m kinds) }
{}

/// A call that is decided as its row says for a list of names is so for each longer list.
pub fn calls_fit_longer_lists()
    ensures one { (t : Table) (names more : List Name) (log : List Entry) (x : ℕ × ℕ) (key : ℕ) (site : Option BodySite) (kinds : List Ty) (v : Verdict)
        → IsDecided t names log x key site kinds v → IsDecided t (names ++ more) log x key site kinds v }
    ensures all { (limit : ℕ) (t : Table) (names more : List Name) (log : List Entry) → IsLegalFor limit t names log → IsLegalFor limit t (names ++ more) log }
{}
