//! What is true of the judgement, its faults, its looks and derivations.

ghost use Rattle.std.specs.Prelude.{◌≡◌, ◌⊎◌, ◌↔◌, ℕ, List, ◌∷◌, ◌++◌, Some, Ok, Err};
ghost use Rattle.hb_types.specs.declared.types.Ty.{Ty};
ghost use Rattle.hb_types.specs.Variables.{Variables};
ghost use Rattle.hb_tree.specs.Table.{Table};
ghost use Rattle.hb_tree.specs.Tree.{Tree};
ghost use Rattle.hb_deriv.specs.declared.ill.Ill.{Ill};
ghost use Rattle.hb_deriv.specs.Judge.{Key, Subject, Typed, Types, judge, judge_body};
ghost use Rattle.hb_deriv.specs.Judgement.{IsJudged, Judged};
ghost use Rattle.hb_deriv.specs.Faults.{BodyFails, Fails};
ghost use Rattle.hb_deriv.specs.Events.{SameAt, events_body, looks};
ghost use Rattle.hb_deriv.specs.Derivation.{AgreesWith, Content, Derives, Sites};
ghost use Rattle.hb_deriv.specs.Walk.{IsGood};
ghost use Rattle.hb_deriv.specs.Programs.{IsFor, sites_of, subject_of};

/// The judgement holds as it is computed.
pub fn judged_is_computed()
    ensures sound { (types : Types) (self : ℕ) (e : Tree) (G : Variables) (r : Typed) → judge types self e G ≡ Ok r → Judged types self G e r.0 r.1 }
    ensures complete { (types : Types) (self : ℕ) (e : Tree) (G G1 : Variables) (t : Ty) → Judged types self G e G1 t → judge types self e G ≡ Ok (G1, t) }
    ensures body { (types : Types) (s : Subject) (r : Typed) → judge_body types s ≡ Ok r → IsJudged types s }
    ensures judged { (types : Types) (s : Subject) → IsJudged types s → (r : Typed) × (judge_body types s ≡ Ok r) }
{}

/// The first fault is the one that is computed.
pub fn fault_is_computed()
    ensures sound { (types : Types) (self : ℕ) (e : Tree) (G : Variables) (f : Ill) → judge types self e G ≡ Err f → Fails types self G e f }
    ensures complete { (types : Types) (self : ℕ) (e : Tree) (G : Variables) (f : Ill) → Fails types self G e f → judge types self e G ≡ Err f }
    ensures body { (types : Types) (s : Subject) (f : Ill) → judge_body types s ≡ Err f → BodyFails types s f }
    ensures fails { (types : Types) (s : Subject) (f : Ill) → BodyFails types s f → judge_body types s ≡ Err f }
{}

/// A body is judged or has a fault, never both, and the fault has one node and reason.
pub fn judged_or_fails()
    ensures one { (types : Types) (s : Subject) → IsJudged types s ⊎ ((f : Ill) × BodyFails types s f) }
    ensures apart { (types : Types) (s : Subject) (f : Ill) → IsJudged types s → BodyFails types s f → ⊥ }
    ensures first { (types : Types) (s : Subject) (f g : Ill) → BodyFails types s f → BodyFails types s g → f ≡ g }
{}

/// Tables that have the same types at the looks of a body have the same looks, and the body is judged or fails likewise.
pub fn looks_decide()
    ensures looks { (t u : Types) (s : Subject) → SameAt t u (looks t s) → looks t s ≡ looks u s }
    ensures computed { (t u : Types) (s : Subject) → SameAt t u (looks t s) → judge_body t s ≡ judge_body u s }
    ensures events { (t u : Types) (s : Subject) → SameAt t u (looks t s) → events_body t s ≡ events_body u s }
    ensures judged { (t u : Types) (s : Subject) → SameAt t u (looks t s) → IsJudged t s ↔ IsJudged u s }
    ensures fails { (t u : Types) (s : Subject) (f : Ill) → SameAt t u (looks t s) → BodyFails t s f ↔ BodyFails u s f }
{}

/// Tables that have the same types at the first looks of a body have the next look in common.
pub fn looks_go_on()
    ensures { (t u : Types) (s : Subject) (ks rest : List Key) (k : Key) → looks t s ≡ ks ++ k ∷ rest → SameAt t u ks
        → (others : List Key) × (looks u s ≡ ks ++ k ∷ others) }
{}

/// A good derivation derives its body in each table with which it agrees.
pub fn good_derives()
    ensures { (sites : Sites) (s : Subject) (d : Content) → IsGood sites s d
        → (types : Types) → AgreesWith sites d.uses types → Derives types s d }
{}

/// A derivation for a program derives the body that it names in each table with which it agrees.
pub fn programs_derivation_derives()
    ensures { (t : Table) (d : Content) → IsFor t d → (types : Types) → AgreesWith (sites_of t) d.uses types
        → (s : Subject) × (subject_of t d.class d.body d.declared ≡ Some s) × Derives types s d }
{}

/// A derivation that derives a body in one table with which it agrees is good.
pub fn derived_is_good()
    ensures { (sites : Sites) (s : Subject) (d : Content) (types : Types) → AgreesWith sites d.uses types → Derives types s d → IsGood sites s d }
{}
