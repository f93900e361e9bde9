//! What is true of runs against a legal history.

ghost use Rattle.std.specs.Prelude.{◌≡◌, ◌≢◌, ◌⊎◌, ◌≤◌, length, ℕ, Contains, IsErr, List, [], ◌∷◌, ◌++◌, map, Option, Result, Some};
ghost use Rattle.hb_types.specs.declared.ids.BodySite.{BodySite};
ghost use Rattle.hb_types.specs.declared.ids.CallNo.{CallNo};
ghost use Rattle.hb_types.specs.declared.ids.KeyId.{KeyId};
ghost use Rattle.hb_types.specs.declared.ids.NodeId.{NodeId};
ghost use Rattle.hb_types.specs.declared.ids.TypeSite.{TypeSite};
ghost use Rattle.hb_types.specs.declared.types.Ty.{Ty};
ghost use Rattle.hb_types.specs.Variables.{Variables};
ghost use Rattle.hb_tree.specs.Program.{IsProgram};
ghost use Rattle.hb_tree.specs.Roots.{IsReachedOnce, roots};
ghost use Rattle.hb_tree.specs.Table.{Table};
ghost use Rattle.hb_tree.specs.Tree.{Tree};
ghost use Rattle.hb_tree.specs.TreeAt.{tree_at};
ghost use Rattle.hb_names.specs.declared.names.TheConstants.{NAMES_MAX};
ghost use Rattle.hb_names.specs.Names.{Name};
ghost use Rattle.hb_tables.specs.declared.desk.DefAnswer.{DefAnswer};
ghost use Rattle.hb_tables.specs.declared.desk.DefAnswer.TheVariants as defined;
ghost use Rattle.hb_tables.specs.declared.desk.Look.{Look};
ghost use Rattle.hb_tables.specs.declared.desk.TypeAnswer.{TypeAnswer};
ghost use Rattle.hb_tables.specs.declared.desk.TypeAnswer.TheVariants as typed;
ghost use Rattle.hb_tables.specs.declared.entry.Act.TheVariants.{Call};
ghost use Rattle.hb_tables.specs.declared.entry.ArgKinds.{ArgKinds};
ghost use Rattle.hb_tables.specs.declared.entry.By.{By};
ghost use Rattle.hb_tables.specs.declared.entry.Entry.{Entry};
ghost use Rattle.hb_tables.specs.declared.entry.Verdict.{Verdict};
ghost use Rattle.hb_tables.specs.declared.entry.Verdict.TheVariants.{Enter};
ghost use Rattle.hb_tables.specs.Answers.{DefAdds, Decides, TypeAdds};
ghost use Rattle.hb_tables.specs.Frames.{acts};
ghost use Rattle.hb_tables.specs.History.{Every, IsLegal, spot};
ghost use Rattle.hb_tables.specs.Rows.{HasCallRows, IsDecided, kinds_of, types_in};
ghost use Rattle.hb_call.specs.Rules.{FitsRules};
ghost use Rattle.hb_eval.specs.declared.stop.Outcome.TheVariants.{Stopped};
ghost use Rattle.hb_eval.specs.declared.stop.Stop.TheVariants.{Full};
ghost use Rattle.hb_eval.specs.declared.stop.Stop.{Stop};
ghost use Rattle.hb_eval.specs.declared.value.Value.{Value};
ghost use Rattle.hb_eval.specs.Calls.{call_in};
ghost use Rattle.hb_eval.specs.Meaning.{ev};
ghost use Rattle.hb_eval.specs.Runs.{Run, script_run};
ghost use Rattle.hb_eval.specs.State.{St};
ghost use Rattle.hb_eval.specs.Values.{kind_of};
ghost use Rattle.hb_sound.specs.Bodies.{Enters, IsJudgedIn, begun_with};
ghost use Rattle.hb_sound.specs.Frames.{AreLive, Frame};
ghost use Rattle.hb_sound.specs.Parts.{IsPart, IsReached};
ghost use Rattle.hb_sound.specs.Refusals.{ChangesNothing, IsRefusal, Refuses};
ghost use Rattle.hb_sound.specs.Scripts.{EndsWell, IsInBody};
ghost use Rattle.hb_sound.specs.Sound.{IsNamed, Sound, Stands};

/// Where a Call enters, its body is judged in the tables there at the type of its method, by keys that the call holds there, and arguments of the kinds that it names fit the parameters.
pub fn entered_bodies_are_judged()
    ensures { (t : Table) (names : List Name) (before after : List Entry) (c : ℕ) (q : CallNo) (key : KeyId) (site : Option BodySite) (args : ArgKinds) (way : By)
        → IsDecided t names before (c, q.0) key.0 site (kinds_of args) (Enter way)
        → Enters t names c (record { q = q.0; call = Call key q site args (Enter way); before = before; after = after }) key.0 site (kinds_of args) }
{}

/// Each part of an expression that is judged in the tables at a frame's Call is reached with some variables, and is judged there from these.
pub fn parts_are_judged()
    ensures reached { (t : Table) (names : List Name) (c : ℕ) (f : Frame) (me : ℕ) (G behind : Variables) (e : Tree) (ty : Ty)
        → IsJudgedIn t names c f me G e behind ty → (x : Tree) → IsPart x e
        → (H : Variables) × IsReached (types_in t names f.before) me x H e G }
    ensures judged { (t : Table) (names : List Name) (c : ℕ) (f : Frame) (me : ℕ) (G behind : Variables) (e : Tree) (ty : Ty)
        → IsJudgedIn t names c f me G e behind ty → (x : Tree) (H : Variables) → IsReached (types_in t names f.before) me x H e G
        → (after : Variables) × (u : Ty) × IsJudgedIn t names c f me H x after u }
{}

/// In a live frame, whatever others do to the tables: an expression that is judged in the tables at the frame's Call gives a value of its type and leaves each variable with one of its type, or it stops for a named cause. Behind a value the frame is live, and so are those below it.
pub fn frames_are_sound()
    ensures { (t : Table) (names : List Name) (limit : ℕ) (log : List Entry) (c : ℕ) → IsLegal limit log → HasCallRows t names log
        → (room me : ℕ) (f : Frame) (fs : List Frame) (G behind : Variables) (e : Tree) (ty : Ty) (s : St)
        → IsJudgedIn t names c f me G e behind ty → Stands (AreLive log c (f ∷ fs)) me G s
        → Sound (AreLive log c (f ∷ fs)) me behind ty (ev t names (call_in t names room) e s) }
{}

/// A body that a live frame has entered gives a value of the result that was declared in the tables at the frame's Call, or it stops for a named cause.
pub fn bodies_are_sound()
    ensures { (t : Table) (names : List Name) (limit : ℕ) (log : List Entry) (c : ℕ) → IsLegal limit log → HasCallRows t names log
        → (room : ℕ) (f : Frame) (fs : List Frame) (key : ℕ) (site : Option BodySite) (kinds : List Ty) (x : Enters t names c f key site kinds) (vs : List Value) (s : St)
        → map kind_of vs ≡ kinds → AreLive log c (f ∷ fs) s.next s.journal
        → Sound (AreLive log c (f ∷ fs)) x.name.0 x.behind x.declared.result (ev t names (call_in t names room) (tree_at t x.body.block.0) (begun_with x.name.0 x.body vs s)) }
{}

/// The run of the setup or of a script against a legal history ends with a value, or stops for a named cause or at a node of its own block. So where no node of the program is reached twice, a stop at a node in a body is for a named cause.
pub fn stops_in_bodies_are_named()
    ensures ends { (t : Table) (names : List Name) (limit : ℕ) (log : List Entry) (c : ℕ) → IsLegal limit log → HasCallRows t names log
        → (room block steps : ℕ) (run : Run) → script_run t names (call_in t names room) block steps (acts c log) ≡ Some run
        → EndsWell (tree_at t block) run.outcome }
    ensures bodies { (t : Table) (names : List Name) (limit : ℕ) (log : List Entry) (c : ℕ) → IsLegal limit log → HasCallRows t names log → IsProgram t → IsReachedOnce t
        → (room block steps : ℕ) (run : Run) (e : Stop) (id : NodeId) → Contains (roots t) block → script_run t names (call_in t names room) block steps (acts c log) ≡ Some run
        → run.outcome ≡ Stopped e id → IsInBody t id.0 → IsNamed e }
{}

/// A run against a legal history that follows the rules stops with Full only where the list of names is full.
pub fn full_stops_have_full_lists()
    ensures { (t : Table) (names : List Name) (limit : ℕ) (log : List Entry) (c : ℕ) → IsLegal limit log → Every (λ before e. FitsRules t names e.caller.0 before e.act) log → length names ≤ NAMES_MAX
        → (room block steps : ℕ) (run : Run) (id : NodeId) → script_run t names (call_in t names room) block steps (acts c log) ≡ Some run → run.outcome ≡ Stopped Full id
        → length names ≡ NAMES_MAX }
{}

/// The entry of a refused call leaves each key's type, definition, counts and holds as they were. So a call of a desk that answers a refusal adds its own entry at most, and changes no state.
pub fn refused_calls_change_nothing()
    ensures entries { (before : List Entry) (e : Entry) → IsRefusal e.act → (k : ℕ) → spot k (before ++ e ∷ []) ≡ spot k before }
    ensures types { (c : ℕ) (old new : List Entry) (key : KeyId) (site : TypeSite) (answer : TypeAnswer) → TypeAdds c old new key site answer → answer ≢ typed.Done → ChangesNothing c old new }
    ensures definitions { (c : ℕ) (old new : List Entry) (key : KeyId) (site : BodySite) (answer : DefAnswer) → DefAdds c old new key site answer → answer ≢ defined.Done → ChangesNothing c old new }
    ensures calls { (c : ℕ) (old new : List Entry) (q : CallNo) (key owner : KeyId) (look : Look) (args : ArgKinds) (verdict : Verdict) (answer : Result (Unit {0}) Look)
        → Decides c old new q key owner look args verdict answer → IsErr answer ⊎ Refuses verdict → ChangesNothing c old new }
{}
