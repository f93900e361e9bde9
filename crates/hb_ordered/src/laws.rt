//! What is true of callers that take turns.

ghost use Rattle.std.specs.Prelude.{◌≡◌, ◌⊎◌, ◌++◌, [], ℕ, List, Some, map};
ghost use Rattle.hb_tree.specs.Table.{Table};
ghost use Rattle.hb_names.specs.Names.{Differ, Name};
ghost use Rattle.hb_tables.specs.declared.entry.Act.{Act};
ghost use Rattle.hb_tables.specs.declared.entry.Entry.{Entry};
ghost use Rattle.hb_tables.specs.Frames.{acts};
ghost use Rattle.hb_tables.specs.History.{IsLegal};
ghost use Rattle.hb_turns.specs.Playing.{entries_by};
ghost use Rattle.hb_eval.specs.Calls.{call_in};
ghost use Rattle.hb_eval.specs.Runs.{Run, script_run};
ghost use Rattle.hb_ordered.specs.Parting.{GoOn, Parting};
ghost use Rattle.hb_types.specs.declared.ids.NodeId.{NodeId};
ghost use Rattle.hb_types.specs.declared.ids.NameId.{NameId};
ghost use Rattle.hb_run.specs.History.{callers_from};
ghost use Rattle.hb_eval.specs.Told.{Told};
ghost use Rattle.hb_ordered.specs.Turns.{HaveSameNext, SameLeft};
ghost use Rattle.hb_turns.specs.Players.{IsOrdered};
ghost use Rattle.hb_ordered.specs.Asking.{AsksOne, Question, FitsArguments, IsAsked, IsAnswer};
ghost use Rattle.hb_ordered.specs.Sharing.{AreShared, IsShared, Meet, NotFull};

/// What is asked of the tables has one answer, also for two lists of names that share those of the entries so far: two acts of a caller that answer the same question are the same.
pub fn a_question_has_one_answer()
    ensures { (t : Table) (limit : ℕ) (names others : List Name) (c : ℕ) (log : List Entry) (u v : Question) (a b : Act) → Differ names → Differ others
        → AreShared names others (map (λ e. e.act) log) → AsksOne names others u v → IsAsked c log u → Meet names others a b → NotFull names others u a b → NotFull others names v b a
        → IsAnswer t limit names c log u a → IsAnswer t limit others c log v b → FitsArguments t log u a → FitsArguments t log v b → (a ≡ b) × IsShared names others a }
{}

/// Two runs of one block, whose acts begin alike, for two lists of names that share those of these acts: neither goes on, or both read answers to one question, asked in the same state,
/// or one stops since its list is full and lacks a name that the other one has.
pub fn runs_part_at_a_question()
    ensures { (done first second : List Act) (t : Table) (names others : List Name) (block steps : ℕ) (r w : Run) → Differ names → Differ others → AreShared names others done
        → script_run t names (call_in t names 4096) block steps (done ++ first) ≡ Some r → script_run t others (call_in t others 4096) block steps (done ++ second) ≡ Some w
        → GoOn t names others done first second r w }
{}

/// Two runs of one caller part behind the same entries, the last of which are its acts since the question's call began.
/// Where both go on by the rules, and neither gives up for a name that the other list has, their next acts are the same.
pub fn next_acts_are_one()
    ensures { (t : Table) (limit : ℕ) (names others : List Name) (c : ℕ) (before : List Entry) (done first second : List Act) (x : Parting t names others done first second)
        → Differ names → Differ others → AreShared names others (map (λ e. e.act) (before ++ entries_by c x.since))
        → IsLegal limit (before ++ entries_by c x.since) → acts c before ≡ map (λ e. e.1) x.state.read
        → Meet names others x.a x.b → NotFull names others x.question x.a x.b → NotFull others names x.other x.b x.a
        → IsAnswer t limit names c (before ++ entries_by c x.since) x.question x.a → IsAnswer t limit others c (before ++ entries_by c x.since) x.other x.b
        → (x.a ≡ x.b) × IsShared names others x.a }
{}

/// Whose the next turn is depends on who has turns left, and not on how many.
pub fn next_turns_are_one()
    ensures { (order : List ℕ) (left other : ℕ → ℕ) (scripts : List (NameId × NodeId)) → SameLeft left other → HaveSameNext order left other (callers_from 1 scripts) }
{}

/// An order has one history, with one list of names and one list of runs.
pub fn an_order_has_one_history()
    ensures { (t : Table) (limit steps : ℕ) (order : List ℕ) (names others : List Name) (log log' : List Entry) (runs runs' : List Told)
        → IsOrdered t limit steps order names log runs → IsOrdered t limit steps order others log' runs' → (names ≡ others) × (log ≡ log') × (runs ≡ runs') }
{}
