//! What is true of the acts of a call.

ghost use Rattle.std.specs.Prelude.{◌≡◌, [], ◌∷◌, ◌++◌, ℕ, List, Option, Some, true};
ghost use Rattle.hb_types.specs.declared.ids.BodySite.{BodySite};
ghost use Rattle.hb_types.specs.declared.ids.CallNo.{CallNo};
ghost use Rattle.hb_types.specs.declared.ids.KeyId.{KeyId};
ghost use Rattle.hb_types.specs.declared.types.MethodTy.{MethodTy};
ghost use Rattle.hb_types.specs.declared.types.Ty.{Ty};
ghost use Rattle.hb_tree.specs.Table.{Table};
ghost use Rattle.hb_names.specs.Names.{Name};
ghost use Rattle.hb_tables.specs.declared.entry.Act.{Act};
ghost use Rattle.hb_tables.specs.declared.entry.Act.TheVariants.{Call, Hold};
ghost use Rattle.hb_tables.specs.declared.entry.ArgKinds.{ArgKinds};
ghost use Rattle.hb_tables.specs.declared.entry.Entry.{Entry};
ghost use Rattle.hb_tables.specs.declared.entry.Verdict.{Verdict};
ghost use Rattle.hb_tables.specs.History.{IsLegal};
ghost use Rattle.hb_tables.specs.Standing.{standing};
ghost use Rattle.hb_tables.specs.Rows.{fill, kinds_of, type_of_key};
ghost use Rattle.hb_tables.specs.Verdicts.{takes};
ghost use Rattle.hb_call.specs.Calling.{IsPart};
ghost use Rattle.hb_call.specs.Own.{cache_of, cache_since};
ghost use Rattle.hb_call.specs.Reading.{Lost, call_of};
ghost use Rattle.hb_call.specs.Rules.{Began, FitsRules};

/// A call that was read past its first hold has arguments that its method's type takes, wherever it stands since it began. A Call has no arguments but their kinds.
pub fn calls_go_on_where_their_arguments_fit()
    ensures past { (t : Table) (limit c : ℕ) (q : CallNo) (key : KeyId) (start log : List Entry) (b : Began c q key start log) (kinds : List Ty) (a : Act) (l : List Act) → IsLegal limit log
        → IsPart q a → (call_of t q.0 key.0 kinds (Hold key q b.ty b.changes ∷ a ∷ l) ≡ Lost → ⊥)
        → (m : MethodTy) × (type_of_key t log key.0 ≡ Some m) × (takes m kinds ≡ true) }
    ensures filled { (t : Table) (names : List Name) (c : ℕ) (log : List Entry) (q : CallNo) (key : KeyId) (site : Option BodySite) (args : ArgKinds) (v : Verdict)
        → FitsRules t names c log (Call key q site args v) → args ≡ fill (kinds_of args) }
{}

/// A machine that begins where its caller holds nothing keeps what its own acts alone keep.
pub fn machines_keep_what_their_acts_keep()
    ensures { (past mine : List Act) → ((q : ℕ) → standing q past ≡ []) → cache_since past (past ++ mine) ≡ cache_of mine }
{}
