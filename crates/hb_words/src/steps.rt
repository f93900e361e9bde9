//! The steps on the words, each a single atomic operation. (docs/ARCHITECTURE.md, "Tables without a lock")

ghost use Rattle.std.specs.Prelude.{◌≡◌, ◌<◌, length, List};
ghost use mathlib.Core.Option.{none};
ghost use mathlib.Core.List.{IsPrefix};
ghost use Rattle.atomic_table.specs.Table.{step};
ghost use Rattle.hb_tables.specs.declared.entry.Entry.{Entry};
ghost use Rattle.hb_tables.specs.History.{spot, times, of_caller};
ghost use Rattle.hb_tables.specs.Answers.{IsLookAt};
ghost use Rattle.hb_words.specs.Layout.{type_at, def_at, pins_in, changes_in, redefs_in, retyped_word, redefined_word};
ghost use Rattle.hb_words.specs.Words.{IsSeatOf, IsSameSeat};
ghost use Rattle.hb_words.specs.Kinds.{holds, frees, looks_at_type, retypes, looks_at_def, tries_def, redefines, decides, quiets};
ghost use Rattle.hb_words.specs.Steps.{held, freed, type_looked, retyped, def_looked, def_tried, redefined, decided, quieted};

use crate::layout::{SEATS, def_index, type_index};
use crate::plays::{Kinds, Tells};
use crate::view::{Place, Steps};
use hb_names::NAMES_MAX;
use hb_tables::desk::Look;
use hb_tables::entry::{ArgKinds, BODIES_MAX, HOLDS_MAX, Verdict};
use hb_tree::limits::TYPES_MAX;
use hb_types::ids::{BodySite, CallNo, KeyId, TypeSite};

pub(crate) fn hold<K: Kinds>(words: &Steps, seat: &mut Place, q: CallNo, key: KeyId) -> u64
    requires kind { K.kind ≡ holds q key }
    requires key { key.0 < NAMES_MAX }
    requires seat { IsSeatOf words.now.table_id words.now.key seat.old }
    requires free { times (seat.old.me.0.caller, q.0) (spot key.0 seat.old.me.0.seen).calls ≡ 0 }
    requires few { length (of_caller seat.old.me.0.caller (spot key.0 seat.old.me.0.seen).calls) < HOLDS_MAX }
    ensures same { IsSameSeat seat.old seat.new }
    ensures held { held q key (step 0 (type_at key.0) 1 0 none) seat.old.me result seat.new.me }
{
    words.fetch_add::<Tells<K>>(seat, type_index(key), 1)
}

pub(crate) fn free<K: Kinds>(words: &Steps, seat: &mut Place, q: CallNo, key: KeyId) -> u64
    requires kind { K.kind ≡ frees q key }
    requires key { key.0 < NAMES_MAX }
    requires seat { IsSeatOf words.now.table_id words.now.key seat.old }
    requires held { times (seat.old.me.0.caller, q.0) (spot key.0 seat.old.me.0.seen).calls ≡ 1 }
    ensures same { IsSameSeat seat.old seat.new }
    ensures freed { freed q key (step 0 (type_at key.0) 1 0 none) seat.old.me result seat.new.me }
{
    words.fetch_sub::<Tells<K>>(seat, type_index(key), 1)
}

pub(crate) fn look_at_type<K: Kinds>(words: &Steps, seat: &mut Place, key: KeyId) -> u64
    requires kind { K.kind ≡ looks_at_type key }
    requires key { key.0 < NAMES_MAX }
    requires seat { IsSeatOf words.now.table_id words.now.key seat.old }
    ensures same { IsSameSeat seat.old seat.new }
    ensures looked { type_looked key (step 0 (type_at key.0) 0 0 none) seat.old.me result seat.new.me }
{
    words.load::<Tells<K>>(seat, type_index(key))
}

pub(crate) fn retype<K: Kinds>(
    words: &Steps,
    seat: &mut Place,
    key: KeyId,
    site: TypeSite,
    old: u64,
    new: u64,
) -> u64
    requires kind { K.kind ≡ retypes key site }
    requires key { key.0 < NAMES_MAX }
    requires site { site.0 < TYPES_MAX }
    requires seat { IsSeatOf words.now.table_id words.now.key seat.old }
    requires old { (pins_in old ≡ 0) × (changes_in old < seat.old.me.0.limit) }
    requires new { new ≡ retyped_word site old }
    ensures same { IsSameSeat seat.old seat.new }
    ensures retyped { retyped key site (step 0 (type_at key.0) old new none) seat.old.me result seat.new.me }
{
    words.compare_exchange::<Tells<K>>(seat, type_index(key), old, new)
}

pub(crate) fn look_at_def<K: Kinds>(words: &Steps, seat: &mut Place, key: KeyId) -> u64
    requires kind { K.kind ≡ looks_at_def key }
    requires key { key.0 < NAMES_MAX }
    requires seat { IsSeatOf words.now.table_id words.now.key seat.old }
    ensures same { IsSameSeat seat.old seat.new }
    ensures looked { def_looked key (step 0 (def_at key.0) 0 0 none) seat.old.me result seat.new.me }
{
    words.load::<Tells<K>>(seat, def_index(key))
}

pub(crate) fn try_def<K: Kinds>(words: &Steps, seat: &mut Place, key: KeyId) -> u64
    requires kind { K.kind ≡ tries_def key }
    requires key { key.0 < NAMES_MAX }
    requires seat { IsSeatOf words.now.table_id words.now.key seat.old }
    ensures same { IsSameSeat seat.old seat.new }
    ensures tried { def_tried key (step 0 (def_at key.0) 0 0 none) seat.old.me result seat.new.me }
{
    words.load::<Tells<K>>(seat, def_index(key))
}

pub(crate) fn redefine<K: Kinds>(
    words: &Steps,
    seat: &mut Place,
    key: KeyId,
    site: BodySite,
    old: u64,
    new: u64,
) -> u64
    requires kind { K.kind ≡ redefines key site }
    requires key { key.0 < NAMES_MAX }
    requires site { site.0 < BODIES_MAX }
    requires seat { IsSeatOf words.now.table_id words.now.key seat.old }
    requires old { redefs_in old < seat.old.me.0.limit }
    requires new { new ≡ redefined_word site old }
    ensures same { IsSameSeat seat.old seat.new }
    ensures redefined { redefined key site (step 0 (def_at key.0) old new none) seat.old.me result seat.new.me }
{
    words.compare_exchange::<Tells<K>>(seat, def_index(key), old, new)
}

pub(crate) fn decide<K: Kinds>(
    words: &Steps,
    seat: &mut Place,
    q: CallNo,
    key: KeyId,
    owner: KeyId,
    look: Look,
    args: ArgKinds,
    verdict: Verdict,
) -> u64
    requires kind { K.kind ≡ decides q key owner look args verdict }
    requires owner { owner.0 < NAMES_MAX }
    requires seat { IsSeatOf words.now.table_id words.now.key seat.old }
    requires look { (before : List Entry) × IsPrefix before seat.old.me.0.seen × IsLookAt owner.0 look before }
    ensures same { IsSameSeat seat.old seat.new }
    ensures decided { decided q key owner look args verdict (step 0 (def_at owner.0) 0 0 none) seat.old.me result seat.new.me }
{
    words.load::<Tells<K>>(seat, def_index(owner))
}

pub(crate) fn quiet<K: Kinds>(words: &Steps, seat: &mut Place)
    requires kind { K.kind ≡ quiets }
    requires seat { IsSeatOf words.now.table_id words.now.key seat.old }
    requires first { seat.old.me.0.caller ≡ 0 }
    ensures same { IsSameSeat seat.old seat.new }
    ensures quiet { quieted (step 0 0 0 0 none) seat.old.me 0 seat.new.me }
{
    words.load::<Tells<K>>(seat, SEATS);
}
