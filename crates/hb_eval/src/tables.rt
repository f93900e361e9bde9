//! How a script changes the types and definitions of methods.

ghost use Rattle.std.specs.Prelude.{◌≡◌, ◌<◌, ◌≤◌, ◌+◌, ℕ, List, length, IfOk};
ghost use mathlib.Core.List.{IsPrefix};
ghost use Rattle.hb_tree.specs.Table.{Table};
ghost use Rattle.hb_names.specs.Names.{Name};
ghost use Rattle.hb_tables.specs.History.{IsLegal};
ghost use Rattle.hb_call.specs.Held.{stands};
ghost use Rattle.hb_call.specs.Growth.{Grown, with_key};
ghost use Rattle.hb_eval.specs.Keeping.{StaysOwn};
ghost use Rattle.hb_eval.specs.Methods.{define_meaning, declare_meaning};
ghost use Rattle.hb_eval.specs.Tables.{Adds};
ghost use Rattle.hb_eval.specs.Values.{IsKnown};

use crate::stop::Stop;
use crate::value::Value;
use hb_cache::Cache;
use hb_names::NAMES_MAX;
use hb_tables::desk::{DefAnswer, Desk, TypeAnswer};
use hb_tables::entry::BODIES_MAX;
use hb_tree::limits::TYPES_MAX;
use hb_types::ids::{BodySite, KeyId, TypeSite};

/// Gives a method the body of a site. A check of its body is no longer kept then.
pub(crate) fn define<D: Desk>(
    desk: &mut D,
    cache: &mut Cache,
    key: KeyId,
    site: BodySite,
) -> Result<Value, Stop>
    requires key { key.0 < NAMES_MAX }
    requires site { site.0 < BODIES_MAX }
    requires spare { 1 ≤ D.spare desk.old }
    ensures act { Adds (D.fixed desk.old).caller (D.front desk.old) (D.front desk.new) (define_meaning key.0 site.0) result }
    ensures kept { IsPrefix (D.front desk.old) (D.front desk.new) }
    ensures others { (q : ℕ) → stands (D.fixed desk.old).caller q (D.front desk.new) ≡ stands (D.fixed desk.old).caller q (D.front desk.old) }
    ensures grown { (t : Table) (known was asked : List Name) → key.0 < length known → ((names : List Name) → IsPrefix known names → asked ≡ with_key names was key.0)
        → Grown t (D.fixed desk.old).caller known was asked (D.front desk.old) (D.front desk.new) }
    ensures own { StaysOwn (D.fixed desk.old).caller (D.front desk.old) (D.front desk.new) cache.old cache.new }
    ensures known { (t : Table) → IfOk result (IsKnown t) }
    ensures legal { IsLegal (D.fixed desk.old).limit (D.front desk.new) }
    ensures fixed { D.fixed desk.new ≡ D.fixed desk.old }
    ensures spare { D.spare desk.old ≤ D.spare desk.new + 1 }
{
    match desk.set_def(key, site) {
        DefAnswer::Done => {
            cache.drop_def(key);
            Ok(Value::Nil)
        }
        DefAnswer::Worn => Err(Stop::Worn),
    }
}

/// Gives a method the type of a site. One that asks tells whether it did. No check that used the type is kept then.
pub(crate) fn declare<D: Desk>(
    desk: &mut D,
    cache: &mut Cache,
    key: KeyId,
    site: TypeSite,
    asks: bool,
) -> Result<Value, Stop>
    requires key { key.0 < NAMES_MAX }
    requires site { site.0 < TYPES_MAX }
    requires spare { 1 ≤ D.spare desk.old }
    ensures act { Adds (D.fixed desk.old).caller (D.front desk.old) (D.front desk.new) (declare_meaning asks key.0 site.0) result }
    ensures kept { IsPrefix (D.front desk.old) (D.front desk.new) }
    ensures others { (q : ℕ) → stands (D.fixed desk.old).caller q (D.front desk.new) ≡ stands (D.fixed desk.old).caller q (D.front desk.old) }
    ensures grown { (t : Table) (known was asked : List Name) → key.0 < length known → ((names : List Name) → IsPrefix known names → asked ≡ with_key names was key.0)
        → Grown t (D.fixed desk.old).caller known was asked (D.front desk.old) (D.front desk.new) }
    ensures own { StaysOwn (D.fixed desk.old).caller (D.front desk.old) (D.front desk.new) cache.old cache.new }
    ensures known { (t : Table) → IfOk result (IsKnown t) }
    ensures legal { IsLegal (D.fixed desk.old).limit (D.front desk.new) }
    ensures fixed { D.fixed desk.new ≡ D.fixed desk.old }
    ensures spare { D.spare desk.old ≤ D.spare desk.new + 1 }
{
    match desk.set_type(key, site) {
        TypeAnswer::Done => {
            cache.drop_type(key);
            if asks {
                Ok(Value::Bool(true))
            } else {
                Ok(Value::Nil)
            }
        }
        TypeAnswer::Busy { .. } if asks => Ok(Value::Bool(false)),
        TypeAnswer::Busy { .. } => Err(Stop::Busy),
        TypeAnswer::Worn => Err(Stop::Worn),
    }
}
