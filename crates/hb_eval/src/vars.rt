//! The variables of a frame, by their names.

ghost use Rattle.std.specs.Prelude.{◌≡◌, ◌≤◌, length, drop, take, OnOk, IfOk, map, Some, None, Ok};
ghost use Rattle.hb_eval.specs.State.{IsFetched, value_at, bind};

use crate::value::Value;
use hb_types::ids::NameId;
use std::alloc::AllocError;

/// The value of a variable comes in hand, where it has one. Whether it has.
#[inline(always)]
pub(crate) fn fetch(
    vars: &[(NameId, Value)],
    name: NameId,
    acc: &mut Value,
) -> Result<bool, AllocError>
    ensures { IfOk result (λ there. IsFetched there (value_at vars.now name.0) acc.old acc.new) }
{
    for (known, value) in vars {
        if *known == name {
            copy_into(value, acc)?;
            return Ok(true);
        }
    }
    Ok(false)
}

// A value comes in hand once more.
#[inline(always)]
fn copy_into(value: &Value, acc: &mut Value) -> Result<(), AllocError>
    ensures { OnOk result (acc.new ≡ value.now) }
{
    match value {
        // Numbers are most frequent.
        Value::Int(number) => {
            *acc = Value::Int(*number);
            Ok(())
        }
        _ => copy_apart(value, acc),
    }
}

// The same out of line.
#[inline(never)]
fn copy_apart(value: &Value, acc: &mut Value) -> Result<(), AllocError>
    ensures { OnOk result (acc.new ≡ value.now) }
{
    *acc = value.copied()?;
    Ok(())
}

/// Gives a variable of the frame a value. The frame's variables are those from a place on.
#[inline(always)]
#[tactic(auto, using(crate::proofs::VariableLemmas::new_name))]
pub(crate) fn assign(
    vars: &mut Vec<(NameId, Value)>,
    base: usize,
    name: NameId,
    value: Value,
) -> Result<(), AllocError>
    requires { base ≤ length vars.old.items }
    ensures bound { OnOk result (drop base vars.new.items ≡ bind (drop base vars.old.items) name.0 value) }
    ensures below { OnOk result (take base vars.new.items ≡ take base vars.old.items) }
    ensures size { OnOk result (length vars.old.items ≤ length vars.new.items) }
{
    for i in base..vars.len() {
        if vars[i].0.0 == name.0 {
            vars[i] = (name, value);
            return Ok(());
        }
    }
    vars.push((name, value))?;
    Ok(())
}
