//! The kinds of a call's arguments.

ghost use Rattle.std.specs.Prelude.{◌≡◌, ◌≤◌, length, map};
ghost use Rattle.hb_tables.specs.Rows.{kinds_of};
ghost use Rattle.hb_call.specs.Calling.{IsArgKinds};
ghost use Rattle.hb_eval.specs.Values.{kind_of};

use crate::value::Value;
use hb_tables::entry::ArgKinds;
use hb_types::types::{PARAMS_MAX, Ty};

/// The kinds of these values.
pub fn kinds(values: &[Value]) -> ArgKinds
    requires { length values.now ≤ PARAMS_MAX }
    ensures kinds { kinds_of result ≡ map kind_of values.now }
    ensures form { IsArgKinds result }
    ensures count { result.count ≡ length values.now }
{
    let mut kinds = [Ty::Nil; PARAMS_MAX];
    for (i, value) in values.iter().enumerate() {
        kinds[i] = value.kind();
    }
    ArgKinds {
        count: values.len() as u8,
        kinds,
    }
}
