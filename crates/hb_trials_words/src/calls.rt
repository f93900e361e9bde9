//! Single calls of one caller at a desk, by one call and at one key. Who calls them knows of the caller by which calls it holds the key.

ghost use Rattle.std.specs.Prelude.{◌≡◌, ◌+◌, ◌<◌, ◌≤◌, [], ◌∷◌, IfErr};
ghost use Rattle.hb_tables.specs.Answers.{IsLookAt};
ghost use Rattle.hb_trials_words.specs.Calls.{calls_of};

use hb_tables::desk::{DefAnswer, Desk, Held, Look, TypeAnswer};
use hb_tables::entry::{ArgKinds, BODIES_MAX, Verdict};
use hb_tree::limits::TYPES_MAX;
use hb_types::ids::{BodySite, CallNo, KeyId, TypeSite};
use hb_types::types::Ty;

pub const KEY: KeyId = KeyId(0);

const CALL: CallNo = CallNo(1);

const NO_ARGUMENT: ArgKinds = ArgKinds {
    count: 0,
    kinds: [Ty::Nil; 4],
};

/// The call holds the key from here on.
pub fn hold<D: Desk>(desk: &mut D) -> Held
    requires idle { calls_of (D.fixed desk.old).caller (D.front desk.old) ≡ [] }
    requires spare { 2 ≤ D.spare desk.old }
    ensures held { calls_of (D.fixed desk.old).caller (D.front desk.new) ≡ ((D.fixed desk.old).caller, 1) ∷ [] }
    ensures fixed { D.fixed desk.new ≡ D.fixed desk.old }
    ensures spare { D.spare desk.old ≤ D.spare desk.new + 2 }
{
    desk.hold(CALL, KEY)
}

/// The call holds the key no longer.
pub fn free<D: Desk>(desk: &mut D)
    requires held { calls_of (D.fixed desk.old).caller (D.front desk.old) ≡ ((D.fixed desk.old).caller, 1) ∷ [] }
    ensures idle { calls_of (D.fixed desk.old).caller (D.front desk.new) ≡ [] }
    ensures fixed { D.fixed desk.new ≡ D.fixed desk.old }
    ensures spare { D.spare desk.old ≤ D.spare desk.new }
{
    desk.free(CALL, KEY)
}

/// The key gets a type.
pub fn set_type<D: Desk>(desk: &mut D, site: TypeSite) -> TypeAnswer
    requires site { site.0 < TYPES_MAX }
    requires spare { 1 ≤ D.spare desk.old }
    ensures calls { calls_of (D.fixed desk.old).caller (D.front desk.new) ≡ calls_of (D.fixed desk.old).caller (D.front desk.old) }
    ensures fixed { D.fixed desk.new ≡ D.fixed desk.old }
    ensures spare { D.spare desk.old ≤ D.spare desk.new + 1 }
{
    desk.set_type(KEY, site)
}

/// The key gets a definition.
pub fn set_def<D: Desk>(desk: &mut D, site: BodySite) -> DefAnswer
    requires site { site.0 < BODIES_MAX }
    requires spare { 1 ≤ D.spare desk.old }
    ensures calls { calls_of (D.fixed desk.old).caller (D.front desk.new) ≡ calls_of (D.fixed desk.old).caller (D.front desk.old) }
    ensures fixed { D.fixed desk.new ≡ D.fixed desk.old }
    ensures spare { D.spare desk.old ≤ D.spare desk.new + 1 }
{
    desk.set_def(KEY, site)
}

/// The key's definition.
pub fn look<D: Desk>(desk: &mut D) -> Look
    ensures look { IsLookAt 0 result (D.front desk.new) }
    ensures calls { calls_of (D.fixed desk.old).caller (D.front desk.new) ≡ calls_of (D.fixed desk.old).caller (D.front desk.old) }
    ensures fixed { D.fixed desk.new ≡ D.fixed desk.old }
    ensures spare { D.spare desk.old ≤ D.spare desk.new }
{
    desk.look(KEY)
}

// The call is decided where the look is still true.
fn decide<D: Desk>(desk: &mut D, look: Look, verdict: Verdict) -> Result<(), Look>
    requires held { calls_of (D.fixed desk.old).caller (D.front desk.old) ≡ ((D.fixed desk.old).caller, 1) ∷ [] }
    requires look { IsLookAt 0 look (D.front desk.old) }
    requires spare { 1 ≤ D.spare desk.old }
    ensures newer { IfErr result (λ newer. IsLookAt 0 newer (D.front desk.new)) }
    ensures calls { calls_of (D.fixed desk.old).caller (D.front desk.new) ≡ calls_of (D.fixed desk.old).caller (D.front desk.old) }
    ensures fixed { D.fixed desk.new ≡ D.fixed desk.old }
    ensures spare { D.spare desk.old ≤ D.spare desk.new + 1 }
{
    desk.decide(CALL, KEY, KEY, look, NO_ARGUMENT, verdict)
}

/// The call is decided by the look, and where a newer definition came, by that one.
pub fn decide_twice<D: Desk>(desk: &mut D, look: Look) -> [Result<(), Look>; 2]
    requires held { calls_of (D.fixed desk.old).caller (D.front desk.old) ≡ ((D.fixed desk.old).caller, 1) ∷ [] }
    requires look { IsLookAt 0 look (D.front desk.old) }
    requires spare { 2 ≤ D.spare desk.old }
    ensures calls { calls_of (D.fixed desk.old).caller (D.front desk.new) ≡ calls_of (D.fixed desk.old).caller (D.front desk.old) }
    ensures fixed { D.fixed desk.new ≡ D.fixed desk.old }
{
    let late = decide(desk, look, Verdict::NoBody);
    let decided = match late {
        Ok(()) => Ok(()),
        Err(newer) => decide(desk, newer, Verdict::NoType),
    };
    [late, decided]
}
