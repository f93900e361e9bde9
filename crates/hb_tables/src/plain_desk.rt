//! One caller's door to plain tables.

ghost use Rattle.std.specs.Prelude.{◌≡◌, ◌≤◌, length, drop};
ghost use Rattle.hb_tables.specs.Answers.{DefAdds};
ghost use Rattle.hb_tables.specs.Plain.{AreOwn};

use crate::desk::{DefAnswer, Desk, Held, Look, TypeAnswer};
use crate::entry::{ArgKinds, Verdict};
use crate::plain::PlainTables;
use hb_types::ids::{BodySite, CallNo, CallerId, KeyId, TypeSite};
use std::alloc::{AllocError, Global};

/// One caller's door to plain tables. What it knows is the whole history.
#[derive(Drop)]
pub struct PlainDesk<'a> {
    pub(crate) tables: &'a mut PlainTables,
}

impl Desk for PlainDesk<'_> {
    ghost use Rattle.std.specs.Prelude.{◌∷◌, []};

    ghost front = { λ d. d.tables.now.log };

    ghost fixed = { λ d. record { caller = d.tables.now.caller; limit = d.tables.now.limit; made_with = d.tables.ghost_name ∷ d.tables.now.opened ∷ [] } };

    ghost spare = { λ d. d.tables.now.spare };

    fn caller(&self) -> CallerId {
        self.tables.caller()
    }

    fn reserve(&mut self, alloc: Global, n: u32) -> Result<(), AllocError> {
        self.tables.reserve(n)
    }

    fn hold(&mut self, q: CallNo, key: KeyId) -> Held {
        self.tables.hold(q, key)
    }

    fn free(&mut self, q: CallNo, key: KeyId) {
        self.tables.free(q, key)
    }

    fn set_type(&mut self, key: KeyId, site: TypeSite) -> TypeAnswer {
        self.tables.set_type(key, site)
    }

    fn look(&mut self, key: KeyId) -> Look {
        self.tables.look(key)
    }

    fn set_def(&mut self, key: KeyId, site: BodySite) -> DefAnswer {
        self.tables.set_def(key, site)
    }

    fn decide(
        &mut self,
        q: CallNo,
        key: KeyId,
        owner: KeyId,
        look: Look,
        args: ArgKinds,
        verdict: Verdict,
    ) -> Result<(), Look> {
        self.tables.decide(q, key, owner, look, args, verdict)
    }
}
