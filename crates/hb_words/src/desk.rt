//! One caller's door to the words.

ghost use Rattle.std.specs.Prelude.{◌≡◌};
ghost use Rattle.hb_words.specs.Seats.{IsSeatAt, view_of};

use crate::words::{MethodWords, WordSeat};
use hb_tables::desk::{DefAnswer, Desk, Held, Look, TypeAnswer};
use hb_tables::entry::{ArgKinds, Verdict};
use hb_types::ids::{BodySite, CallNo, CallerId, KeyId, TypeSite};
use std::alloc::{AllocError, Global};

/// One caller's door to the words. It always has room, and says that it was made with its seat, at these words, when so many callers were made.
#[derive(Drop)]
pub struct WordDesk<'a> {
    words: &'a MethodWords,
    seat: &'a mut WordSeat,
    ghost fits: { IsSeatAt words.now seat.now },
}

impl<'a> WordDesk<'a> {
    /// A door by this seat.
    pub fn new(words: &'a MethodWords, seat: &'a mut WordSeat) -> WordDesk<'a>
        requires { IsSeatAt words.now seat.old }
        ensures same { (result.words.now ≡ words.now) × (result.seat.ghost_name ≡ seat.entry.ghost_name) × (result.seat.now ≡ seat.old) }
    {
        WordDesk { words, seat }
    }
}

impl Desk for WordDesk<'_> {
    ghost use Rattle.std.specs.Prelude.{◌∷◌, [], ◌^◌};
    ghost use Rattle.hb_words.specs.Words.{numbers_of};
    ghost use Rattle.hb_words.specs.Seats.{view_of};

    ghost front = { λ d. (view_of d.seat.now).seen };

    ghost fixed = { λ d. record {
      caller = (view_of d.seat.now).caller;
      limit = (view_of d.seat.now).limit;
      made_with = d.seat.ghost_name ∷ (view_of d.seat.now).made ∷ numbers_of d.seat.now.place.table_id;
    } };

    ghost spare = { λ d. 2 ^ 32 };

    fn caller(&self) -> CallerId {
        self.seat.caller
    }

    fn reserve(&mut self, alloc: Global, n: u32) -> Result<(), AllocError> {
        Ok(())
    }

    fn hold(&mut self, q: CallNo, key: KeyId) -> Held {
        self.words.hold(self.seat, q, key)
    }

    fn free(&mut self, q: CallNo, key: KeyId) {
        self.words.free(self.seat, q, key)
    }

    fn set_type(&mut self, key: KeyId, site: TypeSite) -> TypeAnswer {
        self.words.set_type(self.seat, key, site)
    }

    fn look(&mut self, key: KeyId) -> Look {
        self.words.look(self.seat, key)
    }

    fn set_def(&mut self, key: KeyId, site: BodySite) -> DefAnswer {
        self.words.set_def(self.seat, key, site)
    }

    fn decide(
        &mut self,
        q: CallNo,
        key: KeyId,
        owner: KeyId,
        look: Look,
        args: ArgKinds,
        verdict: Verdict,
    ) -> Result<(), Look> {
        self.words
            .decide(self.seat, q, key, owner, look, args, verdict)
    }
}
