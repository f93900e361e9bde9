//! The beginning of the words, and a seat for each caller.

ghost use Rattle.std.specs.Prelude.{◌≡◌, ◌<◌, ◌≤◌, ℕ, [], IfOk};
ghost use Rattle.hb_tables.specs.History.{journal};
ghost use Rattle.hb_words.specs.declared.view.View.{View};
ghost use Rattle.hb_words.specs.Seats.{IsSeatAt, view_of};
ghost use Rattle.hb_words.specs.Words.{Looks, newcomer, forked};

use crate::layout::{CALLERS_MAX, WORDS};
use crate::steps;
use crate::view::Forks;
use crate::words::{MethodWords, WordSeat};
use atomic_table::Table;
use hb_tables::entry::VERSIONS_MAX;
use hb_types::ids::CallerId;
use std::alloc::{AllocError, Global};
use std::marker::Brand;

impl MethodWords {
    /// Words in which a type and a definition may be changed `versions` times each, with no type and no definition yet, and caller 0's seat.
    pub fn make(alloc: Global, versions: u32) -> Result<(MethodWords, WordSeat), AllocError>
        requires { (0 < versions) × (versions ≤ VERSIONS_MAX) }
        ensures seat { IfOk result (λ r. IsSeatAt r.0 r.1) }
        ensures view { IfOk result (λ r. view_of r.1 ≡ newcomer versions 0 1 []) }
    {
        let zeros = vec![in alloc; 0u64; WORDS]?;
        let (table, place) = Table::of_words(alloc, zeros.as_slice(), &versions)?;
        Ok((
            MethodWords { table, versions },
            WordSeat {
                caller: CallerId(0),
                made: 1,
                place,
            },
        ))
    }

    /// The seat of the next caller, which has done nothing. It knows what caller 0's seat then knows, which is all that was done so far.
    pub fn fork(&self, first: &mut WordSeat) -> WordSeat
        requires seat { IsSeatAt self.now first.old }
        requires first { (view_of first.old).caller ≡ 0 }
        requires room { (view_of first.old).made < CALLERS_MAX }
        ensures first { IsSeatAt self.now first.new }
        ensures looks { (v : View) × Looks (view_of first.old) v × (view_of first.new ≡ forked v) × (view_of result ≡ newcomer v.limit v.made 0 v.seen) }
        ensures new { IsSeatAt self.now result }
        ensures number { (view_of result).caller ≡ (view_of first.old).made }
        ensures quiet { (c : ℕ) → (view_of first.old).made ≤ c → journal c (view_of result).seen ≡ [] }
    {
        let WordSeat { made, place, .. } = first;
        steps::quiet::<Brand>(&self.table.shared, place);
        let next = self.table.shared.split_seat::<Forks>(place);
        let caller = *made;
        *made = caller + 1;
        WordSeat {
            caller: CallerId(caller),
            made: 0,
            place: next,
        }
    }
}
