//! How live frames end at once.

ghost use Rattle.std.specs.Prelude.{◌≡◌, ℕ, List, []};
ghost use mathlib.Core.List.{IsPrefix};
ghost use Rattle.hb_tree.specs.Table.{Table};
ghost use Rattle.hb_names.specs.Names.{Name};
ghost use Rattle.hb_tables.specs.History.{IsLegal};
ghost use Rattle.hb_call.specs.Growth.{Grown};
ghost use Rattle.hb_call.specs.Held.{stands};
ghost use Rattle.hb_eval.specs.Holding.{Holding, frames_of};

use crate::framed::Framed;
use hb_call::leave;
use hb_tables::desk::Desk;

/// Ends all frames, the innermost first. Nothing is held then.
#[cold]
#[inline(never)]
pub(crate) fn leave_all<D: Desk>(desk: &mut D, frames: &mut Vec<Framed>)
    requires holding { (next : ℕ) × Holding (D.fixed desk.old).caller next (frames_of frames.old.items) (D.front desk.old) }
    ensures none { (q : ℕ) → stands (D.fixed desk.old).caller q (D.front desk.new) ≡ [] }
    ensures empty { frames.new.items ≡ [] }
    ensures kept { IsPrefix (D.front desk.old) (D.front desk.new) }
    ensures grown { (t : Table) (names asked : List Name) → Grown t (D.fixed desk.old).caller names asked asked (D.front desk.old) (D.front desk.new) }
    ensures legal { IsLegal (D.fixed desk.old).limit (D.front desk.old) → IsLegal (D.fixed desk.old).limit (D.front desk.new) }
    ensures fixed { D.fixed desk.new ≡ D.fixed desk.old }
{
    while let Some(framed) = frames.pop() {
        let Framed {
            frame,
            base: _,
            class: _,
        } = framed;
        leave(frame, desk);
    }
}
