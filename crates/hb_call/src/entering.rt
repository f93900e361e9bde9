//! The entry into a call.

ghost use Rattle.std.specs.Prelude.{◌≡◌, ℕ, ◌<◌, ◌≤◌, [], ◌∷◌, ◌++◌, List, length, Some, IfOk};
ghost use mathlib.Core.List.{IsPrefix};
ghost use Rattle.hb_tree.specs.Canon.{bytes_at};
ghost use Rattle.hb_names.specs.Names.{Differ};
ghost use Rattle.hb_tables.specs.History.{IsLegal};
ghost use Rattle.hb_call.specs.Calling.{IsArgKinds};
ghost use Rattle.hb_call.specs.Entering.{Enters, IsFramed, IsTold, MarksOnce};
ghost use Rattle.hb_call.specs.Growth.{Grown};
ghost use Rattle.hb_call.specs.Held.{HasRoom, stands};
ghost use Rattle.hb_call.specs.OwnCache.{IsTrueCache, KeepsChecks};
ghost use Rattle.hb_call.specs.Sharing.{Collects};

use crate::call::Call;
use crate::frame::{CallFail, Entered};
use crate::keeping::keep;
use crate::share::Share;
use hb_cache::Cache;
use hb_names::{NAMES_MAX, Names};
use hb_tables::desk::Desk;
use hb_tables::entry::ArgKinds;
use hb_tree::program::Program;
use hb_types::ids::{CallNo, ClassId, NameId};
use std::alloc::Global;

/// Decides the call `q` of a class's method with arguments of these kinds. Where its body may run, the call holds the keys on which that rests until its frame ends. A check that is kept is taken again while no type that it used was changed, and a new one is kept, and collected where the share wants that.
pub fn enter<D: Desk, N: Names>(
    alloc: Global,
    prog: &Program,
    q: CallNo,
    class: ClassId,
    name: NameId,
    args: ArgKinds,
    desk: &mut D,
    names: &mut N,
    cache: &mut Cache,
    share: &mut Share,
) -> Result<Entered, CallFail>
    requires name { name.0 < length prog.now.names }
    requires args { IsArgKinds args }
    requires unused { stands (D.fixed desk.old).caller q.0 (D.front desk.old) ≡ [] }
    requires room { HasRoom (D.front desk.old) (D.fixed desk.old).caller q.0 }
    requires cache { IsTrueCache prog.now (N.known names.old) (N.asked names.old) (D.fixed desk.old).caller (D.front desk.old) cache.old }
    ensures entered { Enters (record { t = prog.now; door = D.fixed desk.old; q = q; class = class; bytes = bytes_at prog.now.names name.0; args = args }) (N.known names.new) (D.front desk.old) (D.front desk.new) result }
    ensures framed { IfOk result (IsFramed (D.fixed desk.old).caller q (D.front desk.new)) }
    ensures kept { IsPrefix (D.front desk.old) (D.front desk.new) }
    ensures legal { IsLegal (D.fixed desk.old).limit (D.front desk.old) → IsLegal (D.fixed desk.old).limit (D.front desk.new) }
    ensures named { IsPrefix (N.known names.old) (N.known names.new) }
    ensures few { length (N.known names.old) ≤ NAMES_MAX → length (N.known names.new) ≤ NAMES_MAX }
    ensures names_differ { Differ (N.known names.old) → Differ (N.known names.new) }
    ensures alike { N.alike names.old names.new }
    ensures fixed { D.fixed desk.new ≡ D.fixed desk.old }
    ensures grown { IsTold result → Grown prog.now (D.fixed desk.old).caller (N.known names.new) (N.asked names.old) (N.asked names.new) (D.front desk.old) (D.front desk.new) }
    ensures others { (p : ℕ) → (p ≡ q.0 → ⊥) → stands (D.fixed desk.old).caller p (D.front desk.new) ≡ stands (D.fixed desk.old).caller p (D.front desk.old) }
    ensures cache { IsTrueCache prog.now (N.known names.new) (N.asked names.new) (D.fixed desk.old).caller (D.front desk.new) cache.new }
    ensures own { IsTold result → KeepsChecks prog.now (D.fixed desk.old).caller (N.known names.old) (N.known names.new) (N.asked names.old) (N.asked names.new) (D.front desk.old) (D.front desk.new) cache.old cache.new }
    ensures marks { MarksOnce (record { t = prog.now; door = D.fixed desk.old; q = q; class = class; bytes = bytes_at prog.now.names name.0; args = args }) (N.asked names.old) (N.asked names.new) (D.front desk.old) (D.front desk.new) result }
    ensures collects { Collects prog.now (N.known names.new) (stands (D.fixed desk.old).caller q.0 (D.front desk.new)) cache.new share.old share.new result }
{
    let key = names.key(alloc, class, prog.name(name))?;
    let width = cache.width(key).saturating_add(1);
    let mut held = cache.lend(alloc, width)?;
    desk.reserve(alloc, 2)?;
    held.push_reserved(key);
    let own = desk.hold(q, key);
    let look = desk.look(key);
    let mut compared = Vec::new(alloc);
    let mut answers = Vec::new(alloc);
    let mut call = Call {
        prog,
        q,
        class,
        args,
        desk,
        names,
        held: &mut held,
        key,
        own,
        cache,
        compared: &mut compared,
        answers: &mut answers,
        refused: None,
    };
    let ended = call.finish(alloc, look)?;
    keep(alloc, ended, own, &answers, desk, cache, share)
}
