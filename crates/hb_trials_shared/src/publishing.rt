//! What a caller publishes, and all that is found.

ghost use Rattle.std.specs.Prelude.{◌≤◌};
ghost use Rattle.hb_shared.specs.Notes.{AreNotesOf};

use hb_deriv::raw::RawDerivation;
use hb_shared::{Notes, SharedDerivations};
use hb_types::ids::{BodySite, CallerId, ClassId, TypeSite};
use std::alloc::{AllocError, Global};

/// A derivation that shows nothing, of a body by which it is known.
pub fn derivation_of(alloc: Global, body: u16) -> RawDerivation {
    RawDerivation {
        class: ClassId(0),
        body: BodySite(body),
        declared: TypeSite(0),
        uses: Vec::new(alloc),
        steps: Vec::new(alloc),
    }
}

/// Publishes derivations of so many bodies, one after the other.
pub fn publish_many(
    shared: &SharedDerivations,
    alloc: Global,
    caller: CallerId,
    count: u16,
) -> Result<(), AllocError>
    requires { (1 ≤ caller.0) × (caller.0 ≤ 16) }
{
    for body in 0..count {
        shared.publish(alloc, caller, derivation_of(alloc, body))?;
    }
    Ok(())
}

/// Publishes derivations of the bodies from one to another, and answers which cells keep them.
pub fn publish_noted(
    shared: &SharedDerivations,
    alloc: Global,
    caller: CallerId,
    bodies: (u16, u16),
    notes: &mut Notes,
) -> Result<Vec<Option<u32>>, AllocError>
    requires caller { (1 ≤ caller.0) × (caller.0 ≤ 16) }
    requires notes { AreNotesOf shared.now notes.old }
    ensures notes { AreNotesOf shared.now notes.new }
{
    let mut kept = Vec::new(alloc);
    for body in bodies.0..bodies.1 {
        let derivation = derivation_of(alloc, body);
        kept.push(shared.publish_as(alloc, caller, derivation, notes)?)?;
    }
    Ok(kept)
}

/// All that is published: in which cell, by whom, and of which body.
pub fn all_found(
    shared: &SharedDerivations,
    alloc: Global,
) -> Result<Vec<(u32, u8, u16)>, AllocError> {
    let mut found = Vec::new(alloc);
    let mut index = 0;
    while let Some((at, published)) = shared.next_from(index) {
        found.push((at, published.caller.0, published.derivation.body.0))?;
        index = at + 1;
    }
    Ok(found)
}
