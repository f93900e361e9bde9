//! What is true of the answers of the verifier.

ghost use Rattle.std.specs.Prelude.{◌≡◌};
ghost use Rattle.hb_tree.specs.Table.{Table};
ghost use Rattle.hb_deriv.specs.declared.raw.RawDerivation.{RawDerivation};
ghost use Rattle.hb_deriv.specs.Programs.{IsFor};
ghost use Rattle.hb_deriv.specs.Walk.{WalkFault};
ghost use Rattle.hb_verify.specs.Verifies.{StopsAt, raw_content_of};

/// A raw derivation that is good for a program has no fault, so it is never refused but for want of memory; and
/// another one has one first fault.
pub fn one_answer()
    ensures good { (t : Table) (raw : RawDerivation) (f : WalkFault) → IsFor t (raw_content_of raw) → StopsAt t raw f → ⊥ }
    ensures first { (t : Table) (raw : RawDerivation) (f g : WalkFault) → StopsAt t raw f → StopsAt t raw g → f ≡ g }
{}
