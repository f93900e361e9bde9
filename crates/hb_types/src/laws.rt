//! What is true of types and of maps of variables.

ghost use Rattle.std.specs.Prelude.{◌≡◌, ℕ, Option, Some, true, ◌↔◌, nat_eq, if◌then◌else◌};
ghost use Rattle.hb_types.specs.declared.types.Ty.{Ty};
ghost use Rattle.hb_types.specs.Types.{IsBelow, is_below};
ghost use Rattle.hb_types.specs.Variables as variables;
ghost use Rattle.hb_types.specs.Variables.{Variables, IsMap};

/// The order that is computed is the order.
pub fn order_is_computed()
    ensures { (a b : Ty) → (is_below a b ≡ true) ↔ IsBelow a b }
{}

/// Maps of variables are maps: what is found after a change and in a join, and what it is that one keeps another.
pub fn variables_are_maps()
    ensures set { (G : Variables) (x : ℕ) (t : Ty) (y : ℕ) → variables.get (variables.set G x t) y ≡ (if nat_eq x y then Some t else variables.get G y) }
    ensures join { (G H : Variables) (x : ℕ) → variables.get (variables.join G H) x ≡ variables.both (variables.get G x) (variables.get H x) }
    ensures keeps { (G H : Variables) → variables.keeps G H ≡ true
        → (x : ℕ) (t : Ty) → variables.get G x ≡ Some t → (u : Ty) × (variables.get H x ≡ Some u) × IsBelow u t }
    ensures kept { (G H : Variables) → IsMap G
        → ((x : ℕ) (t : Ty) → variables.get G x ≡ Some t → (u : Ty) × (variables.get H x ≡ Some u) × IsBelow u t) → variables.keeps G H ≡ true }
    ensures set_map { (G : Variables) (x : ℕ) (t : Ty) → IsMap G → IsMap (variables.set G x t) }
    ensures join_map { (G H : Variables) → IsMap G → IsMap (variables.join G H) }
{}
