//! What is true of texts of derivations.

ghost use Rattle.std.specs.Prelude.{◌≡◌, ◌↔◌, ℕ, List, Ok, Err};
ghost use Rattle.hb_tree.specs.Table.{Table};
ghost use Rattle.hb_tree.specs.Program.{IsProgram};
ghost use Rattle.hb_deriv.specs.Derivation.{Content};
ghost use Rattle.hb_deriv_text.specs.Text.{text_of};
ghost use Rattle.hb_deriv_text.specs.Reading.{read_of};
ghost use Rattle.hb_deriv_text.specs.Written.{HasPlacesApart, HasSmallPlaces, IsSayable, IsText, first_of};
ghost use Rattle.hb_deriv_text.specs.Faults.{IsFault};

/// What is read is what is written: a text that is read as a derivation is that derivation's text, and no other.
pub fn read_is_written()
    ensures { (t : Table) (bytes : List ℕ) (c : Content) → read_of t bytes ≡ Ok c → text_of t c ≡ bytes }
{}

/// What is written is read: as what stands first at each of its places, and where places are apart, as itself.
pub fn written_is_read()
    ensures first { (t : Table) (c : Content) → IsProgram t → HasSmallPlaces t → IsSayable t c
        → read_of t (text_of t c) ≡ Ok (first_of t c) }
    ensures same { (t : Table) (c : Content) → IsProgram t → HasSmallPlaces t → HasPlacesApart t → IsSayable t c
        → read_of t (text_of t c) ≡ Ok c }
{}

/// What is read names only what the program has, and its steps are those of expressions.
pub fn read_fits()
    ensures { (t : Table) (bytes : List ℕ) (c : Content) → read_of t bytes ≡ Ok c → IsSayable t c }
{}

/// Exactly texts are read, and what is refused goes wrong where the reader says.
pub fn texts_are_read()
    ensures read { (t : Table) (bytes : List ℕ) → IsProgram t → HasSmallPlaces t
        → IsText t bytes ↔ ((c : Content) × (read_of t bytes ≡ Ok c)) }
    ensures fault { (t : Table) (bytes : List ℕ) (at : ℕ) → IsProgram t → HasSmallPlaces t
        → read_of t bytes ≡ Err at → IsFault (IsText t) bytes at }
{}
