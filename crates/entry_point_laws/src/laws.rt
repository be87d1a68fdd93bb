//! Laws of the definitions.

ghost use Rattle.std.specs.Prelude.{◌≡◌, ℕ, ◌+◌, ◌<◌, List, [], ◌∷◌, ◌++◌, length};
ghost use Rattle.spec_nal_units.specs.Escaped.{added, escaped};
ghost use Rattle.spec_slice_headers.specs.Substreams.{payload_before, unit_place};

/// Behind a byte other than 00 the bytes of a unit are written as if they stood alone; how many bytes of the unit stand
/// before them tells how many of the payload do, and the other way round.
pub fn entry_points_cut()
    ensures bytes { (before last : ℕ) (front : List ℕ) (z : ℕ) (back : List ℕ) → 0 < z
        → escaped before last (front ++ z ∷ back) ≡ escaped before last (front ++ z ∷ []) ++ escaped 1 1 back }
    ensures before { (before last : ℕ) (front : List ℕ) (z : ℕ) (back : List ℕ) → 0 < z
        → payload_before (added 2 before last (front ++ z ∷ back)) (2 + length (escaped before last (front ++ z ∷ [])))
        ≡ length (front ++ z ∷ []) }
    ensures place { (before last : ℕ) (front : List ℕ) (z : ℕ) (back : List ℕ) → 0 < z
        → unit_place (added 2 before last (front ++ z ∷ back)) (length (front ++ z ∷ []))
        ≡ 2 + length (escaped before last (front ++ z ∷ [])) }
{}
