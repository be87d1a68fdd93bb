//! Laws of the definitions.

ghost use Rattle.std.specs.Prelude.{◌≡◌, ℕ, List, [], ◌∷◌, ◌++◌, length, Some};
ghost use Rattle.spec_stated_hashes.specs.StatedHashes.{stated_hashes};

/// A message that is written of three digests as the first of a unit states them, whatever stands behind it.
pub fn written_hashes_are_stated()
    ensures { (luma cb cr behind : List ℕ) → length luma ≡ 16 → length cb ≡ 16 → length cr ≡ 16
        → stated_hashes (132 ∷ 49 ∷ 0 ∷ (luma ++ (cb ++ (cr ++ behind))))
        ≡ Some (luma ∷ cb ∷ cr ∷ []) }
{}
