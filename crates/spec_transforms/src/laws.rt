//! What holds of the matrices.

ghost use Rattle.std.specs.Prelude.{◌≡◌, ℕ, ◌<◌, true, false};
ghost use Rattle.spec_transforms.specs.Matrices.{entry, cosine_entry, sine_entry};

/// Each entry of the matrices is the cosine, or the sine, of its angle.
pub fn matrices_are_cosines_and_sines()
    ensures cosines { (k n : ℕ) → k < 32 → n < 32 → entry false 32 k n ≡ cosine_entry k n }
    ensures sines { (k n : ℕ) → k < 4 → n < 4 → entry true 4 k n ≡ sine_entry k n }
{}
