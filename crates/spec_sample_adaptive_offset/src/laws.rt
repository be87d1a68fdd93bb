//! What follows from the definition.

ghost use Rattle.std.specs.Prelude.{◌≡◌, ◌≢◌, ◌≤◌, ◌<◌, ◌+◌, ◌-◌, ◌%◌, ◌^◌, ℕ, pos};
ghost use Rattle.ctu_records.specs.declared.offset.ComponentOffset.TheVariants.{Off};
ghost use Rattle.spec_sample_adaptive_offset.specs.Offsets.{band_index, moved};
ghost use Rattle.spec_sample_adaptive_offset.specs.Plane.{AgreeBeside, OffsetPlane, offset_sample};

/// The bands that have an offset are the four from sao_band_position on, of 32, each with its own.
pub fn bands_are_four_from_the_position()
    ensures these { (position k : ℕ) → k < 4 → band_index position ((k + position) % 32) ≡ k + 1 }
    ensures others { (position band : ℕ) → band < 32 → ((k : ℕ) → k < 4 → band ≢ (k + position) % 32)
        → band_index position band ≡ 0 }
{}

/// Where no coding tree unit has parameters, no sample changes.
pub fn unchanged_by_no_offset()
    ensures { (plane : OffsetPlane) (f : ℕ → ℕ → ℕ) (x y : ℕ) → ((u v : ℕ) → (plane.unit u v).offset ≡ Off)
        → offset_sample plane f x y ≡ f x y }
{}

/// An offset of 0 changes no sample that is in the range of the bit depth.
pub fn samples_without_offset_stay()
    ensures { (depth s : ℕ) → s < 2 ^ depth → moved depth s (pos 0) ≡ s }
{}

/// Samples that are in the range of the bit depth stay in it.
pub fn offset_samples_are_in_range()
    ensures { (plane : OffsetPlane) (f : ℕ → ℕ → ℕ) (x y : ℕ) → f x y < 2 ^ plane.depth
        → offset_sample plane f x y < 2 ^ plane.depth }
{}

/// A sample depends on its own place of the deblocked plane and on those at most one column and one line from it: so a
/// row of coding tree blocks reads its own lines, one above and one below.
pub fn samples_depend_on_what_lies_beside_them()
    ensures { (p q : OffsetPlane) (f g : ℕ → ℕ → ℕ) (x y : ℕ) → AgreeBeside p q f g x y
        → offset_sample p f x y ≡ offset_sample q g x y }
{}
