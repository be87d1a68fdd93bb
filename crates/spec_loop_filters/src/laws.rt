//! What follows from the definitions.

ghost use Rattle.std.specs.Prelude.{◌≡◌, ◌<◌, ◌^◌, ℕ};
ghost use Rattle.spec_sample_adaptive_offset.specs.CtuRecords.{Off};
ghost use Rattle.spec_loop_filters.specs.Filters.{AreInRange, LoopFilters, Samples, final_samples};

/// Where no place has a strength and no unit has an offset, every sample stays.
pub fn no_strength_and_no_offset_changes_nothing()
    ensures { (filters : LoopFilters) (samples : Samples) (c x y : ℕ)
        → ((i j : ℕ) → (filters.places i j).left_strength ≡ 0) → ((i j : ℕ) → (filters.places i j).top_strength ≡ 0)
        → ((u v : ℕ) → (filters.units c u v).offset ≡ Off) → final_samples filters samples c x y ≡ samples c x y }
{}

/// Where the samples of a picture are in the range of their bit depth, so are those behind its loop filters.
pub fn filtered_samples_are_in_range()
    ensures { (filters : LoopFilters) (samples : Samples) → AreInRange filters.format samples
        → AreInRange filters.format (final_samples filters samples) }
{}
