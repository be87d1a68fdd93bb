//! What follows from the definitions.

ghost use Rattle.std.specs.Prelude.{ℕ, ◌≡◌, ◌+◌, ◌<◌};
ghost use Rattle.hv_base.specs.declared.line.Phase.TheVariants.{S};
ghost use Rattle.sample_words.specs.declared.sizes.FlightSizes.{FlightSizes};
ghost use Rattle.sample_words.specs.Contents.{component_words, components_before};
ghost use Rattle.line_words.specs.Places.{UnitAt, words_at};
ghost use Rattle.sample_lines.specs.Lines.{luma_height, luma_width};

/// The words of a component follow those of the components before it (`next`). Behind all loop filters those of all
/// three are the words of the unit (`all`).
pub fn components_follow_one_another()
    ensures next { (s : FlightSizes) (width height c : ℕ) → c < 3
        → components_before s width height c + component_words s width height c
        ≡ components_before s width height (c + 1) }
    ensures all { (at : UnitAt) → at.line.phase ≡ S
        → components_before at.sizes (luma_width at) (luma_height at) 3 ≡ words_at at }
{}
