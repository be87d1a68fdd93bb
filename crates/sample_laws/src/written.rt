//! A law of the definitions of what goes out.

ghost use Rattle.std.specs.Prelude.{◌≡◌, ◌≤◌, ℕ};
ghost use Rattle.header_types.specs.SequenceParameterSets.{IsPictureFormat};
ghost use Rattle.unit_laws.specs.SpecPictureBuild.{has_two_bytes, sample_bytes};
ghost use Rattle.unit_laws.specs.SpecPictureBuild.{DecodedPicture, greatest_sample};
ghost use Rattle.sample_laws.specs.Ranges.{number_of};

/// Where the samples of a picture are in range, no bit of them is lost where they go out: their bytes spell them, the
/// low one first.
pub fn samples_in_range_go_out_whole()
    ensures whole { (d : DecodedPicture) → IsPictureFormat d.format
        → ((c x y : ℕ) → d.samples c x y ≤ greatest_sample d.format c)
        → (c x y : ℕ) → number_of (sample_bytes (has_two_bytes d.format) (d.samples c x y)) ≡ d.samples c x y }
{}
