//! Laws of the definitions.

ghost use Rattle.std.specs.Prelude.{◌≡◌, ℕ, ◌+◌, ◌*◌, ◌/◌, ◌<◌, ℤ, pos, ◌+ℤ◌, ◌*ℤ◌, true, Some, length};
ghost use Rattle.spec_made.specs.declared.units.PcmUnit.{PcmUnit};
ghost use Rattle.spec_boundary_strengths.specs.Places.{kept_at};
ghost use Rattle.spec_deblocking.specs.Places.{side};
ghost use Rattle.spec_inter_prediction.specs.Chroma.{chroma_sample};
ghost use Rattle.spec_inter_prediction.specs.Luma.{luma_sample};
ghost use Rattle.spec_inter_prediction.specs.Weighting.{default_one, default_two};
ghost use Rattle.spec_loop_filters.specs.Filters.{LoopFilters, Samples, final_samples, height_of, plane_of, width_of};
ghost use Rattle.spec_reconstruction.specs.declared.format.UnitFormat.{UnitFormat};
ghost use Rattle.spec_reconstruction.specs.Inter.{InterUnit};
ghost use Rattle.spec_reconstruction.specs.Known.{Known};
ghost use Rattle.spec_reconstruction.specs.Unit.{unit_built};
ghost use Rattle.made_row_laws.specs.Units.{pcm_unit_items};
ghost use Rattle.made_sample_laws.specs.Units.{HasEightBits, pulse_at, side_of};

/// A coding tree unit by pulse code modulation has the samples that are drawn of it, split or not, whatever is known
/// beside it.
pub fn pulses_are_laid_as_drawn()
    ensures { (format : UnitFormat) (inter : InterUnit) (u : PcmUnit) (known : Known) (c i j : ℕ)
        → HasEightBits format → length u.samples ≡ 384 → c < 3 → i < side_of c → j < side_of c
        → unit_built format inter (pcm_unit_items u) known c (i + 1) (j + 1) ≡ Some (pulse_at u c i j) }
{}

/// All places of such a unit are kept where pcm_loop_filter_disabled_flag is 1.
pub fn pulses_are_kept()
    ensures { (u : PcmUnit) (x y : ℕ) → x < 4 → y < 4 → kept_at true (pcm_unit_items u) x y ≡ true }
{}

/// Where all places of a picture are kept, its loop filters change no sample of it.
pub fn kept_places_stay()
    ensures { (filters : LoopFilters) (samples : Samples) (columns rows c x y : ℕ)
        → ((i j : ℕ) → i < columns → j < rows → (filters.places i j).kept ≡ true)
        → width_of filters.format c ≡ side (plane_of filters.format c) * columns
        → height_of filters.format c ≡ side (plane_of filters.format c) * rows
        → x < width_of filters.format c → y < height_of filters.format c
        → final_samples filters samples c x y ≡ samples c x y }
{}

/// A vector of whole samples copies the sample that it leads to (`luma`, `chroma`). A prediction that is such a copy
/// has that sample (`one`), and two have their mean, rounded up (`two`).
pub fn whole_vectors_copy()
    ensures luma { (reference : ℤ → ℤ → ℕ) (across down : ℤ) (x y : ℕ)
        → luma_sample 8 reference (pos 4 *ℤ across) (pos 4 *ℤ down) x y
        ≡ pos 64 *ℤ pos (reference (pos x +ℤ across) (pos y +ℤ down)) }
    ensures chroma { (reference : ℤ → ℤ → ℕ) (across down : ℤ) (x y : ℕ)
        → chroma_sample 8 reference (pos 8 *ℤ across) (pos 8 *ℤ down) x y
        ≡ pos 64 *ℤ pos (reference (pos x +ℤ across) (pos y +ℤ down)) }
    ensures one { (a : ℕ) → a < 256 → default_one 8 (pos 64 *ℤ pos a) ≡ a }
    ensures two { (a b : ℕ) → a < 256 → b < 256
        → default_two 8 (pos 64 *ℤ pos a) (pos 64 *ℤ pos b) ≡ (a + b + 1) / 2 }
{}
