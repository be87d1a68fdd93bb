//! What follows from the definitions.

ghost use Rattle.std.specs.Prelude.{◌≡◌, ◌<◌, ◌≤◌, ◌+◌, ◌/◌, ◌%◌, ℕ};
ghost use Rattle.spec_loop_filters.specs.SpecDeblocking.{Place};
ghost use Rattle.spec_loop_filters.specs.SpecSampleAdaptiveOffset.{offset_sample};
ghost use Rattle.spec_loop_filters.specs.declared.format.FilterFormat.{FilterFormat};
ghost use Rattle.spec_loop_filters.specs.Filters.{LoopFilters, Samples, final_samples, height_of, offset_plane};
ghost use Rattle.spec_loop_filters.specs.Filters.{width_of};
ghost use Rattle.filter_locality_laws.specs.Rows.{IsFilterFormat, IsOfRow, IsPlaceOfRow, behind_horizontal};
ghost use Rattle.filter_locality_laws.specs.Rows.{behind_vertical};

/// The samples of a picture are filtered in three steps: across vertical edges, across horizontal edges, and by sample
/// adaptive offset.
pub fn samples_are_filtered_in_three_steps()
    ensures { (filters : LoopFilters) (samples : Samples) (c x y : ℕ)
        → final_samples filters samples c x y
        ≡ offset_sample (offset_plane filters c)
        (behind_horizontal filters.format filters.places c
        (behind_vertical filters.format filters.places c (samples c)))
        x y }
{}

/// A row of coding tree blocks with a multiple of four lines on each side depends behind its vertical edges on the
/// samples of these lines before them, and on their places. Two lines of chroma stand for a row of places.
pub fn vertical_rows_depend_on_their_lines()
    ensures { (format : FilterFormat) (places others : ℕ → ℕ → Place) (f g : ℕ → ℕ → ℕ) (c row beside x y : ℕ)
        → IsFilterFormat format → beside % 4 ≡ 0
        → ((i s : ℕ) → IsPlaceOfRow format row (beside / 2) s → places i s ≡ others i s)
        → ((i j : ℕ) → i < width_of format c → IsOfRow format c row beside j → f i j ≡ g i j)
        → x < width_of format c → IsOfRow format c row beside y
        → behind_vertical format places c f x y ≡ behind_vertical format others c g x y }
{}

/// Behind its horizontal edges it depends, with four lines on each side, on the samples of these lines before them, and
/// on its own places and a row of places on each side: an edge changes four lines on each side of it by the same lines.
pub fn horizontal_rows_depend_on_four_lines_beside_them()
    ensures { (format : FilterFormat) (places others : ℕ → ℕ → Place) (f g : ℕ → ℕ → ℕ) (c row x y : ℕ)
        → IsFilterFormat format
        → ((i s : ℕ) → IsPlaceOfRow format row 1 s → places i s ≡ others i s)
        → ((i j : ℕ) → i < width_of format c → j < height_of format c → IsOfRow format c row 4 j → f i j ≡ g i j)
        → x < width_of format c → y < height_of format c → IsOfRow format c row 4 y
        → behind_horizontal format places c f x y ≡ behind_horizontal format others c g x y }
{}

/// Behind sample adaptive offset it depends on its own samples before and one line on each side, on which of its own
/// places are kept, and on the offsets of its own units and those of a row on each side.
pub fn offset_rows_depend_on_one_line_beside_them()
    ensures { (filters others : LoopFilters) (f g : ℕ → ℕ → ℕ) (c row x y : ℕ)
        → IsFilterFormat filters.format → filters.format ≡ others.format
        → ((i s : ℕ) → IsPlaceOfRow filters.format row 0 s → (filters.places i s).kept ≡ (others.places i s).kept)
        → ((column u : ℕ) → row ≤ u + 1 → u ≤ row + 1 → filters.units c column u ≡ others.units c column u)
        → ((i j : ℕ) → i < width_of filters.format c → j < height_of filters.format c
        → IsOfRow filters.format c row 1 j → f i j ≡ g i j)
        → x < width_of filters.format c → y < height_of filters.format c → IsOfRow filters.format c row 0 y
        → offset_sample (offset_plane filters c) f x y ≡ offset_sample (offset_plane others c) g x y }
{}
