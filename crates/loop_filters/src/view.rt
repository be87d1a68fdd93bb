//! What the loop filters ask of a picture, apart from its samples.

ghost use Rattle.std.specs.Prelude.{◌≡◌, ◌<◌, ◌+◌, ◌*◌, ◌/◌, ℕ, false, length, slice_index_or};
ghost use Rattle.sao_filter.specs.Row.{unit_in};
ghost use Rattle.spec_loop_filters.specs.declared.format.FilterFormat.{FilterFormat};
ghost use Rattle.spec_sample_adaptive_offset.specs.declared.unit.OffsetUnit.{OffsetUnit};
ghost use Rattle.loop_filters.specs.Formats.{columns_of, rows_of};

use deblock::PlaceView;
use spec_sample_adaptive_offset::OffsetUnit;

/// The places and the coding tree units of a picture.
pub trait FilterView: PlaceView {
    /// The format of the picture.
    ghost shape: { Self → FilterFormat };
    /// A component of a coding tree unit, by the component and the unit's column and row.
    ghost unit_at: { Self → ℕ → ℕ → ℕ → OffsetUnit };

    /// Component `c` of the coding tree units of a row.
    fn units(&self, c: usize, row: usize) -> &[OffsetUnit]
        requires component { c < 3 }
        requires row { row < rows_of (shape self.now) }
        ensures count { length result.now ≡ columns_of (shape self.now) }
        ensures units { (u : ℕ) → u < columns_of (shape self.now) → unit_in result.now u ≡ unit_at self.now c u row };

    /// Whether the samples of each place of a row of coding tree blocks stay, line by line; empty where none of them
    /// does.
    fn kept(&self, row: usize) -> &[bool]
        requires { row < rows_of (shape self.now) }
        ensures { (i j : ℕ) → i < (shape self.now).width / 4 → j < (shape self.now).ctb_size / 4
            → (shape self.now).ctb_size / 4 * row + j < (shape self.now).height / 4
            → slice_index_or result.now ((shape self.now).width / 4 * j + i) false
            ≡ (Self.place_at self.now i ((shape self.now).ctb_size / 4 * row + j)).kept };
}
