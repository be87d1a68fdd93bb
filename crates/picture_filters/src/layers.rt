//! The places of a coding tree unit over those of its picture.

ghost use Rattle.std.specs.Prelude.{◌≡◌, ℕ, ◌+◌, ◌-◌, ◌<◌, ◌≤◌, ◌==◌, ◌&&◌, nat_le, nat_lt, pos, if◌then◌else◌};
ghost use Rattle.picture_filters.specs.Places.{HasPlaces, places_of};
ghost use Rattle.picture_filters.specs.Filtering.{filter_place, filter_places_laid, read_place};
ghost use Rattle.picture_layout.specs.Blocks.{IsSmall};
ghost use Rattle.spec_picture_filters.specs.Units.{held_offset};

use crate::filter_place::SliceOffsets;
use crate::place_field::PlaceField;
use boundary_strengths::UnitPlace;
use picture_layout::{CodingTreeUnit, PlaceBlock};
use slice_types::SliceDeblocking;

/// The places of a unit, in 16 rows of 16, over those of the picture.
pub(crate) fn lay_places(
    unit: &CodingTreeUnit,
    slice: SliceDeblocking,
    read: &[UnitPlace; 256],
    field: &mut PlaceField,
)
    requires { HasPlaces field.old unit.now.layout.across unit.now.layout.down }
    ensures value { (i j : ℕ) → places_of field.new i j
        ≡ filter_places_laid unit.now.layout unit.now.address slice (read_place read.now) (places_of field.old) i j }
    ensures sides { HasPlaces field.new unit.now.layout.across unit.now.layout.down }
{
    let block = unit.places();
    for row in 0..block.rows {
        lay_row(block, row, slice, read, field);
    }
}

/// A row of places.
fn lay_row(
    block: PlaceBlock,
    row: usize,
    slice: SliceDeblocking,
    read: &[UnitPlace; 256],
    field: &mut PlaceField,
)
    requires row { row < block.rows }
    requires columns { block.columns ≤ field.old.across - block.x }
    requires rows { block.rows ≤ field.old.down - block.y }
    requires small { IsSmall block }
    ensures places { (i j : ℕ) → places_of field.new i j
        ≡ (if (j == block.y + row) && (nat_le block.x i && nat_lt i (block.x + block.columns))
        then filter_place slice (read_place read.now (i - block.x) row)
        else places_of field.old i j) }
    ensures sides { (across down : ℕ) → HasPlaces field.old across down → HasPlaces field.new across down }
{
    let first = 16 * row;
    let places = &read[first..first + block.columns];
    field.put_row(block.x, block.y + row, places, offsets_of(slice));
}

/// The offsets of a slice.
fn offsets_of(slice: SliceDeblocking) -> SliceOffsets
    ensures { result ≡ record {
      beta = held_offset slice.slice_beta_offset_div2;
      tc = held_offset slice.slice_tc_offset_div2;
    } }
{
    SliceOffsets {
        beta: held_offset(slice.slice_beta_offset_div2),
        tc: held_offset(slice.slice_tc_offset_div2),
    }
}

/// An offset from -6 to 6.
fn held_offset(offset: i32) -> i8
    ensures { result ≡ held_offset offset }
{
    offset.clamp(-6, 6) as i8
}
