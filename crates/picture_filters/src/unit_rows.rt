//! The coding tree units of a picture, in rows of each component.

ghost use Rattle.std.specs.Prelude.{◌≡◌, ℕ, ◌+◌, ◌*◌, ◌<◌, ◌≤◌, ◌==◌, ◌&&◌, nat_lt, length};
ghost use Rattle.std.specs.Prelude.{slice_index_or, IfOk, if◌then◌else◌};
ghost use Rattle.place_grid.specs.Cells.{HasCells};
ghost use Rattle.spec_sample_adaptive_offset.specs.declared.unit.OffsetUnit.{OffsetUnit};
ghost use Rattle.picture_filters.specs.Units.{HasUnits, first_unit, units_of};

use ctu_records::ComponentOffset;
use place_grid::Grid;
use spec_sample_adaptive_offset::OffsetUnit;
use std::alloc::{AllocError, Global};

/// Not applied, in the slice of the first unit, across slices.
pub(crate) const FIRST_UNIT: OffsetUnit = OffsetUnit {
    offset: ComponentOffset::Off,
    slice: 0,
    across: true,
};

/// What sample adaptive offset asks of the units of a picture of so many columns and rows: no offset, slice 0, across
/// slices. Each row of units is one of luma, one of Cb and one of Cr, components 0, 1 and 2.
#[tactic(auto, unfolding(crate::specs::Units::units_of))]
pub(crate) fn unit_rows(
    alloc: Global,
    columns: u32,
    rows: u32,
) -> Result<Grid<OffsetUnit>, AllocError>
    requires columns { columns ≤ 512 }
    requires rows { rows ≤ 512 }
    ensures sides { IfOk result (λ g. HasUnits g columns rows) }
    ensures units { IfOk result (λ g. (c column row : ℕ) → units_of g c column row ≡ first_unit) }
{
    Grid::new(alloc, columns, 3 * rows, FIRST_UNIT)
}

/// Component `c` of a unit, where the picture has a row of that number.
#[tactic(auto, unfolding(crate::specs::Units::units_of))]
pub(crate) fn put_unit(
    units: &mut Grid<OffsetUnit>,
    c: usize,
    column: usize,
    row: usize,
    unit: OffsetUnit,
)
    requires component { c < 3 }
    requires column { column < units.old.across }
    ensures sides { (across down : ℕ) → HasCells units.old across down → HasCells units.new across down }
    ensures values { (rows : ℕ) → units.old.down ≡ 3 * rows → (d i j : ℕ) → units_of units.new d i j
        ≡ (if (d == c && nat_lt row rows) && (i == column && j == row) then unit else units_of units.old d i j) }
{
    if row < units.down() as usize / 3 {
        units.put(column, 3 * row + c, unit);
    }
}

/// Component `c` of a row of units; empty behind the last row.
#[tactic(auto, unfolding(crate::specs::Units::units_of))]
pub(crate) fn unit_row(units: &Grid<OffsetUnit>, c: usize, row: usize) -> &[OffsetUnit]
    requires { c < 3 }
    ensures count { (rows : ℕ) → units.now.down ≡ 3 * rows
        → length result.now ≡ (if nat_lt row rows then units.now.across else 0) }
    ensures values { (column : ℕ) (other : OffsetUnit) → column < length result.now
        → slice_index_or result.now column other ≡ units_of units.now c column row }
{
    if row < units.down() as usize / 3 {
        units.rows(3 * row + c, 1)
    } else {
        &[]
    }
}
