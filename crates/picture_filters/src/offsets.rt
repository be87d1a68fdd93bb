//! The offsets of a coding tree unit over those of its picture.

ghost use Rattle.std.specs.Prelude.{◌≡◌, ◌*◌, ℕ};
ghost use Rattle.picture_filters.specs.Given.{offsets_laid};
ghost use Rattle.picture_filters.specs.Units.{HasUnits, units_of};
ghost use Rattle.place_grid.specs.Cells.{HasCells};

use crate::unit_rows::put_unit;
use picture_layout::CodingTreeUnit;
use place_grid::Grid;
use spec_sample_adaptive_offset::OffsetUnit;

/// The components of a unit over those of the picture, which has them where it has the unit.
#[tactic(auto, unfolding(crate::specs::Given::offsets_laid))]
pub(crate) fn lay_offsets(
    unit: &CodingTreeUnit,
    offsets: &[OffsetUnit; 3],
    units: &mut Grid<OffsetUnit>,
)
    requires { units.old.across ≡ unit.now.layout.width }
    ensures value { (rows : ℕ) → units.old.down ≡ 3 * rows → (c i j : ℕ) → units_of units.new c i j
        ≡ offsets_laid unit.now.layout unit.now.address rows offsets.now (units_of units.old) c i j }
    ensures sides { (across down : ℕ) → HasCells units.old across down → HasCells units.new across down }
{
    let column = unit.layout.column(unit.address) as usize;
    let row = unit.layout.row(unit.address) as usize;
    put_unit(units, 0, column, row, offsets[0]);
    put_unit(units, 1, column, row, offsets[1]);
    put_unit(units, 2, column, row, offsets[2]);
}
