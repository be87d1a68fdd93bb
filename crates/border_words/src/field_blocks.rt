//! The motion beneath a coding tree unit, of a collocated picture that is decoded.

ghost use Rattle.std.specs.Prelude.{◌≡◌, ◌≢◌, ℕ, ◌+◌, ◌*◌, ◌<◌, ◌≤◌};
ghost use Rattle.border_words.specs.Beneath.{HasColumn};
ghost use Rattle.picture_buffer.specs.Motion.{motions_of};
ghost use Rattle.row_borders.specs.Borders.{block_beneath, with_beneath};
ghost use Rattle.row_borders.specs.Building.{IsBeneath};
ghost use Rattle.spec_picture_trees.specs.Places.{first_column, first_row, unit_places};

use picture_buffer::MotionField;
use row_borders::{Beside, RowBorder};

/// Lays the motion of a picture beneath a border's unit.
pub(crate) fn lay_field(field: &MotionField, border: &mut RowBorder)
    ensures beneath { IsBeneath border.new (motions_of field.now) }
    ensures same { border.new ≡ with_beneath border.old border.new.beneath }
{
    let unit = border.unit();
    let side = unit.layout.side();
    let x = unit.first_column();
    let y = unit.first_row();
    for column in 0..side / 4 + 1 {
        lay_field_column(field, x + 4 * column, y, side, column, border);
    }
}

/// The same in a column of blocks, of places of one column of the picture from a row on.
fn lay_field_column(
    field: &MotionField,
    x: usize,
    y: usize,
    side: usize,
    column: usize,
    border: &mut RowBorder,
)
    requires row { y ≤ 68719476720 }
    requires small { side ≤ 16 }
    requires column { column < 5 }
    ensures column { HasColumn border.new side column (λ row. motions_of field.now x (y + 4 * row)) }
    ensures others { (c row : ℕ) → c ≢ column → block_beneath border.new c row ≡ block_beneath border.old c row }
    ensures same { border.new ≡ with_beneath border.old border.new.beneath }
{
    for row in 0..(side + 3) / 4 {
        border.lay_beneath(column, row, field.at(x, y + 4 * row));
    }
}
