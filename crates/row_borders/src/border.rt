//! What a row of coding tree units has beside one of them.

ghost use Rattle.std.specs.Prelude.{◌≡◌, ℕ, ◌+◌, ◌-◌, ◌*◌, ◌<◌, ◌≤◌, ◌==◌, ◌&&◌, nat_le, nat_lt, length, IfOk};
ghost use Rattle.std.specs.Prelude.{slice_index, None, false, if◌then◌else◌};
ghost use Rattle.picture_buffer.specs.Motion.{HasPlaces};
ghost use Rattle.row_borders.specs.Borders.{at_unit, block_beneath, coded_above, coded_left, column_left, line_above};
ghost use Rattle.row_borders.specs.Borders.{motion_above, motion_left, with_above, with_beneath, with_left};
ghost use Rattle.row_borders.specs.Strips.{with_places, with_samples};
ghost use Rattle.spec_picture_build.specs.Border.{width_of};

use crate::strip::Strip;
use picture_buffer::{MotionField, PlaceMotion};
use picture_layout::CodingTreeUnit;
use std::alloc::{AllocError, Global};
use std::marker::Model;

/// What a row of coding tree units has beside one of them, in memory of its own: the samples, the motion and the coded
/// flags of the lowest places of the row above, in the whole width of the picture, and of the rightmost places of the
/// unit on the left; and the motion of the collocated picture in the blocks beneath the unit. What is laid stays until
/// it is laid anew, whichever unit is built next.
#[derive(Drop)]
pub struct RowBorder {
    /// The unit.
    pub(crate) unit: CodingTreeUnit,
    /// The column of its first place.
    pub(crate) column: usize,
    /// The row of its first place.
    pub(crate) row: usize,
    pub(crate) above: Strip,
    pub(crate) left: Strip,
    /// Five columns and four rows of blocks of 4x4 places.
    pub(crate) beneath: MotionField,
}

impl Model for RowBorder {
    ghost use Rattle.row_borders.specs.Borders.{Bordering, IsBorder};

    ghost Value = { Bordering };

    ghost view = { λ b. record { unit = b.unit; above = b.above; left = b.left; beneath = b.beneath } };

    ghost invariant = { λ b. IsBorder b.unit b.column b.row b.above b.left b.beneath };
}

impl RowBorder {
    /// Beside a unit, with nothing laid, for all units of pictures of its picture's size. It takes memory, and no other
    /// call does.
    pub fn new(alloc: Global, unit: CodingTreeUnit) -> Result<RowBorder, AllocError>
        ensures unit { IfOk result (λ b. b.unit ≡ unit) }
        ensures line { IfOk result (λ b. (c x : ℕ) → line_above b c x ≡ 0) }
        ensures places { IfOk result (λ b. (x : ℕ) → motion_above b x ≡ None) }
        ensures flags { IfOk result (λ b. (x : ℕ) → coded_above b x ≡ false) }
        ensures column { IfOk result (λ b. (c k : ℕ) → column_left b c k ≡ 0) }
        ensures places_left { IfOk result (λ b. (k : ℕ) → motion_left b k ≡ None) }
        ensures flags_left { IfOk result (λ b. (k : ℕ) → coded_left b k ≡ false) }
        ensures beneath { IfOk result (λ b. (i j : ℕ) → block_beneath b i j ≡ None) }
    {
        let above = Strip::new(alloc, unit.layout.across())?;
        let left = Strip::new(alloc, 16)?;
        let beneath = MotionField::new(alloc, 5, 4)?;
        Ok(RowBorder {
            unit,
            column: unit.first_column(),
            row: unit.first_row(),
            above,
            left,
            beneath,
        })
    }

    /// Beside another unit. What was laid stays.
    pub fn stand_at(&mut self, unit: CodingTreeUnit)
        requires { unit.layout.across ≡ self.old.unit.layout.across }
        ensures { self.new ≡ at_unit self.old unit }
    {
        self.unit = unit;
        self.column = unit.first_column();
        self.row = unit.first_row();
    }

    /// Samples of component `c` of the line above, from a column of the picture on.
    pub fn lay_above(&mut self, c: usize, first: usize, samples: &[u16])
        requires component { c < 3 }
        requires inside { first + length samples.now ≤ width_of self.old.unit.layout c }
        ensures line { (i x : ℕ) → line_above self.new i x
            ≡ (if i == c && (nat_le first x && nat_lt x (first + length samples.now))
            then slice_index samples.now (x - first)
            else line_above self.old i x) }
        ensures same { self.new ≡ with_above self.old (with_samples self.old.above self.new.above.samples) }
    {
        self.above.lay_samples(c, first, samples);
    }

    /// The motion of a place of the row above, by its column in the picture, and whether it is coded.
    pub fn lay_place_above(&mut self, x: usize, motion: Option<PlaceMotion>, coded: bool)
        requires { x < self.old.unit.layout.across }
        ensures motion { (i : ℕ) → motion_above self.new i ≡ (if i == x then motion else motion_above self.old i) }
        ensures coded { (i : ℕ) → coded_above self.new i ≡ (if i == x then coded else coded_above self.old i) }
        ensures same { self.new
            ≡ with_above self.old (with_places self.old.above self.new.above.motion self.new.above.coded) }
    {
        self.above.lay_place(x, motion, coded);
    }

    /// The motion of the collocated picture in a block of 4x4 places, by column and row of blocks from the first one of
    /// the unit on.
    pub fn lay_beneath(&mut self, column: usize, row: usize, motion: Option<PlaceMotion>)
        requires column { column < 5 }
        requires row { row < 4 }
        ensures motion { (i j : ℕ) → block_beneath self.new i j
            ≡ (if i == column && j == row then motion else block_beneath self.old i j) }
        ensures same { self.new ≡ with_beneath self.old self.new.beneath }
    {
        self.beneath.put(column, row, motion);
    }

    /// There is no collocated picture.
    pub fn clear_beneath(&mut self)
        ensures motion { (i j : ℕ) → block_beneath self.new i j ≡ None }
        ensures same { self.new ≡ with_beneath self.old self.new.beneath }
    {
        self.beneath.restart();
    }

    /// There is no unit on the left.
    pub fn clear_left(&mut self)
        ensures samples { (c k : ℕ) → column_left self.new c k ≡ 0 }
        ensures motion { (k : ℕ) → motion_left self.new k ≡ None }
        ensures coded { (k : ℕ) → coded_left self.new k ≡ false }
        ensures same { self.new ≡ with_left self.old self.new.left }
    {
        self.left.restart();
    }
}
