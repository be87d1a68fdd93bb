//! The motion of a coding tree unit in that of its picture.

ghost use Rattle.std.specs.Prelude.{◌≡◌, ℕ, ◌+◌, ◌-◌, ◌*◌, ◌<◌, ◌≤◌, ◌==◌, ◌&&◌, nat_le, nat_lt, true, if◌then◌else◌};
ghost use Rattle.ctu_motion.specs.Held.{held};
ghost use Rattle.picture_buffer.specs.Motion.{HasPlaces, motions_of};
ghost use Rattle.picture_layout.specs.Blocks.{IsSmall};
ghost use Rattle.spec_picture_motion.specs.Field.{pointing_motion, unit_laid};

use crate::pointing::pointing_motion;
use ctu_motion::{MotionView, UnitMotion};
use picture_buffer::{MotionField, PlaceMotion};
use picture_layout::{CodingTreeUnit, PlaceBlock};
use spec_motion::{Motion, SliceMotion, Vector};

/// The motion of a unit over that of the picture.
pub fn lay_unit(
    unit: &CodingTreeUnit,
    slice: &SliceMotion,
    motion: &UnitMotion,
    field: &mut MotionField,
)
    requires { HasPlaces field.old unit.now.layout.across unit.now.layout.down }
    ensures value { motions_of field.new
        ≡ unit_laid unit.now.layout unit.now.address slice.now (held motion.now) (motions_of field.old) }
    ensures sides { HasPlaces field.new unit.now.layout.across unit.now.layout.down }
{
    let block = unit.places();
    let mut row = 0;
    while row < block.rows {
        let end = rows_end(motion, row, block);
        lay_rows(block, row, end, slice, motion, field);
        row = end;
    }
}

/// The motion of a row of places over the rows from it on, as far as another.
fn lay_rows(
    block: PlaceBlock,
    row: usize,
    end: usize,
    slice: &SliceMotion,
    motion: &UnitMotion,
    field: &mut MotionField,
)
    requires some { row < end }
    requires inside { end ≤ block.rows }
    requires columns { block.columns ≤ field.old.across - block.x }
    requires rows { block.rows ≤ field.old.down - block.y }
    requires small { IsSmall block }
    ensures places { (i j : ℕ) → motions_of field.new i j
        ≡ (if (nat_le (block.y + row) j && nat_lt j (block.y + end))
        && (nat_le block.x i && nat_lt i (block.x + block.columns))
        then pointing_motion slice.now (held motion.now (i - block.x + 1) (row + 1))
        else motions_of field.old i j) }
    ensures sides { (across down : ℕ) → HasPlaces field.old across down → HasPlaces field.new across down }
{
    let mut column = 0;
    while column < block.columns {
        let here = motion.motion(column + 1, row + 1);
        let run = run_end(motion, row, column, block.columns);
        let place = pointing_motion(slice, here);
        let part = PlaceBlock {
            x: block.x + column,
            y: block.y + row,
            columns: run - column,
            rows: end - row,
        };
        lay_block(part, place, field);
        column = run;
    }
}

/// One motion over a block of places.
fn lay_block(block: PlaceBlock, motion: Option<PlaceMotion>, field: &mut MotionField)
    requires columns { block.x + block.columns ≤ field.old.across }
    requires rows { block.y + block.rows ≤ field.old.down }
    requires few { block.y + block.rows ≤ 68719476736 }
    ensures places { (i j : ℕ) → motions_of field.new i j
        ≡ (if (nat_le block.y j && nat_lt j (block.y + block.rows))
        && (nat_le block.x i && nat_lt i (block.x + block.columns))
        then motion
        else motions_of field.old i j) }
    ensures sides { (across down : ℕ) → HasPlaces field.old across down → HasPlaces field.new across down }
{
    for row in 0..block.rows {
        field.put_run(block.x, block.y + row, block.columns, motion);
    }
}

/// The row behind those from one on that have its motion.
fn rows_end(motion: &UnitMotion, row: usize, block: PlaceBlock) -> usize
    requires row { row < block.rows }
    requires small { IsSmall block }
    ensures more { row < result }
    ensures inside { result ≤ block.rows }
    ensures same { (i j : ℕ) → i < block.columns → row ≤ j → j < result
        → held motion.now (i + 1) (j + 1) ≡ held motion.now (i + 1) (row + 1) }
{
    if motion.is_whole() {
        return block.rows;
    }
    let mut end = row + 1;
    while end < block.rows && is_same_row(motion, row, end, block.columns) {
        end += 1;
    }
    end
}

/// Whether a row of places has the motion of another.
fn is_same_row(motion: &UnitMotion, row: usize, other: usize, columns: usize) -> bool
    requires columns { columns ≤ 16 }
    requires row { row < 16 }
    requires other { other < 16 }
    ensures { result ≡ true → (i : ℕ) → i < columns
        → held motion.now (i + 1) (other + 1) ≡ held motion.now (i + 1) (row + 1) }
{
    for column in 0..columns {
        let here = motion.motion(column + 1, row + 1);
        if !is_same(motion.motion(column + 1, other + 1), here) {
            return false;
        }
    }
    true
}

/// The column behind those from one on that have its motion.
fn run_end(motion: &UnitMotion, row: usize, column: usize, columns: usize) -> usize
    requires column { column < columns }
    requires columns { columns ≤ 16 }
    requires row { row < 16 }
    ensures more { column < result }
    ensures inside { result ≤ columns }
    ensures same { (i : ℕ) → column ≤ i → i < result
        → held motion.now (i + 1) (row + 1) ≡ held motion.now (column + 1) (row + 1) }
{
    if motion.is_whole() {
        return columns;
    }
    let here = motion.motion(column + 1, row + 1);
    let mut end = column + 1;
    while end < columns && is_same(motion.motion(end + 1, row + 1), here) {
        end += 1;
    }
    end
}

/// Whether two motions are the same.
#[inline(always)]
fn is_same(motion: Option<Motion>, other: Option<Motion>) -> bool
    ensures { result ≡ true → motion ≡ other }
{
    match (motion, other) {
        (Some(motion), Some(other)) => {
            is_same_vector(motion.list_0, other.list_0)
                && is_same_vector(motion.list_1, other.list_1)
        }
        (None, None) => true,
        (None, Some(_)) | (Some(_), None) => false,
    }
}

/// Whether two vectors are the same.
#[inline(always)]
fn is_same_vector(vector: Option<Vector>, other: Option<Vector>) -> bool
    ensures { result ≡ true → vector ≡ other }
{
    match (vector, other) {
        (Some(vector), Some(other)) => {
            vector.mv.x == other.mv.x
                && vector.mv.y == other.mv.y
                && vector.ref_idx == other.ref_idx
        }
        (None, None) => true,
        (None, Some(_)) | (Some(_), None) => false,
    }
}
