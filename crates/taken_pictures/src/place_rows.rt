//! Rows of places of coding tree units, laid into the motion of a picture.

ghost use Rattle.std.specs.Prelude.{◌≡◌, ℕ, ◌+◌, ◌-◌, ◌<◌, ◌≤◌, ◌==◌, ◌&&◌, nat_le, nat_lt, true, if◌then◌else◌};
ghost use Rattle.plan_types.specs.declared.picture_plan.PicturePlan.{PicturePlan};
ghost use Rattle.picture_buffer.specs.Motion.{HasPlaces, motions_of};
ghost use Rattle.spec_picture_trees.specs.Shapes.{picture_shape};
ghost use Rattle.taken_pictures.specs.Kept.{IsOfSegment, kept_at};

use crate::kept_places::{SegmentMotion, kept_motion};
use picture_buffer::MotionField;
use picture_layout::CodingTreeUnit;
use plan_types::PicturePlan;

/// A row of places of 4x4 luma samples of a coding tree unit, from the left one on.
#[derive(Clone, Copy)]
pub(crate) struct PlaceRow {
    /// The column of the first place in the picture.
    pub(crate) x: usize,
    /// Their row in the picture.
    pub(crate) y: usize,
    /// How many there are, at most 16.
    pub(crate) count: usize,
    /// The words of their vectors.
    pub(crate) vectors: [u64; 16],
    /// The words of their modes.
    pub(crate) modes: [u64; 16],
}

/// Lays the motion of a row of places of a unit into that of its picture. Places that follow one another and have the
/// same motion are laid together.
pub(crate) fn lay_row(
    unit: &CodingTreeUnit,
    plan: &PicturePlan,
    segment: &mut SegmentMotion,
    row: &PlaceRow,
    field: &mut MotionField,
)
    requires layout { unit.now.layout ≡ picture_shape plan.now.sps plan.now.pps }
    requires slice { IsOfSegment plan.now unit.now.address segment.old }
    requires few { row.now.count ≤ 16 }
    requires small { row.now.x ≤ 8192 }
    requires columns { row.now.x + row.now.count ≤ field.old.across }
    requires row { row.now.y < field.old.down }
    ensures places { (i j : ℕ) → motions_of field.new i j
        ≡ (if j == row.now.y && (nat_le row.now.x i && nat_lt i (row.now.x + row.now.count))
        then kept_at plan.now unit.now.address row.now (i - row.now.x)
        else motions_of field.old i j) }
    ensures sides { (across down : ℕ) → HasPlaces field.old across down → HasPlaces field.new across down }
    ensures slice { IsOfSegment plan.now unit.now.address segment.new }
{
    let mut column = 0;
    while column < row.count {
        let end = run_end(row, column);
        let vectors = row.vectors[column];
        let modes = row.modes[column];
        let motion = kept_motion(unit, plan, segment, vectors, modes);
        field.put_run(row.x + column, row.y, end - column, motion);
        column = end;
    }
}

/// The column behind those from one on that have its motion.
fn run_end(row: &PlaceRow, column: usize) -> usize
    requires column { column < row.now.count }
    requires few { row.now.count ≤ 16 }
    ensures more { column < result }
    ensures inside { result ≤ row.now.count }
    ensures same { (p : PicturePlan) (address i : ℕ) → column ≤ i → i < result
        → kept_at p address row.now i ≡ kept_at p address row.now column }
{
    let mut end = column + 1;
    while end < row.count && is_same(row, end, column) {
        end += 1;
    }
    end
}

/// Whether two places have the same vectors, reference indices and slice segment.
#[inline(always)]
fn is_same(row: &PlaceRow, column: usize, other: usize) -> bool
    requires column { column < 16 }
    requires other { other < 16 }
    ensures { result ≡ true → (p : PicturePlan) (address : ℕ)
        → kept_at p address row.now column ≡ kept_at p address row.now other }
{
    row.vectors[column] == row.vectors[other]
        && row.modes[column] / 8_388_608 == row.modes[other] / 8_388_608
}
