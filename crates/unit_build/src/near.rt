//! The motion of a coding tree unit and beside it, as edges ask for it (8.7.2.4).

ghost use Rattle.std.specs.Prelude.{◌≡◌, ◌+◌, ◌<◌, ◌≤◌, ℕ, None, false, true};
ghost use Rattle.picture_motion.specs.CtuMotion.{held};
ghost use Rattle.unit_build.specs.Near.{is_inside, motion_behind, motion_there};
ghost use Rattle.spec_picture_filters.specs.Units.{motion_near};

use crate::view::Beside;
use picture_filters::PlaceMotions;
use picture_motion::{CodingTreeUnit, MotionView, PlaceMotion, UnitMotion, pointing_motion};
use spec_motion::{Motion, SliceMotion};

/// The motion of a unit that is derived, over that beside it.
#[derive(Clone, Copy)]
pub(crate) struct UnitNear<'a, B: Beside> {
    /// The unit's place.
    pub(crate) unit: &'a CodingTreeUnit,
    /// The motion of its picture before it.
    pub(crate) beside: &'a B,
    /// The pictures that its vectors point to.
    pub(crate) slice: &'a SliceMotion,
    /// Its own motion.
    pub(crate) motion: &'a UnitMotion,
}

impl<'a, B: Beside> PlaceMotions for UnitNear<'a, B> {
    ghost motion_at = { λ v. motion_near v.unit.now.layout v.unit.now.address
        (motion_behind v.unit.now v.slice.now (held v.motion.now) (B.motion_at v.beside.now)) };

    fn motion(&self, column: usize, row: usize) -> Option<PlaceMotion> {
        motion_near(self.unit, self.beside, self.slice, self.motion, column, row)
    }

    fn is_intra(&self, side: usize) -> bool {
        are_still(self, side)
    }
}

/// Whether none of the first places of a unit, so many across and down, has motion.
fn are_still<B: Beside>(near: &UnitNear<'_, B>, side: usize) -> bool
    requires { side ≤ 16 }
    ensures still { result ≡ true → (x y : ℕ) → x < side → y < side
        → motion_there near.now.unit.now near.now.slice.now (held near.now.motion.now)
        (B.motion_at near.now.beside.now) (x + 1) (y + 1)
        ≡ None }
    ensures only { ((x y : ℕ) → x < side → y < side
        → motion_there near.now.unit.now near.now.slice.now (held near.now.motion.now)
        (B.motion_at near.now.beside.now) (x + 1) (y + 1)
        ≡ None)
        → result ≡ true }
{
    for y in 0..side {
        if !is_still_row(near, y, side) {
            return false;
        }
    }
    true
}

/// Whether none of those of a row has. Most rows without motion are told by what is known of the unit alone.
fn is_still_row<B: Beside>(near: &UnitNear<'_, B>, y: usize, side: usize) -> bool
    requires y { y < side }
    requires side { side ≤ 16 }
    ensures still { result ≡ true → (x : ℕ) → x < side
        → motion_there near.now.unit.now near.now.slice.now (held near.now.motion.now)
        (B.motion_at near.now.beside.now) (x + 1) (y + 1)
        ≡ None }
    ensures only { ((x : ℕ) → x < side
        → motion_there near.now.unit.now near.now.slice.now (held near.now.motion.now)
        (B.motion_at near.now.beside.now) (x + 1) (y + 1)
        ≡ None)
        → result ≡ true }
{
    if side <= near.unit.layout.side() && is_unknown_row(near.motion, y, side) {
        return true;
    }
    for x in 0..side {
        if !is_still(near, x + 1, y + 1) {
            return false;
        }
    }
    true
}

/// Whether no motion is known of the first places of a row.
fn is_unknown_row(motion: &UnitMotion, y: usize, side: usize) -> bool
    requires y { y < 16 }
    requires side { side ≤ 16 }
    ensures { result ≡ true → (x : ℕ) → x < side → held motion.now (x + 1) (y + 1) ≡ None }
{
    for x in 0..side {
        if is_there(motion.motion(x + 1, y + 1)) {
            return false;
        }
    }
    true
}

/// Whether there is motion.
fn is_there(motion: Option<Motion>) -> bool
    ensures { result ≡ false → motion ≡ None }
{
    match motion {
        Some(_) => true,
        None => false,
    }
}

/// Whether a place that is counted from 1 at a unit's first place has no motion.
#[inline(never)]
fn is_still<B: Beside>(near: &UnitNear<'_, B>, column: usize, row: usize) -> bool
    requires column { column ≤ 16 }
    requires row { row ≤ 16 }
    ensures still { result ≡ true
        → motion_there near.now.unit.now near.now.slice.now (held near.now.motion.now)
        (B.motion_at near.now.beside.now) column row
        ≡ None }
    ensures only { motion_there near.now.unit.now near.now.slice.now (held near.now.motion.now)
        (B.motion_at near.now.beside.now) column row
        ≡ None
        → result ≡ true }
{
    match motion_near(near.unit, near.beside, near.slice, near.motion, column, row) {
        Some(_) => false,
        None => true,
    }
}

/// The motion of a place that is counted from 1 at a unit's first place; `None` outside the picture.
#[tactic(auto, unfolding(spec_picture_filters::specs::Units::motion_near))]
fn motion_near<B: Beside>(
    unit: &CodingTreeUnit,
    beside: &B,
    slice: &SliceMotion,
    motion: &UnitMotion,
    column: usize,
    row: usize,
) -> Option<PlaceMotion>
    requires column { column ≤ 16 }
    requires row { row ≤ 16 }
    ensures { result
        ≡ motion_near unit.now.layout unit.now.address
        (motion_behind unit.now slice.now (held motion.now) (B.motion_at beside.now)) column row }
{
    if !unit.is_there(column, row) {
        None
    } else if is_inside(unit, column, row) {
        pointing_motion(slice, motion.motion(column, row))
    } else {
        beside.motion(unit.first_column() + column - 1, unit.first_row() + row - 1)
    }
}

/// Whether a place that is counted so is one of the unit.
fn is_inside(unit: &CodingTreeUnit, column: usize, row: usize) -> bool
    ensures { result ≡ is_inside unit.now.layout column row }
{
    let side = unit.layout.side();
    (1 <= column && column <= side) && (1 <= row && row <= side)
}
