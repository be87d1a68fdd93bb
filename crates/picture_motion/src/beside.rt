//! The motion that is known beside a coding tree unit (6.4.1, 6.4.2).

ghost use Rattle.std.specs.Prelude.{◌≡◌, ℕ, ◌+◌, ◌-◌, ◌*◌, ◌<◌, ◌≤◌, ◌==◌, ◌&&◌, ◌||◌, nat_le, nat_lt, None};
ghost use Rattle.std.specs.Prelude.{if◌then◌else◌};
ghost use Rattle.ctu_motion.specs.Held.{held, held_beneath};
ghost use Rattle.picture_motion.specs.Units.{at_border};
ghost use Rattle.spec_picture_motion.specs.SpecPictureTrees.{unit_places};
ghost use Rattle.spec_picture_motion.specs.Field.{known_beside, motion_beside, motion_of, vector_of};

use crate::view::MotionBeside;
use ctu_motion::UnitMotion;
use picture_buffer::{PlaceMotion, PlaceVector};
use picture_layout::CodingTreeUnit;
use spec_motion::{Motion, Vector};

/// What is known beside a unit becomes known, and nothing else is.
pub fn gather_beside<B: MotionBeside>(unit: &CodingTreeUnit, beside: &B, motion: &mut UnitMotion)
    ensures places { held motion.new
        ≡ known_beside unit.now.layout unit.now.slice unit.now.address (B.motion_at beside.now) }
    ensures beneath { (column row : ℕ) → held_beneath motion.new column row ≡ None }
{
    motion.restart();
    gather_above(unit, beside, motion);
    gather_left(unit, beside, motion);
}

/// The row above, as far as the end of the unit behind it.
fn gather_above<B: MotionBeside>(unit: &CodingTreeUnit, beside: &B, motion: &mut UnitMotion)
    ensures places { (i j : ℕ) → held motion.new i j
        ≡ (if (j == 0) && (nat_le i (2 * unit_places unit.now.layout))
        then at_border unit.now (B.motion_at beside.now) i 0
        else held motion.old i j) }
    ensures beneath { held_beneath motion.new ≡ held_beneath motion.old }
{
    for column in 0..2 * unit.layout.side() + 1 {
        motion.put(column, 0, motion_beside(unit, beside, column, 0));
    }
}

/// The column on the left.
fn gather_left<B: MotionBeside>(unit: &CodingTreeUnit, beside: &B, motion: &mut UnitMotion)
    ensures places { (i j : ℕ) → held motion.new i j
        ≡ (if (i == 0) && ((nat_le 1 j) && (nat_le j (unit_places unit.now.layout)))
        then at_border unit.now (B.motion_at beside.now) 0 j
        else held motion.old i j) }
    ensures beneath { held_beneath motion.new ≡ held_beneath motion.old }
{
    for row in 1..unit.layout.side() + 1 {
        motion.put(0, row, motion_beside(unit, beside, 0, row));
    }
}

/// The motion of a place beside a unit, counted from 1 at its first place, if the place is available.
#[tactic(auto, unfolding(spec_picture_motion::specs::Field::motion_beside))]
fn motion_beside<B: MotionBeside>(
    unit: &CodingTreeUnit,
    beside: &B,
    column: usize,
    row: usize,
) -> Option<Motion>
    requires column { column ≤ 32 }
    requires row { row ≤ 16 }
    ensures { result ≡ at_border unit.now (B.motion_at beside.now) column row }
{
    let x = unit.first_column() + column;
    let y = unit.first_row() + row;
    if 1 <= x && 1 <= y && unit.is_available(x - 1, y - 1) {
        motion_of(beside.motion(x - 1, y - 1))
    } else {
        None
    }
}

/// A place's motion without the pictures that it points to.
fn motion_of(place: Option<PlaceMotion>) -> Option<Motion>
    ensures { result ≡ motion_of place }
{
    match place {
        Some(place) => Some(Motion {
            list_0: vector_of(place.list_0),
            list_1: vector_of(place.list_1),
        }),
        None => None,
    }
}

/// A vector without its picture.
fn vector_of(vector: Option<PlaceVector>) -> Option<Vector>
    ensures { result ≡ vector_of vector }
{
    match vector {
        Some(vector) => Some(vector.vector),
        None => None,
    }
}
