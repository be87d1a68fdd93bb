//! The motion of the collocated picture beneath a coding tree unit (8.5.3.2.9).

ghost use Rattle.std.specs.Prelude.{◌≡◌, ℕ, ◌+◌, ◌*◌, ◌<◌, ◌≤◌, ◌==◌, ◌&&◌, nat_le, None, if◌then◌else◌};
ghost use Rattle.ctu_motion.specs.Held.{held, held_beneath};
ghost use Rattle.spec_picture_motion.specs.Field.{beneath_unit, collocated_of, collocated_vector};
ghost use Rattle.spec_picture_motion.specs.SpecPictureTrees.{unit_places};

use crate::view::MotionBeneath;
use ctu_motion::UnitMotion;
use picture_buffer::{PlaceMotion, PlaceVector};
use picture_layout::CodingTreeUnit;
use spec_motion::{Collocated, CollocatedVector};

/// What the collocated picture has at the blocks of 4x4 places of a unit, and of the column behind it, becomes known,
/// where nothing of it was.
pub fn gather_beneath<B: MotionBeneath>(unit: &CodingTreeUnit, beneath: &B, motion: &mut UnitMotion)
    ensures places { held motion.new ≡ held motion.old }
    ensures beneath { ((i j : ℕ) → held_beneath motion.old i j ≡ None)
        → held_beneath motion.new ≡ beneath_unit unit.now.layout unit.now.address (B.collocated_at beneath.now) }
{
    for row in 0..(unit.layout.side() + 3) / 4 {
        gather_row(unit, beneath, row, motion);
    }
}

/// A row of them.
fn gather_row<B: MotionBeneath>(
    unit: &CodingTreeUnit,
    beneath: &B,
    row: usize,
    motion: &mut UnitMotion,
)
    requires { 4 * row < unit_places unit.now.layout }
    ensures places { held motion.new ≡ held motion.old }
    ensures beneath { (i j : ℕ) → held_beneath motion.new i j
        ≡ (if j == row && nat_le (4 * i) (unit_places unit.now.layout)
        then beneath_unit unit.now.layout unit.now.address (B.collocated_at beneath.now) i row
        else held_beneath motion.old i j) }
{
    for column in 0..unit.layout.side() / 4 + 1 {
        motion.put_beneath(column, row, collocated_at(unit, beneath, column, row));
    }
}

/// What the collocated picture has at a block.
#[tactic(auto, unfolding(spec_picture_motion::specs::Field::beneath_unit))]
fn collocated_at<B: MotionBeneath>(
    unit: &CodingTreeUnit,
    beneath: &B,
    column: usize,
    row: usize,
) -> Option<Collocated>
    requires few { column ≤ 4 }
    requires column { 4 * column ≤ unit_places unit.now.layout }
    requires row { 4 * row < unit_places unit.now.layout }
    ensures { result ≡ beneath_unit unit.now.layout unit.now.address (B.collocated_at beneath.now) column row }
{
    let x = unit.first_column() + 4 * column;
    let y = unit.first_row() + 4 * row;
    collocated_of(beneath.collocated(x, y))
}

/// A place's motion as a collocated picture's.
fn collocated_of(place: Option<PlaceMotion>) -> Option<Collocated>
    ensures { result ≡ collocated_of place }
{
    match place {
        Some(place) => Some(Collocated {
            list_0: collocated_vector(place.list_0),
            list_1: collocated_vector(place.list_1),
        }),
        None => None,
    }
}

/// A vector of a collocated picture.
fn collocated_vector(vector: Option<PlaceVector>) -> Option<CollocatedVector>
    ensures { result ≡ collocated_vector vector }
{
    match vector {
        Some(vector) => Some(CollocatedVector {
            mv: vector.vector.mv,
            order: vector.reference.order,
            long_term: vector.reference.long_term,
        }),
        None => None,
    }
}
