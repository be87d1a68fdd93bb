//! The lowest places of a coding tree unit, above the row below it.

ghost use Rattle.std.specs.Prelude.{◌≡◌, ℕ, ◌+◌, ◌-◌, ◌*◌, ◌≤◌};
ghost use Rattle.border_words.specs.Laid.{AreOfPlaces};
ghost use Rattle.row_borders.specs.Borders.{with_above};
ghost use Rattle.row_borders.specs.Next.{HasPlaces};
ghost use Rattle.row_borders.specs.Strips.{with_places};
ghost use Rattle.spec_flights.specs.SpecDecodedPictures.{DecodedUnits};
ghost use Rattle.spec_picture_trees.specs.Places.{unit_places};
ghost use Rattle.spec_picture_trees.specs.Shapes.{picture_shape};

use crate::kept_places::{SegmentMotion, keep_place};
use crate::unit_above::UnitAbove;
use picture_layout::CodingTreeUnit;
use plan_types::PicturePlan;
use row_borders::{Beside, RowBorder};
use sample_words::unpack_modes;

/// Lays the motion and the coded flags of a unit's lowest places above the row below the unit, from a column of the
/// picture on, by the words of the places.
pub(crate) fn lay_places(
    unit: &CodingTreeUnit,
    plan: &PicturePlan,
    first: usize,
    vectors: &[u64; 16],
    above: &UnitAbove,
    border: &mut RowBorder,
)
    requires layout { unit.now.layout ≡ picture_shape plan.now.sps plan.now.pps }
    requires few { above.now.count ≤ 16 }
    requires inside { first + above.now.count ≤ border.old.unit.layout.across }
    ensures places { (units : DecodedUnits) (row : ℕ)
        → AreOfPlaces plan.now unit.now.address units first
        (unit_places (picture_shape plan.now.sps plan.now.pps) * row - 1) above.now.count vectors.now above.now.modes
        → HasPlaces (picture_shape plan.now.sps plan.now.pps) row border.old.above units first
        → HasPlaces (picture_shape plan.now.sps plan.now.pps) row border.new.above units (first + above.now.count) }
    ensures same { border.new
        ≡ with_above border.old (with_places border.old.above border.new.above.motion border.new.above.coded) }
{
    let here = border.unit();
    let _across = here.layout.across();
    let number = unpack_modes(above.modes[0]).segment;
    let mut segment = SegmentMotion::new(unit, plan, number);
    for i in 0..above.count {
        let place = keep_place(unit, plan, &mut segment, vectors[i], above.modes[i]);
        border.lay_place_above(first + i, place.motion, place.coded);
    }
}
