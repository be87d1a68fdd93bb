//! The motion of a coding tree unit (8.5.3.2).

ghost use Rattle.std.specs.Prelude.{◌≡◌};
ghost use Rattle.std.specs.List.{All};
ghost use Rattle.picture_motion.specs.CtuMotion.{held};
ghost use Rattle.spec_motion.specs.Units.{IsPlacedItem, unit_derived};
ghost use Rattle.spec_picture_build.specs.SpecPictureMotion.{beneath_unit, known_beside};

use crate::view::Beside;
use ctu_records::Records;
use picture_motion::{CodingTreeUnit, UnitMotion, derive_motion, gather_beneath, gather_beside};
use spec_motion::SliceMotion;

/// Derives the motion of a unit over that beside it and that of the collocated picture.
pub(crate) fn derive_over<B: Beside>(
    unit: &CodingTreeUnit,
    records: &Records,
    beside: &B,
    slice: &SliceMotion,
    motion: &mut UnitMotion,
)
    ensures { All IsPlacedItem records.now.items
        → held motion.new
        ≡ unit_derived slice.now (beneath_unit unit.now.layout unit.now.address (B.collocated_at beside.now))
        records.now.items
        (known_beside unit.now.layout unit.now.slice unit.now.address (B.motion_at beside.now)) }
{
    gather_beside(unit, beside, motion);
    gather_beneath(unit, beside, motion);
    derive_motion(records.items(), slice, motion);
}
