//! The words of the unit above another one that its reading asks for.

ghost use Rattle.std.specs.Prelude.{◌≡◌, ℕ, ◌+◌, ◌*◌, ◌<◌, Some, slice_get};
ghost use Rattle.border_words.specs.Units.{IsAboveOf};
ghost use Rattle.row_above_laws.specs.FlightValueLaws.{IsInRange};
ghost use Rattle.header_types.specs.SequenceParameterSets.{height_in_ctbs, width_in_ctbs};
ghost use Rattle.plan_types.specs.declared.picture_plan.PicturePlan.{PicturePlan};
ghost use Rattle.spec_flights.specs.Pictures.{PlannedFlight};
ghost use Rattle.spec_known_units.specs.Known.{ctu_of, units_known};
ghost use Rattle.spec_picture_trees.specs.Places.{unit_places};
ghost use Rattle.spec_picture_trees.specs.Shapes.{picture_shape};
ghost use Rattle.row_above_laws.specs.UnitTrees.{bottom_of};

use row_above_laws::{
    Edge, expected_words_are_of_their_places, unpack_bottom, words_above_are_of_their_units,
};

/// Words of a unit that has another one below it: of the modes of its lowest places of 4x4 luma samples, from the left
/// one on, and of its sample adaptive offset.
#[derive(Clone, Copy)]
pub struct UnitAbove {
    /// How many places there are, at most 16.
    pub count: usize,
    /// A word for each of them.
    pub modes: [u64; 16],
    /// Both words of its sample adaptive offset.
    pub offsets: [u64; 2],
}

impl UnitAbove {
    /// The words of no place.
    pub fn none() -> UnitAbove
        ensures { result.count ≡ 0 }
    {
        UnitAbove {
            count: 0,
            modes: [0; 16],
            offsets: [0; 2],
        }
    }

    /// What the unit leaves to the one below it.
    pub fn bottom(&self) -> Edge
        ensures { (f : PlannedFlight) (k row x : ℕ) (p : PicturePlan) → IsInRange f
            → slice_get f.pictures k ≡ Some p → row + 1 < height_in_ctbs p.sps → x < width_in_ctbs p.sps
            → IsAboveOf f k p row x self.now
            → result
            ≡ bottom_of (unit_places (picture_shape p.sps p.pps))
            (ctu_of (picture_shape p.sps p.pps) (units_known p (row * width_in_ctbs p.sps + x))) }
    {
        expected_words_are_of_their_places();
        words_above_are_of_their_units();
        unpack_bottom(&self.modes[..self.count.min(16)], self.offsets)
    }
}
