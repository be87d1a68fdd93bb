//! What follows from the definitions.

ghost use Rattle.std.specs.Prelude.{◌≡◌, ◌+◌, ◌*◌, ◌<◌, ℕ, Some, slice_get};
ghost use Rattle.header_types.specs.SequenceParameterSets.{height_in_ctbs, width_in_ctbs};
ghost use Rattle.plan_types.specs.declared.picture_plan.PicturePlan.{PicturePlan};
ghost use Rattle.spec_picture_trees.specs.Picture.{SegmentAt};
ghost use Rattle.spec_known_units.specs.Known.{picture_segments, segment_having};
ghost use Rattle.flight_value_laws.specs.SpecFlights.{PlannedFlight};
ghost use Rattle.flight_value_laws.specs.Reading.{AreUsesSound};
ghost use Rattle.row_trees.specs.Reading.{IsReadByKnown};

/// In a flight a unit of a segment is read by known ones where the units that its reading uses are sound.
pub fn sound_units_are_read_by()
    ensures { (f : PlannedFlight) (k row x : ℕ) (p : PicturePlan) (at : SegmentAt)
        → slice_get f.pictures k ≡ Some p → row < height_in_ctbs p.sps → x < width_in_ctbs p.sps
        → segment_having (picture_segments p) (row * width_in_ctbs p.sps + x) ≡ Some at → AreUsesSound f k row x
        → IsReadByKnown p (row * width_in_ctbs p.sps + x) }
{}
