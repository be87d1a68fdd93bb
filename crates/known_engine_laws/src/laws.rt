//! What follows from the definitions.

ghost use Rattle.std.specs.Prelude.{◌≡◌, ◌<◌, ℕ, Some};
ghost use Rattle.header_types.specs.SequenceParameterSets.{size_in_ctbs};
ghost use Rattle.plan_types.specs.declared.picture_plan.PicturePlan.{PicturePlan};
ghost use Rattle.spec_picture_trees.specs.Picture.{SegmentAt};
ghost use Rattle.spec_known_units.specs.Known.{KnownUnit, picture_segments, segment_having, units_known};
ghost use Rattle.known_engine_laws.specs.Leaving.{LeavesEngine};

/// Behind a known unit of a segment contexts may be, and the engine is at a place of its bits; where the next unit goes
/// on in the substream, bins may be asked.
pub fn known_engines_go_on()
    ensures { (p : PicturePlan) (address : ℕ) (at : SegmentAt) (known : KnownUnit) → address < size_in_ctbs p.sps
        → segment_having (picture_segments p) address ≡ Some at → units_known p address ≡ Some known
        → LeavesEngine at address known }
{}
