//! What is asked of the collocated picture.

ghost use Rattle.std.specs.Prelude.{◌≡◌, ◌+◌, ◌≤◌, ℕ};
ghost use Rattle.spec_picture_trees.specs.CtuRecords.{Rectangle};
ghost use Rattle.picture_buffer.specs.SpecMotion.{SliceMotion};
ghost use Rattle.picture_buffer.specs.SpecMotion.{temporal_mv};
ghost use Rattle.spec_picture_motion.specs.Field.{Motions, beneath_unit, blocks_from};
ghost use Rattle.spec_picture_trees.specs.Places.{unit_places};
ghost use Rattle.spec_picture_trees.specs.SpecSliceData.{PictureShape};

/// The temporal candidate of a block in a coding tree unit is that by all of the collocated picture's motion: neither
/// the bottom right of the block nor its centre stands outside what is known beneath the unit (8.5.3.2.8).
#[tactic(auto, using(crate::proofs::Beneath::candidate_is))]
pub fn candidates_stand_beneath()
    ensures { (picture : PictureShape) (address : ℕ) (motions : Motions) (slice : SliceMotion) (block : Rectangle)
        (list ref_idx : ℕ)
        → slice.side ≡ unit_places picture
        → 1 ≤ block.width → block.x + block.width ≤ slice.side
        → 1 ≤ block.height → block.y + block.height ≤ slice.side
        → temporal_mv slice (beneath_unit picture address motions) block list ref_idx
        ≡ temporal_mv slice (blocks_from picture address motions) block list ref_idx }
{}
