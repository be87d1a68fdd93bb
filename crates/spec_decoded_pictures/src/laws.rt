//! What follows from the definitions.

ghost use Rattle.std.specs.Prelude.{◌≡◌, ℕ, true, List, All};
ghost use Rattle.spec_picture_build.specs.PlanTypes.{PicturePlan};
ghost use Rattle.spec_decoded_pictures.specs.Decoded.{joined, units_decoded, units_folded};
ghost use Rattle.spec_picture_filters.specs.Filtered.{units_filtered};
ghost use Rattle.spec_picture_build.specs.SpecPictureTrees.{TreeUnit};
ghost use Rattle.spec_picture_build.specs.SpecPictureTrees.{picture_shape};
ghost use Rattle.spec_picture_filters.specs.Disabled.{AreDisabled, HasNoOffset};
ghost use Rattle.spec_picture_build.specs.Border.{has_sample};
ghost use Rattle.spec_picture_build.specs.Built.{units_built};
ghost use Rattle.spec_picture_build.specs.References.{DecodedPicture, motions_of};

/// One fold over the units of a picture gives what the folds for its samples with its motion, and for what its loop
/// filters need, give each for itself.
pub fn pictures_are_one_fold()
    ensures { (buffer : List DecodedPicture) (p : PicturePlan) (units : List TreeUnit)
        → units_folded buffer p units
        ≡ joined (units_built buffer p units) (units_filtered (motions_of buffer) p units) }
{}

/// A picture of which each slice is without deblocking, and each unit without offsets, has the samples that were built.
pub fn pictures_without_filters_are_as_built()
    ensures { (buffer : List DecodedPicture) (p : PicturePlan) (units : List TreeUnit) (c x y : ℕ)
        → AreDisabled p.segments → All HasNoOffset units → has_sample (picture_shape p.sps p.pps) c x y ≡ true
        → (units_decoded buffer p units).samples c x y ≡ (units_built buffer p units).samples c x y }
{}
