//! What follows from the definitions.

ghost use Rattle.std.specs.Prelude.{◌≡◌, ℕ, true, List, All};
ghost use Rattle.spec_picture_motion.specs.PlanTypes.{PicturePlan};
ghost use Rattle.spec_loop_filters.specs.Filters.{Samples};
ghost use Rattle.spec_picture_motion.specs.SpecPictureTrees.{TreeUnit};
ghost use Rattle.spec_picture_motion.specs.Derived.{References, units_derived};
ghost use Rattle.spec_picture_filters.specs.Filtered.{filtered, units_behind, units_filtered};
ghost use Rattle.spec_picture_filters.specs.Disabled.{AreDisabled, HasNoOffset};

/// The motion beside which the filters' data are gathered is that of the picture.
pub fn motion_is_threaded()
    ensures { (pictures : References) (p : PicturePlan) (units : List TreeUnit)
        → (units_behind pictures p units).motions ≡ units_derived pictures p units }
{}

/// A picture of which each slice is without deblocking, and each unit without offsets, keeps its samples.
pub fn pictures_without_filters_keep_their_samples()
    ensures { (pictures : References) (p : PicturePlan) (units : List TreeUnit) (samples : Samples) (c x y : ℕ)
        → AreDisabled p.segments → All HasNoOffset units
        → filtered p (units_filtered pictures p units) samples c x y ≡ samples c x y }
{}
