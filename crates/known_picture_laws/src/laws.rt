//! What follows from the definitions.

ghost use Rattle.std.specs.Prelude.{◌≡◌, ◌<◌, ℕ, true, List, Some, Result, slice_get};
ghost use Rattle.hv_base.specs.declared.breach.Breach.{Breach};
ghost use Rattle.hv_base.specs.declared.line.Phase.TheVariants.{S};
ghost use Rattle.header_types.specs.SequenceParameterSets.{IsSps, size_in_ctbs};
ghost use Rattle.known_unit_laws.specs.PlanTypes.{PicturePlan};
ghost use Rattle.known_unit_laws.specs.PlanTypes.{SegmentPlan};
ghost use Rattle.known_unit_laws.specs.SpecSliceData.{Between, unit_step};
ghost use Rattle.known_unit_laws.specs.SpecPictureTrees.{SegmentAt};
ghost use Rattle.known_unit_laws.specs.SpecPictureTrees.{picture_shape};
ghost use Rattle.known_unit_laws.specs.SpecKnownUnits.{KnownUnit, between_from, entries_before, known_units};
ghost use Rattle.known_unit_laws.specs.SpecKnownUnits.{picture_segments};
ghost use Rattle.known_unit_laws.specs.SpecKnownUnits.{segment_having, unit_read, units_known};
ghost use Rattle.known_unit_laws.specs.UnitTreeLaws.{Agree};
ghost use Rattle.locality_laws.specs.SpecPictureBuild.{has_sample};
ghost use Rattle.locality_laws.specs.SpecPictureBuild.{DecodedPicture};
ghost use Rattle.spec_flights.specs.SpecDecodedPictures.{DecodedUnits, picture_decoded, unit_decoded};
ghost use Rattle.spec_flights.specs.Phases.{phase_samples};
ghost use Rattle.spec_flights.specs.Pictures.{known_decoded, known_folded};
ghost use Rattle.spec_flights.specs.References.{given_at, segment_of};
ghost use Rattle.known_picture_laws.specs.Decoded.{IsDecodedAsKnown};
ghost use Rattle.known_picture_laws.specs.Order.{IsInOrder};
ghost use Rattle.known_picture_laws.specs.Reading.{IsReadAs};
ghost use Rattle.known_picture_laws.specs.Steps.{AgreeOnUnit, ReadsAsPicture};

/// Sequential decoding gives the picture that its known units make, and then all its units are known; or it stops at
/// the first of its units that is bad, at the rule that this breaks.
pub fn pictures_are_decoded_as_known()
    ensures { (buffer : List DecodedPicture) (p : PicturePlan)
        → IsDecodedAsKnown buffer p (picture_decoded buffer p) }
{}

/// The known units of a picture stand in the order of their addresses.
pub fn known_units_are_in_order()
    ensures { (p : PicturePlan) (address : ℕ) (known : KnownUnit) → address < size_in_ctbs p.sps
        → units_known p address ≡ Some known → IsInOrder (known_units p) (given_at address known) }
{}

/// A known unit is of a slice segment of the picture: the one that has its address.
pub fn known_units_have_segments()
    ensures { (p : PicturePlan) (address : ℕ) (known : KnownUnit) → address < size_in_ctbs p.sps
        → units_known p address ≡ Some known
        → (s : SegmentPlan) × (slice_get p.segments known.segment ≡ Some s) × (segment_of p address ≡ Some s) }
{}

/// Reading a unit over anything that agrees, on what reading depends on, with what the known units leave gives what is
/// known of the unit, or the rule that it breaks.
pub fn units_are_read_by_what_is_left()
    ensures { (p : PicturePlan) (address : ℕ) (at : SegmentAt) (before : Between) (r : Result KnownUnit Breach)
        → segment_having (picture_segments p) address ≡ Some at → unit_read p (units_known p) address ≡ Some r
        → Agree at.picture at.shape address
        (between_from (entries_before (units_known p) address) at.picture address) before
        → IsReadAs at before r (unit_step at.syntax at.picture at.shape address before) }
{}

/// A known unit's samples, motion and what the loop filters need of it are in the picture its step over anything that
/// agrees with the picture, and with the buffer before it, on what the unit is decoded from.
pub fn known_units_are_decoded_by_steps()
    ensures { (buffer others : List DecodedPicture) (p : PicturePlan) (address : ℕ) (known : KnownUnit)
        (s : SegmentPlan) (g : DecodedUnits)
        → IsSps p.sps → address < size_in_ctbs p.sps → units_known p address ≡ Some known
        → slice_get p.segments known.segment ≡ Some s
        → ReadsAsPicture buffer others p s (given_at address known) (known_folded buffer p) g
        → AgreeOnUnit p address (known_folded buffer p) (unit_decoded others p s (given_at address known) g) }
{}

/// The samples of a decoded picture are those of its last phase, behind all loop filters.
pub fn decoded_samples_are_of_the_last_phase()
    ensures { (buffer : List DecodedPicture) (p : PicturePlan) (c x y : ℕ)
        → has_sample (picture_shape p.sps p.pps) c x y ≡ true
        → (known_decoded buffer p).samples c x y ≡ phase_samples p (known_folded buffer p) S c x y }
{}
