//! Laws of the definitions.

ghost use Rattle.std.specs.Prelude.{◌≡◌, ◌≤◌, ℕ, ℤ, List, Some, Ok};
ghost use Rattle.std.specs.List.{All};
ghost use Rattle.ctu_records.specs.declared.item.Item.{Item};
ghost use Rattle.header_types.specs.declared.sps.PictureFormat.{PictureFormat};
ghost use Rattle.header_types.specs.SequenceParameterSets.{IsSps};
ghost use Rattle.unit_laws.specs.PlanTypes.{PicturePlan};
ghost use Rattle.unit_laws.specs.PlanTypes.{SegmentPlan};
ghost use Rattle.spec_decoded_pictures.specs.Decoded.{picture_decoded};
ghost use Rattle.spec_inter_prediction.specs.Taps.{clamped};
ghost use Rattle.unit_laws.specs.SpecPictureTrees.{TreeUnit};
ghost use Rattle.unit_laws.specs.SpecPictureBuild.{BuiltPicture, picture_built, units_built};
ghost use Rattle.unit_laws.specs.SpecPictureBuild.{unit_format};
ghost use Rattle.unit_laws.specs.SpecPictureBuild.{DecodedPicture, format_height, format_width, greatest_sample};
ghost use Rattle.unit_laws.specs.SpecPictureBuild.{reference_sample};
ghost use Rattle.unit_laws.specs.SpecReconstruction.{UnitFormat};
ghost use Rattle.unit_laws.specs.SpecReconstruction.{InterUnit};
ghost use Rattle.unit_laws.specs.SpecReconstruction.{Known};
ghost use Rattle.unit_laws.specs.SpecReconstruction.{IsFormat, ArePulses};
ghost use Rattle.unit_laws.specs.SpecReconstruction.{unit_built};
ghost use Rattle.sample_laws.specs.Ranges.{AreInRange};

/// Where the samples known before a unit are in range, so are those known behind it; and no sample of a picture exceeds
/// the greatest one of its component, before its loop filters. Of what was read that takes samples of pulse code
/// modulation of their bits, which all pictures have whose sequence parameter set is in range (`whole`).
pub fn built_samples_are_in_range()
    ensures unit { (format : UnitFormat) (inter : InterUnit) (items : List Item) (known : Known) → IsFormat format
        → ArePulses format items → AreInRange format known → AreInRange format (unit_built format inter items known) }
    ensures picture { (buffer : List DecodedPicture) (p : PicturePlan) (units : List TreeUnit)
        → ((s : SegmentPlan) → IsFormat (unit_format p.sps p.pps s.header.slice))
        → All
        (λ (unit : TreeUnit). (s : SegmentPlan) → ArePulses (unit_format p.sps p.pps s.header.slice) unit.read.items)
        units
        → (c x y : ℕ) → (units_built buffer p units).samples c x y ≤ greatest_sample p.sps.format c }
    ensures whole { (buffer : List DecodedPicture) (p : PicturePlan) (built : BuiltPicture) → IsSps p.sps
        → picture_built buffer p ≡ Ok built → (c x y : ℕ) → built.samples c x y ≤ greatest_sample p.sps.format c }
{}

/// Loop filters keep samples in range: no sample of a decoded picture exceeds the greatest one of its component, if its
/// sequence parameter set is in range.
pub fn decoded_samples_are_in_range()
    ensures { (buffer : List DecodedPicture) (p : PicturePlan) (decoded : DecodedPicture) → IsSps p.sps
        → picture_decoded buffer p ≡ Ok decoded
        → (c x y : ℕ) → decoded.samples c x y ≤ greatest_sample decoded.format c }
{}

/// Where the samples of a picture are in the range of pictures of a format, as those of a decoded picture are in that
/// of its own, its samples as a reference of such a picture are those at the nearest place inside: that they are held
/// to the bit depth changes nothing.
pub fn references_in_range_are_not_held()
    ensures same { (format : PictureFormat) (d : DecodedPicture)
        → ((c x y : ℕ) → d.samples c x y ≤ greatest_sample format c)
        → (c : ℕ) (x y : ℤ)
        → reference_sample format (Some d) c x y
        ≡ d.samples c (clamped x (format_width d.format c)) (clamped y (format_height d.format c)) }
{}
