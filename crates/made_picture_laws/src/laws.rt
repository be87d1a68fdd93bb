//! Laws of the definitions.

ghost use Rattle.std.specs.Prelude.{◌≡◌, ℕ, false, List, None, Some, slice_index_or};
ghost use Rattle.header_types.specs.declared.reference_pictures.Mark.{Mark};
ghost use Rattle.plan_types.specs.declared.stated_hash.StatedHash.{StatedHash};
ghost use Rattle.slice_types.specs.declared.slice.SliceType.TheVariants.{B, I, P};
ghost use Rattle.spec_picture_build.specs.References.{DecodedPicture};
ghost use Rattle.spec_made.specs.declared.units.InterUnit.{InterUnit};
ghost use Rattle.spec_made.specs.declared.units.PcmUnit.{PcmUnit};
ghost use Rattle.spec_made.specs.declared.units.Shift.{Shift};
ghost use Rattle.spec_made.specs.Draws.{no_unit};
ghost use Rattle.spec_made.specs.InterRows.{is_skipped};
ghost use Rattle.spec_made.specs.Planes.{Planes, mean_planes, moved_planes, pcm_planes};
ghost use Rattle.made_laws.specs.Plans.{BufferUse, MadeSlice, plan_with};
ghost use Rattle.made_row_laws.specs.Rows.{IsReadAs};
ghost use Rattle.made_row_laws.specs.Units.{ArePcmUnits, IsShift, inter_items, pcm_items};
ghost use Rattle.made_picture_laws.specs.Inter.{backward, both_ways};
ghost use Rattle.made_picture_laws.specs.Pictures.{AreBytes, HasDrawn, IsDecodedAs};

/// A planned IDR picture that is read as these units by pulse code modulation is decoded as the picture that is drawn
/// of them, whatever pictures the buffer has.
pub fn made_idr_pictures_are_decoded()
    ensures { (buffer : List DecodedPicture) (d : BufferUse) (poc nal : ℕ) (s : MadeSlice) (hashes : List StatedHash)
        (units : List PcmUnit)
        → ArePcmUnits units → IsReadAs (plan_with d I poc nal s hashes) (pcm_items units)
        → IsDecodedAs buffer (plan_with d I poc nal s hashes) (pcm_planes units) }
{}

/// A planned P picture that is read as units of one motion, the first of which isn't skipped, is decoded as its
/// reference, moved, where the buffer has the picture that was drawn at that place (`one`); a B picture as the mean of
/// both, rounded up (`two`).
pub fn made_predicted_pictures_are_decoded()
    ensures one { (marks : List Mark) (before behind kept : List ℕ) (poc nal : ℕ) (s : MadeSlice)
        (hashes : List StatedHash) (buffer : List DecodedPicture) (place : ℕ) (last : Planes) (shift : Shift)
        (units : List InterUnit)
        → IsShift shift → is_skipped (slice_index_or units 0 no_unit) 0 ≡ false → AreBytes last
        → HasDrawn last buffer place
        → IsReadAs (plan_with (backward marks before behind kept place) P poc nal s hashes)
        (inter_items (record { first = shift; second = None }) units)
        → IsDecodedAs buffer (plan_with (backward marks before behind kept place) P poc nal s hashes)
        (moved_planes last shift) }
    ensures two { (marks : List Mark) (before behind kept : List ℕ) (poc nal : ℕ) (s : MadeSlice)
        (hashes : List StatedHash) (buffer : List DecodedPicture) (place later : ℕ) (older last : Planes)
        (first second : Shift) (units : List InterUnit)
        → IsShift first → IsShift second → is_skipped (slice_index_or units 0 no_unit) 0 ≡ false → AreBytes older
        → AreBytes last → HasDrawn older buffer place → HasDrawn last buffer later
        → IsReadAs (plan_with (both_ways marks before behind kept place later) B poc nal s hashes)
        (inter_items (record { first = first; second = Some second }) units)
        → IsDecodedAs buffer (plan_with (both_ways marks before behind kept place later) B poc nal s hashes)
        (mean_planes (moved_planes older first) (moved_planes last second)) }
{}
