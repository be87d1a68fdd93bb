//! What follows from the definitions.

ghost use Rattle.std.specs.Prelude.{◌≡◌, ◌≢◌, ◌<◌, ◌≤◌, ◌+◌, ◌*◌, ◌/◌, ◌%◌, ◌^◌, ◌∷◌, ◌++◌, ℕ, ℤ, pos, ◌+ℤ◌, ◌-ℤ◌};
ghost use Rattle.std.specs.Prelude.{◌≤ℤ◌};
ghost use Rattle.std.specs.Prelude.{true, All, List, Some, slice_get};
ghost use Rattle.std.specs.Int.{int_shr};
ghost use Rattle.ctu_records.specs.declared.item.Item.{Item};
ghost use Rattle.header_types.specs.declared.sps.PictureFormat.{PictureFormat};
ghost use Rattle.header_types.specs.declared.sps.SpsFields.{SpsFields};
ghost use Rattle.header_types.specs.SequenceParameterSets.{IsSps, ctb_log2};
ghost use Rattle.picture_layout.specs.PlanTypes.{PicturePlan};
ghost use Rattle.picture_layout.specs.PlanTypes.{SegmentPlan};
ghost use Rattle.picture_layout.specs.PlanTypes.{address_of};
ghost use Rattle.picture_layout.specs.SpecSliceData.{PictureShape, column_of, row_of};
ghost use Rattle.spec_inter_prediction.specs.Chroma.{chroma_sample};
ghost use Rattle.spec_inter_prediction.specs.Taps.{clamped};
ghost use Rattle.picture_layout.specs.SpecPictureTrees.{TreeUnit};
ghost use Rattle.picture_layout.specs.SpecPictureTrees.{is_of_unit as has_place_of, unit_at};
ghost use Rattle.picture_layout.specs.SpecPictureTrees.{picture_shape, slice_start};
ghost use Rattle.spec_picture_motion.specs.Derived.{References, collocated_motions, known_of_unit, units_derived};
ghost use Rattle.spec_picture_motion.specs.Derived.{unit_added as motion_added};
ghost use Rattle.spec_picture_motion.specs.Field.{Motions};
ghost use Rattle.spec_picture_motion.specs.Slices.{collocated_entry};
ghost use Rattle.spec_picture_build.specs.SpecReconstruction.{UnitFormat};
ghost use Rattle.spec_picture_build.specs.SpecReconstruction.{InterUnit, Pictures};
ghost use Rattle.spec_picture_build.specs.SpecReconstruction.{Known};
ghost use Rattle.spec_picture_build.specs.SpecReconstruction.{unit_built};
ghost use Rattle.spec_picture_build.specs.Border.{Samples, known_beside};
ghost use Rattle.spec_picture_build.specs.Built.{is_of_unit, samples_added, unit_inter, unit_laid, units_built};
ghost use Rattle.spec_picture_build.specs.References.{DecodedPicture, motions_of, pictures_of};
ghost use Rattle.locality_laws.specs.Beside.{IsOneOfFour, SamplesAgreeBeside, is_at_border};
ghost use Rattle.locality_laws.specs.Motion.{MotionAgreesBeneath, MotionAgreesBeside};
ghost use Rattle.locality_laws.specs.Needed.{AgreeForItem, IsHalved, first_needed, last_needed};
ghost use Rattle.locality_laws.specs.References.{ReadsSame, with_pictures};

/// The places at the border of a unit, in units of any side, are of the unit on its left and of those above it on the
/// left, right above it and above it on the right.
pub fn places_beside_are_of_four_units()
    ensures { (picture : PictureShape) (side address x y : ℕ) → 1 ≤ side
        → is_at_border side (side * column_of picture address) (side * row_of picture address) x y ≡ true
        → IsOneOfFour picture.width address (unit_at picture side x y) }
{}

/// What is known beside a unit is the same over samples that agree at its border, as far as they are available: of all
/// others outside the unit none is decoded before it, or asked for.
pub fn known_samples_stand_beside()
    ensures { (picture : PictureShape) (slice address : ℕ) (f g : Samples) → 1 ≤ picture.width
        → SamplesAgreeBeside picture slice address f g
        → known_beside picture slice address f ≡ known_beside picture slice address g }
{}

/// A unit that is laid leaves the samples of others.
pub fn laid_units_leave_others()
    ensures { (picture : PictureShape) (address other : ℕ) (known : Known) (f : Samples) (c x y : ℕ) → other ≢ address
        → is_of_unit picture other c x y ≡ true → unit_laid picture address known f c x y ≡ f c x y }
{}

/// The samples of a unit in a picture of which all units are built are its step over any samples that agree with the
/// picture at the unit's border: so what a unit reads is final once it was built. The units behind it have greater
/// addresses.
pub fn units_are_their_steps()
    ensures { (buffer : List DecodedPicture) (p : PicturePlan) (before later : List TreeUnit) (unit : TreeUnit)
        (s : SegmentPlan) (g : Samples) (c x y : ℕ)
        → IsSps p.sps → slice_get p.segments unit.segment ≡ Some s → All (λ (u : TreeUnit). unit.ctu < u.ctu) later
        → SamplesAgreeBeside (picture_shape p.sps p.pps) (address_of (slice_start p s)) unit.ctu
        (units_built buffer p (before ++ unit ∷ later)).samples g
        → is_of_unit (picture_shape p.sps p.pps) unit.ctu c x y ≡ true
        → (units_built buffer p (before ++ unit ∷ later)).samples c x y
        ≡ samples_added (unit_inter buffer p s unit (units_built buffer p before).motions) p s unit g c x y }
{}

/// The samples of a unit are the same over pictures that give its prediction units the same samples.
pub fn units_depend_on_what_they_refer_to()
    ensures { (format : UnitFormat) (inter : InterUnit) (f g : Pictures) (items : List Item) (known : Known)
        → All (ReadsSame format inter f g) items
        → unit_built format (with_pictures inter f) items known
        ≡ unit_built format (with_pictures inter g) items known }
{}

/// A block of chroma samples depends on the lines that the vertical taps meet: from the line before its first one,
/// moved by the vector, to the second one behind its last.
pub fn chroma_samples_depend_on_their_lines()
    ensures { (depth : ℕ) (reference other : ℤ → ℤ → ℕ) (across down : ℤ) (y0 h x y : ℕ)
        → ((column line : ℤ) → (pos y0 +ℤ int_shr down 3 -ℤ pos 1) ≤ℤ line
        → line ≤ℤ (pos (y0 + h) +ℤ int_shr down 3 +ℤ pos 1) → reference column line ≡ other column line)
        → y0 ≤ y → y < y0 + h
        → chroma_sample depth reference across down x y ≡ chroma_sample depth other across down x y }
{}

/// They lie in the rows of coding tree blocks that the luma samples of the block need, from y0 on and h of them, each
/// clamped into its picture, whose height is even.
pub fn chroma_lines_lie_in_the_rows_of_luma()
    ensures { (height ctb_log2 c d : ℕ) (my line : ℤ) → 2 ≤ height → height % 2 ≡ 0 → 1 ≤ ctb_log2
        → (pos c +ℤ int_shr my 3 -ℤ pos 1) ≤ℤ line → line ≤ℤ (pos (c + d) +ℤ int_shr my 3 +ℤ pos 1)
        → (first_needed height ctb_log2 (2 * c) my ≤ 2 * clamped line (height / 2) / 2 ^ ctb_log2)
        × (2 * clamped line (height / 2) / 2 ^ ctb_log2 ≤ last_needed height ctb_log2 (2 * c) (2 * d) my) }
{}

/// The samples of a unit are the same over buffers whose pictures agree in the rows of coding tree blocks that its
/// prediction units need: those that `needed_rows` gives for each vector.
pub fn units_depend_on_the_rows_that_they_need()
    ensures { (format : UnitFormat) (inter : InterUnit) (picture : PictureFormat) (ctb_log2 : ℕ)
        (a b : List DecodedPicture) (items : List Item) (known : Known)
        → 1 ≤ ctb_log2 → All (AgreeForItem ctb_log2 inter a b) items
        → unit_built format (with_pictures inter (pictures_of picture a)) items known
        ≡ unit_built format (with_pictures inter (pictures_of picture b)) items known }
{}

/// Pictures whose sequence parameter set is in range have sides of which chroma has half.
pub fn planned_sides_are_halved()
    ensures { (sps : SpsFields) → IsSps sps → IsHalved sps.format }
{}

/// What is known of the motion of a unit is the same over motion of the picture that agrees at the unit's border, as
/// far as it is available, and motion of collocated pictures that agrees in the unit's own row of coding tree blocks.
pub fn known_motion_stands_beside()
    ensures { (pictures others : References) (p : PicturePlan) (s : SegmentPlan) (unit : TreeUnit) (f g : Motions)
        → MotionAgreesBeside (picture_shape p.sps p.pps) (address_of (slice_start p s)) unit.ctu f g
        → MotionAgreesBeneath (picture_shape p.sps p.pps) unit.ctu
        (collocated_motions pictures (collocated_entry s.header.slice (slice_start p s).lists))
        (collocated_motions others (collocated_entry s.header.slice (slice_start p s).lists))
        → known_of_unit pictures p s unit f ≡ known_of_unit others p s unit g }
{}

/// The motion of a unit in a picture of which all units are derived is its step over any motion that agrees with the
/// picture's at the unit's border, and with the collocated picture's in the unit's row.
pub fn motions_are_their_steps()
    ensures { (pictures others : References) (p : PicturePlan) (before later : List TreeUnit) (unit : TreeUnit)
        (s : SegmentPlan) (g : Motions) (x y : ℕ)
        → slice_get p.segments unit.segment ≡ Some s → All (λ (u : TreeUnit). unit.ctu < u.ctu) later
        → MotionAgreesBeside (picture_shape p.sps p.pps) (address_of (slice_start p s)) unit.ctu
        (units_derived pictures p (before ++ unit ∷ later)) g
        → MotionAgreesBeneath (picture_shape p.sps p.pps) unit.ctu
        (collocated_motions pictures (collocated_entry s.header.slice (slice_start p s).lists))
        (collocated_motions others (collocated_entry s.header.slice (slice_start p s).lists))
        → has_place_of (picture_shape p.sps p.pps) unit.ctu x y ≡ true
        → units_derived pictures p (before ++ unit ∷ later) x y ≡ motion_added others p s unit g x y }
{}

/// The samples of a unit in a picture of which all units are built are its step over any samples and motion that agree
/// with the picture's at the unit's border, and any buffer that agrees with the picture's in the collocated picture's
/// row and in the rows that the unit's prediction units need.
pub fn samples_are_their_steps()
    ensures { (buffer others : List DecodedPicture) (p : PicturePlan) (before later : List TreeUnit) (unit : TreeUnit)
        (s : SegmentPlan) (g : Samples) (m : Motions) (c x y : ℕ)
        → IsSps p.sps → slice_get p.segments unit.segment ≡ Some s → All (λ (u : TreeUnit). unit.ctu < u.ctu) later
        → SamplesAgreeBeside (picture_shape p.sps p.pps) (address_of (slice_start p s)) unit.ctu
        (units_built buffer p (before ++ unit ∷ later)).samples g
        → MotionAgreesBeside (picture_shape p.sps p.pps) (address_of (slice_start p s)) unit.ctu
        (units_built buffer p (before ++ unit ∷ later)).motions m
        → MotionAgreesBeneath (picture_shape p.sps p.pps) unit.ctu
        (collocated_motions (motions_of buffer) (collocated_entry s.header.slice (slice_start p s).lists))
        (collocated_motions (motions_of others) (collocated_entry s.header.slice (slice_start p s).lists))
        → All (AgreeForItem (ctb_log2 p.sps.blocks) (unit_inter others p s unit m) buffer others) unit.read.items
        → is_of_unit (picture_shape p.sps p.pps) unit.ctu c x y ≡ true
        → (units_built buffer p (before ++ unit ∷ later)).samples c x y
        ≡ samples_added (unit_inter others p s unit m) p s unit g c x y }
{}
