//! On what the reading of a coding tree unit depends.

ghost use Rattle.std.specs.Prelude.{◌≡◌, ℕ, ◌+◌, ◌<◌, Ok, true, false};
ghost use Rattle.spec_slice_data.specs.BlockGeometry.{ctb_scan};
ghost use Rattle.spec_slice_data.specs.declared.syntax.CtuSyntax.{CtuSyntax};
ghost use Rattle.spec_slice_data.specs.Segment.{Between, PictureShape, SegmentShape, unit_step, units_from};
ghost use Rattle.unit_tree_laws.specs.Agreement.{Agree, IsSameStep, stores};

/// Two readings that agree before a unit on the units on its left and above it, as far as they are in the slice, on
/// what stands behind the former unit, where the unit begins no row of its own and no slice, and on the contexts that
/// are stored, where it begins a row with them, read the same unit and leave the same behind it, or find the same rule
/// broken.
pub fn units_depend_on_those_beside_them()
    ensures { (common : CtuSyntax) (picture : PictureShape) (segment : SegmentShape) (address : ℕ) (a b : Between)
        → Agree picture segment address a b
        → IsSameStep a b (unit_step common picture segment address a) (unit_step common picture segment address b) }
{}

/// Where each row has a substream of its own, the contexts that are stored behind the second unit of a row are those
/// behind it, and units that are second in no row keep them.
pub fn contexts_are_stored_behind_second_units()
    ensures behind { (common : CtuSyntax) (picture : PictureShape) (segment : SegmentShape) (address : ℕ)
        (before after : Between)
        → unit_step common picture segment address before ≡ Ok after → stores picture address ≡ true
        → after.stored ≡ after.contexts }
    ensures kept { (common : CtuSyntax) (picture : PictureShape) (segment : SegmentShape) (n place : ℕ)
        (before after : Between)
        → units_from common picture segment n place before ≡ Ok after
        → ((k : ℕ) → k < n → stores picture (ctb_scan (place + k)) ≡ false) → after.stored ≡ before.stored }
{}
