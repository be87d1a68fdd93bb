//! Laws of reference picture sets and lists.

ghost use Rattle.std.specs.Prelude.{◌≡◌, ◌+◌, ◌<◌, ℕ, ℤ, List, All, false, length, Ok};
ghost use Rattle.std.specs.List.{Contains};
ghost use Rattle.header_types.specs.declared.reference_pictures.DpbPicture.{DpbPicture};
ghost use Rattle.header_types.specs.declared.reference_pictures.Mark.TheVariants as mark;
ghost use Rattle.header_types.specs.declared.reference_pictures.Rps.{Rps};
ghost use Rattle.slice_types.specs.declared.slice.PictureKind.{PictureKind};
ghost use Rattle.slice_types.specs.declared.slice.ReferenceFields.{ReferenceFields};
ghost use Rattle.slice_types.specs.declared.slice.SliceFields.{SliceFields};
ghost use Rattle.spec_reference_pictures.specs.PictureOrderCount.{is_irap};
ghost use Rattle.spec_reference_pictures.specs.ReferenceLists.{IsCurrent, TellsOrderCount, reference_lists};
ghost use Rattle.spec_reference_pictures.specs.ReferencePictureSet.{HasDistinctDeltas, IsLongTerm, IsMarked};
ghost use Rattle.spec_reference_pictures.specs.ReferencePictureSet.{IsShortTerm, num_pic_total_curr};
ghost use Rattle.spec_reference_pictures.specs.ReferencePictureSet.{reference_picture_set};

/// A picture of the buffer is marked as a long-term one exactly where it is in one of the two long-term lists, and as a
/// short-term one exactly where it is in one of the three short-term lists. So each picture that stays marked as
/// reference is in a list, and no picture is in a short-term list and in a long-term one.
pub fn every_kept_picture_is_in_a_set()
    ensures marks { (kind : PictureKind) (fields : ReferenceFields) (poc : ℤ) (dpb : List DpbPicture) (rps : Rps)
        → reference_picture_set kind fields poc dpb ≡ Ok rps → length rps.marks ≡ length dpb }
    ensures long { (kind : PictureKind) (fields : ReferenceFields) (poc : ℤ) (dpb : List DpbPicture) (rps : Rps)
        → reference_picture_set kind fields poc dpb ≡ Ok rps → (k : ℕ) → IsMarked rps k mark.Long → IsLongTerm rps k }
    ensures short { (kind : PictureKind) (fields : ReferenceFields) (poc : ℤ) (dpb : List DpbPicture) (rps : Rps)
        → reference_picture_set kind fields poc dpb ≡ Ok rps → (k : ℕ) → IsMarked rps k mark.Short → IsShortTerm rps k }
    ensures long_marked { (kind : PictureKind) (fields : ReferenceFields) (poc : ℤ) (dpb : List DpbPicture) (rps : Rps)
        → reference_picture_set kind fields poc dpb ≡ Ok rps → (k : ℕ) → IsLongTerm rps k → IsMarked rps k mark.Long }
    ensures short_marked { (kind : PictureKind) (fields : ReferenceFields) (poc : ℤ) (dpb : List DpbPicture) (rps : Rps)
        → reference_picture_set kind fields poc dpb ≡ Ok rps → (k : ℕ) → IsShortTerm rps k → IsMarked rps k mark.Short }
{}

/// No picture is in two of the three short-term lists, where no two entries of the short-term set have the same
/// difference. Two long-term entries may name one picture, so the long-term lists may have one in common.
pub fn short_term_lists_are_disjoint()
    ensures before_after { (kind : PictureKind) (fields : ReferenceFields) (poc : ℤ) (dpb : List DpbPicture) (rps : Rps)
        → reference_picture_set kind fields poc dpb ≡ Ok rps → HasDistinctDeltas fields.short_term_ref_pic_set
        → (k : ℕ) → Contains rps.st_curr_before k → Contains rps.st_curr_after k → ⊥ }
    ensures before_foll { (kind : PictureKind) (fields : ReferenceFields) (poc : ℤ) (dpb : List DpbPicture) (rps : Rps)
        → reference_picture_set kind fields poc dpb ≡ Ok rps → HasDistinctDeltas fields.short_term_ref_pic_set
        → (k : ℕ) → Contains rps.st_curr_before k → Contains rps.st_foll k → ⊥ }
    ensures after_foll { (kind : PictureKind) (fields : ReferenceFields) (poc : ℤ) (dpb : List DpbPicture) (rps : Rps)
        → reference_picture_set kind fields poc dpb ≡ Ok rps → HasDistinctDeltas fields.short_term_ref_pic_set
        → (k : ℕ) → Contains rps.st_curr_after k → Contains rps.st_foll k → ⊥ }
{}

/// Each entry of a reference picture list is for a picture that the picture itself may use.
pub fn lists_have_current_pictures()
    ensures l0 { (slice : SliceFields) (rps : Rps) (dpb : List DpbPicture)
        → All (IsCurrent rps) (reference_lists slice rps dpb).l0 }
    ensures l1 { (slice : SliceFields) (rps : Rps) (dpb : List DpbPicture)
        → All (IsCurrent rps) (reference_lists slice rps dpb).l1 }
{}

/// Each entry of a reference picture list tells the order count of the buffer's picture at its place.
pub fn entries_tell_order_counts()
    ensures l0 { (slice : SliceFields) (rps : Rps) (dpb : List DpbPicture)
        → All (TellsOrderCount dpb) (reference_lists slice rps dpb).l0 }
    ensures l1 { (slice : SliceFields) (rps : Rps) (dpb : List DpbPicture)
        → All (TellsOrderCount dpb) (reference_lists slice rps dpb).l1 }
{}

/// A picture that isn't an intra random access point may use NumPicTotalCurr pictures, as its fields count them.
pub fn the_total_is_that_of_the_fields()
    ensures { (kind : PictureKind) (fields : ReferenceFields) (poc : ℤ) (dpb : List DpbPicture) (rps : Rps)
        → is_irap kind.nal_type ≡ false → reference_picture_set kind fields poc dpb ≡ Ok rps
        → length rps.st_curr_before + length rps.st_curr_after + length rps.lt_curr ≡ num_pic_total_curr fields }
{}
