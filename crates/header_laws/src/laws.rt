//! Laws of the definitions.

ghost use Rattle.std.specs.Prelude.{◌≡◌, ◌<◌, ℕ, List, [], Ok};
ghost use Rattle.header_types.specs.declared.pps.PpsFields.{PpsFields};
ghost use Rattle.slice_types.specs.declared.slice.SliceHeaderFields.{SliceHeaderFields};
ghost use Rattle.header_types.specs.declared.sps.SpsFields.{SpsFields};
ghost use Rattle.header_types.specs.PictureParameterSet.{IsPps};
ghost use Rattle.header_types.specs.SequenceParameterSets.{IsSps};
ghost use Rattle.slice_types.specs.SliceHeaders.{IsSliceHeader};
ghost use Rattle.spec_slice_headers.specs.SpecParameterSets.{picture_parameter_set_of};
ghost use Rattle.spec_slice_headers.specs.SpecParameterSets.{sequence_parameter_set_of};
ghost use Rattle.spec_slice_headers.specs.Context.{Context};
ghost use Rattle.spec_slice_headers.specs.SegmentHeader.{slice_header_of};
ghost use Rattle.header_laws.specs.Ranges.{AreSets, HaveSlices};

/// A parameter set that is read is in range.
pub fn parameter_sets_are_in_range()
    ensures sequence { (bytes : List ℕ) (s : SpsFields) → sequence_parameter_set_of bytes ≡ Ok s → IsSps s }
    ensures picture { (bytes : List ℕ) (p : PpsFields) → picture_parameter_set_of bytes ≡ Ok p → IsPps p }
{}

/// A slice segment header that is read is in range, where the accepted parameter sets are, and the slices of the
/// segments before it.
pub fn headers_are_in_range()
    ensures { (c : Context) (payload : List ℕ) (h : SliceHeaderFields)
        → AreSets c.sets → HaveSlices c.segments → slice_header_of c payload ≡ Ok h → IsSliceHeader h }
{}

/// slice_pic_order_cnt_lsb of a header that is read as the first one of its picture is below its MaxPicOrderCntLsb.
pub fn first_order_counts_are_in_range()
    ensures { (c : Context) (payload : List ℕ) (h : SliceHeaderFields)
        → c.segments ≡ [] → slice_header_of c payload ≡ Ok h
        → h.slice.references.slice_pic_order_cnt_lsb < h.kind.max_lsb }
{}
