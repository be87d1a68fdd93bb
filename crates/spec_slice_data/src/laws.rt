//! Laws of the definitions.

ghost use Rattle.std.specs.Prelude.{◌≡◌, ℕ, Bool};
ghost use Rattle.ctu_records.specs.Tree.{Ctu};
ghost use Rattle.ctu_records.specs.declared.offset.Sao.{Sao};
ghost use Rattle.spec_residuals.specs.SpecCabac.{bin_at};
ghost use Rattle.spec_residuals.specs.SpecFormats.{IsSpelledAs, IsReadAgain};
ghost use Rattle.spec_slice_data.specs.declared.syntax.CtuSyntax.{CtuSyntax};
ghost use Rattle.spec_slice_data.specs.Quantization.{chroma_qp_of_index};
ghost use Rattle.spec_slice_data.specs.Tree.{unit_and_end};
ghost use Rattle.spec_slice_data.specs.Segment.{PictureShape, SegmentShape, IsSegmentSpelled};

/// A coding tree unit that is read, with what follows it, is spelled by the bins that the data have, and what bins of
/// the data spell or were written as is read.
pub fn coding_tree_unit_is_spelled()
    ensures read_as_spelled { (syntax : CtuSyntax) (left above : Sao) (is_last ends_subset : Bool) (ctu : Ctu)
        → IsSpelledAs bin_at (unit_and_end syntax left above is_last ends_subset ctu) }
    ensures read_again { (syntax : CtuSyntax) (left above : Sao) (is_last ends_subset : Bool) (ctu : Ctu)
        → IsReadAgain bin_at (unit_and_end syntax left above is_last ends_subset ctu) }
{}

/// The units of a slice segment that are read are spelled, unit after unit, by bins that the segment's data have, and
/// what such bins spell is read.
pub fn slice_segment_data_are_spelled()
    ensures { (common : CtuSyntax) (picture : PictureShape) (segment : SegmentShape) (n place : ℕ)
        → IsSegmentSpelled common picture segment n place }
{}

/// QpC of qPi 35, 43 and 44 is 33, 37 and 38.
#[tactic(auto, unfolding(crate::specs::Quantization::chroma_qp_of_index))]
pub fn chroma_parameters_are_tabled()
    ensures low { chroma_qp_of_index 35 ≡ 33 }
    ensures last { chroma_qp_of_index 43 ≡ 37 }
    ensures past { chroma_qp_of_index 44 ≡ 38 }
{}
