//! Whether the buffer has room (C.5.2.2).

ghost use Rattle.std.specs.Prelude.{◌≡◌};
ghost use Rattle.std.specs.List.{count_by};
ghost use Rattle.ref_picture_sets.specs.SpecReferencePictures.{is_reference};
ghost use Rattle.spec_output_order.specs.OutputOrder.{is_full_of_references};

use crate::kept::is_reference;
use header_types::{Mark, SubLayerOrdering};

/// Whether the buffer has no room for a picture: it doesn't begin anew, and it marks as many pictures as reference as
/// the buffer holds, max_dec_pic_buffering_minus1 + 1 (C.5.2.2).
#[tactic(auto, unfolding(spec_output_order::specs::OutputOrder::is_full_of_references))]
pub fn is_full_of_references(anew: bool, ordering: SubLayerOrdering, marks: &[Mark]) -> bool
    ensures { result ≡ is_full_of_references anew ordering marks.now }
{
    let size = ordering.max_dec_pic_buffering_minus1 as u64 + 1;
    !anew && size <= reference_count(marks) as u64
}

fn reference_count(marks: &[Mark]) -> usize
    ensures { result ≡ count_by is_reference marks.now }
{
    marks.iter().filter(|mark| is_reference(**mark)).count()
}
