//! The buffer as the current picture marks it (8.3.2).

ghost use Rattle.std.specs.Prelude.{◌≡◌, IfOk, length, slice_index_or};
ghost use Rattle.header_types.specs.declared.reference_pictures.Mark.TheVariants as mark;
ghost use Rattle.spec_output_order.specs.OutputOrder.{all_marked, marked};

use header_types::{DpbPicture, FieldList, Mark};
use std::alloc::{AllocError, Global};

/// The pictures of the buffer with these marks: one without a mark is unused for reference.
pub(crate) fn all_marked(
    alloc: Global,
    dpb: &[DpbPicture],
    marks: &[Mark],
) -> Result<FieldList<DpbPicture>, AllocError>
    ensures value { IfOk result (λ pictures. pictures ≡ all_marked dpb.now marks.now) }
    ensures same { IfOk result (λ pictures. length pictures ≡ length dpb.now) }
{
    let mut pictures = FieldList::new(alloc);
    for i in 0..dpb.len() {
        pictures.push(marked(&dpb[i], mark_at(marks, i)))?;
    }
    Ok(pictures)
}

/// A picture with this mark.
fn marked(picture: &DpbPicture, mark: Mark) -> DpbPicture
    ensures { result ≡ marked picture.now mark }
{
    DpbPicture { mark, ..*picture }
}

/// The mark of the picture at a place.
fn mark_at(marks: &[Mark], place: usize) -> Mark
    ensures { result ≡ slice_index_or marks.now place mark.Unused }
{
    marks.get(place).copied().unwrap_or(Mark::Unused)
}
