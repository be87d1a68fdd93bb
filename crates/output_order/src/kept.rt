//! The pictures that stay in the buffer: those that are needed for output or marked as reference (C.5.2.2).

ghost use Rattle.std.specs.Prelude.{◌≡◌, ◌^◌, ◌<◌, IfOk, length};
ghost use Rattle.std.specs.List.{filter};
ghost use Rattle.ref_picture_sets.specs.SpecReferencePictures.{is_reference};
ghost use Rattle.spec_output_order.specs.OutputOrder.{kept_from, is_kept};

use header_types::{DpbPicture, FieldList, Mark};
use std::alloc::{AllocError, Global};

/// Whether a picture stays in the buffer.
pub(crate) fn is_kept(picture: &DpbPicture) -> bool
    ensures { result ≡ is_kept picture.now }
{
    picture.needed_for_output || is_reference(picture.mark)
}

/// Whether a picture with this mark is one for reference.
pub(crate) fn is_reference(mark: Mark) -> bool
    ensures { result ≡ is_reference mark }
{
    !matches!(mark, Mark::Unused)
}

/// The pictures that stay in the buffer.
pub(crate) fn kept_pictures(
    alloc: Global,
    pictures: &[DpbPicture],
) -> Result<FieldList<DpbPicture>, AllocError>
    ensures { IfOk result (λ dpb. dpb ≡ filter is_kept pictures.now) }
{
    let mut dpb = FieldList::new(alloc);
    for picture in pictures {
        if is_kept(picture) {
            dpb.push(*picture)?;
        }
    }
    Ok(dpb)
}

/// The places of the pictures that stay in the buffer.
pub(crate) fn kept_places(
    alloc: Global,
    pictures: &[DpbPicture],
) -> Result<FieldList<u32>, AllocError>
    requires few { length pictures.now < 2 ^ 32 }
    ensures { IfOk result (λ kept. kept ≡ kept_from 0 pictures.now) }
{
    let mut kept = FieldList::new(alloc);
    for i in 0..pictures.len() {
        if is_kept(&pictures[i]) {
            kept.push(i as u32)?;
        }
    }
    Ok(kept)
}
