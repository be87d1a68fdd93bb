//! The memory of a picture.

ghost use Rattle.std.specs.Prelude.{◌≡◌, ℕ, ◌*◌, ◌/◌, IfOk, IfSome, None, true};
ghost use Rattle.header_types.specs.SequenceParameterSets.{IsPictureFormat};
ghost use Rattle.picture_buffer.specs.Motion.{HasPlaces, motions_of};
ghost use Rattle.picture_buffer.specs.Planes.{HasSides};

use header_types::PictureFormat;
use picture_buffer::{MotionField, Picture, Planes};
use std::alloc::{AllocError, Global};

/// Planes of a picture of this format, and a field without motion: those of a spare picture of its size, else new ones.
/// What stands in the planes tells nothing.
pub(crate) fn spare_parts(
    alloc: Global,
    format: &PictureFormat,
    spare: Option<Picture>,
) -> Result<(Planes, MotionField), AllocError>
    requires { IsPictureFormat format.now }
    ensures sides { IfOk result
        (λ parts. HasSides parts.0 format.now.pic_width_in_luma_samples format.now.pic_height_in_luma_samples) }
    ensures places { IfOk result (λ parts. HasPlaces parts.1 (format.now.pic_width_in_luma_samples / 4)
        (format.now.pic_height_in_luma_samples / 4)) }
    ensures motions { IfOk result (λ parts. (x y : ℕ) → motions_of parts.1 x y ≡ None) }
{
    match parts_of_size(spare, format) {
        Some((planes, field)) => Ok((planes, emptied(field))),
        None => new_parts(alloc, format),
    }
}

/// Planes and a field of a picture of this format: those of a spare picture of its size, else new ones. What stands in
/// them tells nothing.
pub fn picture_parts(
    alloc: Global,
    format: &PictureFormat,
    spare: Option<Picture>,
) -> Result<(Planes, MotionField), AllocError>
    requires { IsPictureFormat format.now }
    ensures sides { IfOk result
        (λ parts. HasSides parts.0 format.now.pic_width_in_luma_samples format.now.pic_height_in_luma_samples) }
    ensures places { IfOk result (λ parts. HasPlaces parts.1 (format.now.pic_width_in_luma_samples / 4)
        (format.now.pic_height_in_luma_samples / 4)) }
{
    match parts_of_size(spare, format) {
        Some(parts) => Ok(parts),
        None => new_parts(alloc, format),
    }
}

/// The parts of a spare picture, if it has this size.
fn parts_of_size(spare: Option<Picture>, format: &PictureFormat) -> Option<(Planes, MotionField)>
    ensures sides { IfSome result
        (λ parts. HasSides parts.0 format.now.pic_width_in_luma_samples format.now.pic_height_in_luma_samples) }
    ensures places { IfSome result (λ parts. HasPlaces parts.1 (format.now.pic_width_in_luma_samples / 4)
        (format.now.pic_height_in_luma_samples / 4)) }
{
    let picture = spare?;
    let is_wide = picture.format().pic_width_in_luma_samples == format.pic_width_in_luma_samples;
    let is_high = picture.format().pic_height_in_luma_samples == format.pic_height_in_luma_samples;
    let (planes, field) = picture.into_parts();
    if is_wide && is_high && has_places(&field, format) {
        Some((planes, field))
    } else {
        None
    }
}

/// Whether a field has the places of a picture of this format.
fn has_places(field: &MotionField, format: &PictureFormat) -> bool
    ensures { result ≡ true
        → HasPlaces field.now (format.now.pic_width_in_luma_samples / 4) (format.now.pic_height_in_luma_samples / 4) }
{
    field.across() == format.pic_width_in_luma_samples / 4
        && field.down() == format.pic_height_in_luma_samples / 4
}

/// The field, with nothing in it. It takes no memory.
fn emptied(mut field: MotionField) -> MotionField
    ensures places { (across down : ℕ) → HasPlaces field across down → HasPlaces result across down }
    ensures motions { (x y : ℕ) → motions_of result x y ≡ None }
{
    field.restart();
    field
}

/// New ones.
fn new_parts(alloc: Global, format: &PictureFormat) -> Result<(Planes, MotionField), AllocError>
    requires { IsPictureFormat format.now }
    ensures sides { IfOk result
        (λ parts. HasSides parts.0 format.now.pic_width_in_luma_samples format.now.pic_height_in_luma_samples) }
    ensures places { IfOk result (λ parts. HasPlaces parts.1 (format.now.pic_width_in_luma_samples / 4)
        (format.now.pic_height_in_luma_samples / 4)) }
    ensures motions { IfOk result (λ parts. (x y : ℕ) → motions_of parts.1 x y ≡ None) }
{
    let width = format.pic_width_in_luma_samples;
    let height = format.pic_height_in_luma_samples;
    let planes = Planes::new(alloc, width, height)?;
    let field = MotionField::new(alloc, width / 4, height / 4)?;
    Ok((planes, field))
}
