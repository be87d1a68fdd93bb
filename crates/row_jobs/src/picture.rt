//! A picture of a flight.

ghost use Rattle.flight_ranges.specs.PictureBuild.{BuildsPicture};
ghost use Rattle.flight_ranges.specs.PictureBuild.{buffer_of};
ghost use Rattle.row_workers.specs.SpecDecodedPictures.{picture_decoded};

use crate::spares::Spares;
use flight_ranges::build_picture;
use picture_buffer::{Bases, Picture};
use picture_trees::ReadError;
use plan_types::PicturePlan;
use std::alloc::Global;

/// Decodes a picture by those of the buffer before it, in spare memory where there is some.
pub(crate) fn decode_picture(
    alloc: Global,
    plan: &PicturePlan,
    buffer: &Bases,
    spares: &mut Spares,
) -> Result<Picture, ReadError>
    ensures { BuildsPicture result (picture_decoded (buffer_of buffer.now) plan.now) }
{
    let spare = spares.take(&plan.sps.fields().format);
    build_picture(alloc, plan, buffer, spare, &mut spares.scratch)
}
