//! A whole picture.

ghost use Rattle.std.specs.Prelude.{◌≡◌};
ghost use Rattle.picture_build.specs.Building.{BuildsPicture};
ghost use Rattle.picture_build.specs.Pictures.{buffer_of};
ghost use Rattle.sample_laws.specs.SpecDecodedPictures.{picture_decoded};

use crate::builder::{Buffer, PictureBuilder};
use picture_buffer::{Bases, Picture};
use picture_trees::{ReadError, read_picture};
use plan_types::PicturePlan;
use sample_laws::{built_samples_are_in_range, units_that_are_read_are_sound};
use std::alloc::Global;
use std::marker::Brand;
use std::mem;
use unit_build::FilterScratch;

/// Reads and builds a picture over the pictures of the decoded picture buffer before it, and filters it: its samples
/// and its motion. The error is the first rule that its data break, or want of memory, which is taken before the first
/// unit is read. A spare picture of its size lends it the memory.
pub fn build_picture(
    alloc: Global,
    plan: &PicturePlan,
    bases: &Bases,
    spare: Option<Picture>,
    scratch: &mut FilterScratch,
) -> Result<Picture, ReadError>
    ensures { BuildsPicture result (picture_decoded (buffer_of bases.now) plan.now) }
{
    build_over::<Brand>(alloc, plan, bases, spare, scratch)
}

/// The same over a buffer that has a name.
fn build_over<B: Buffer>(
    alloc: Global,
    plan: &PicturePlan,
    bases: &Bases,
    spare: Option<Picture>,
    scratch: &mut FilterScratch,
) -> Result<Picture, ReadError>
    requires { bases.now ≡ B.pictures }
    ensures { BuildsPicture result (picture_decoded (buffer_of B.pictures) plan.now) }
{
    units_that_are_read_are_sound();
    built_samples_are_in_range();
    let lent = lend(alloc, scratch);
    let Ok(mut builder) = PictureBuilder::<B>::new(alloc, plan, bases, spare, lent) else {
        return Err(ReadError::Memory);
    };
    match read_picture(alloc, plan, &mut builder) {
        Ok(()) => {
            let (picture, used) = builder.into_picture();
            *scratch = used;
            Ok(picture)
        }
        Err(error) => Err(error),
    }
}

/// The memory itself, with none left in its place.
fn lend(alloc: Global, scratch: &mut FilterScratch) -> FilterScratch {
    mem::replace(scratch, FilterScratch::new(alloc))
}
