//! The planes and motion fields that the pictures of a flight are taken into.

ghost use Rattle.std.specs.Prelude.{◌≡◌, ◌≤◌, IfOk, length};
ghost use Rattle.taken_flights.specs.TakenPictures.{held_picture};
ghost use Rattle.taken_flights.specs.Taken.{AreSized, IsSized};
ghost use Rattle.row_jobs.specs.Boards.{ArePictures};

use crate::spares::Spares;
use flight_ranges::picture_parts;
use picture_buffer::{Bases, MotionField, Picture, Planes};
use plan_types::PicturePlan;
use std::alloc::{AllocError, Global};

/// Parts of the sizes of these pictures, in spare memory where there is some of their size.
pub(crate) fn parts_of(
    alloc: Global,
    plans: &[PicturePlan],
    spares: &mut Spares,
) -> Result<Vec<(Planes, MotionField)>, AllocError>
    ensures count { IfOk result (λ parts. length parts.items ≡ length plans.now) }
    ensures sized { IfOk result (λ parts. AreSized plans.now parts.items) }
{
    let mut parts = Vec::new(alloc);
    for place in 0..plans.len() {
        parts.push(part_of(alloc, &plans[place], spares)?)?;
    }
    Ok(parts)
}

/// Those of the size of a picture.
fn part_of(
    alloc: Global,
    plan: &PicturePlan,
    spares: &mut Spares,
) -> Result<(Planes, MotionField), AllocError>
    ensures { IfOk result (λ part. IsSized plan.now part) }
{
    let format = &plan.sps.fields().format;
    let spare = spares.take(format);
    picture_parts(alloc, format, spare)
}

/// The pictures that the first so many parts hold.
pub(crate) fn pictures_of(
    alloc: Global,
    plans: &[PicturePlan],
    count: usize,
    parts: Vec<(Planes, MotionField)>,
) -> Result<Bases, AllocError>
    requires plans { length plans.now ≡ length parts.items }
    requires sized { AreSized plans.now parts.items }
    requires count { count ≤ length plans.now }
    ensures { IfOk result (λ pictures. ArePictures plans.now parts.items count pictures) }
{
    let mut pictures = Bases::new(alloc);
    let mut left = parts;
    for place in 0..count {
        let (planes, motion) = left.remove(0);
        pictures.push(picture_of(&plans[place], planes, motion))?;
    }
    Ok(pictures)
}

/// The picture of a plan, of these samples and this motion.
fn picture_of(plan: &PicturePlan, planes: Planes, motion: MotionField) -> Picture
    requires sized { IsSized plan.now (planes, motion) }
    ensures { result ≡ held_picture plan.now.sps.format planes motion }
{
    Picture::new(plan.sps.fields().format, planes, motion)
}
