//! The formats of a flight's pictures, read of their parameter sets.

ghost use Rattle.std.specs.Prelude.{IfOk};
ghost use Rattle.flight_views.specs.Views.{AreFormats, IsFormatOf};

use plan_types::PicturePlan;
use row_waits::{common_format, filter_format};
use spec_loop_filters::FilterFormat;
use spec_reconstruction::UnitFormat;
use std::alloc::{AllocError, Global};

/// What the coding tree units and the loop filters of a picture depend on.
#[derive(Clone, Copy)]
pub struct PictureFormats {
    /// What all its coding tree units depend on, with the offsets of any slice.
    pub units: UnitFormat,
    /// What its loop filters depend on.
    pub filters: FilterFormat,
}

/// The formats of the pictures of a flight, in their order. `Err` is want of memory.
pub(crate) fn formats_of(
    alloc: Global,
    plans: &[PicturePlan],
) -> Result<Vec<PictureFormats>, AllocError>
    ensures { IfOk result (λ formats. AreFormats plans.now formats.items) }
{
    let mut formats = Vec::new(alloc);
    for place in 0..plans.len() {
        let own = formats_in(alloc, &plans[place])?;
        formats.push(own)?;
    }
    Ok(formats)
}

/// Those of a picture.
fn formats_in(alloc: Global, plan: &PicturePlan) -> Result<PictureFormats, AllocError>
    ensures { IfOk result (λ formats. IsFormatOf plan.now formats) }
{
    let units = common_format(alloc, plan)?;
    Ok(PictureFormats {
        units,
        filters: filter_format(plan),
    })
}
