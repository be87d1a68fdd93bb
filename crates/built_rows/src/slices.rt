//! The slice of a coding tree unit.

ghost use Rattle.std.specs.Prelude.{◌≡◌, ◌<◌, Some, length, slice_get};
ghost use Rattle.border_words.specs.PictureFilters.{IsUnit};
ghost use Rattle.spec_picture_trees.specs.Picture.{SegmentAt};
ghost use Rattle.row_waits.specs.Pictures.{IsUnitOf, address_in};

use line_words::UnitPlace;
use picture_layout::{CodingTreeUnit, Layout as PictureLayout, slice_address};
use plan_types::{PicturePlan, SegmentPlan};
use row_waits::{PictureView, RowReader};

/// The number of the slice segment of the unit that was read.
pub(crate) fn segment_number(reader: &RowReader<'_>) -> usize
    ensures { (at : SegmentAt) → reader.now.segments.current ≡ Some at → result ≡ at.number }
{
    match reader.segments().current() {
        Some(segment) => segment.number(),
        None => 0,
    }
}

/// A slice segment of a picture.
pub(crate) fn segment_at(plan: &PicturePlan, number: usize) -> &SegmentPlan
    requires { number < length plan.now.segments }
    ensures { slice_get plan.now.segments number ≡ Some result.now }
{
    &plan.segments.as_slice()[number]
}

/// A unit of a slice segment.
pub(crate) fn unit_of(
    picture: &PictureView<'_>,
    at: &UnitPlace,
    segment: &SegmentPlan,
) -> CodingTreeUnit
    requires { IsUnitOf picture.now at.now }
    ensures unit { IsUnit picture.now.plan.now segment.now result }
    ensures address { result.address ≡ address_in picture.now.plan.now at.now }
{
    CodingTreeUnit {
        layout: PictureLayout::new(picture.plan),
        slice: slice_address(picture.plan, segment),
        address: picture.address(at),
    }
}
