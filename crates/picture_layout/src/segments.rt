//! Where slice segments begin.

ghost use Rattle.std.specs.Prelude.{◌≡◌};
ghost use Rattle.spec_picture_trees.specs.PlanTypes.{address_of};
ghost use Rattle.spec_picture_trees.specs.Shapes.{slice_start};

use spec_picture_trees::{PicturePlan, SegmentPlan};

/// The segment that begins a segment's slice.
pub fn slice_of<'a>(plan: &'a PicturePlan, segment: &'a SegmentPlan) -> &'a SegmentPlan
    ensures { result.now ≡ slice_start plan.now segment.now }
{
    let segments = plan.segments.as_slice();
    if segment.slice < segments.len() {
        &segments[segment.slice]
    } else {
        segment
    }
}

/// The address of the first unit of a segment's slice.
pub fn slice_address(plan: &PicturePlan, segment: &SegmentPlan) -> u32
    ensures { result ≡ address_of (slice_start plan.now segment.now) }
{
    address_of(slice_of(plan, segment))
}

/// slice_segment_address.
pub fn address_of(segment: &SegmentPlan) -> u32
    ensures { result ≡ address_of segment.now }
{
    segment.header.fields().segment.slice_segment_address
}
