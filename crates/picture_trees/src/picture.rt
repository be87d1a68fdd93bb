//! All coding tree units of a picture.

ghost use Rattle.std.specs.Prelude.{◌≡◌, ◌+◌, ◌*◌, ◌<◌, ◌≤◌, List, drop, length};
ghost use Rattle.plan_types.specs.declared.segment_plan.SegmentPlan.{SegmentPlan};
ghost use Rattle.header_types.specs.SequenceParameterSets.{size_in_ctbs, width_in_ctbs};
ghost use Rattle.spec_picture_trees.specs.Picture.{TreeUnit, picture_read};
ghost use Rattle.spec_picture_trees.specs.Shapes.{end_of};
ghost use Rattle.picture_trees.specs.Given.{ReadsPicture};
ghost use Rattle.picture_trees.specs.Reading.{next_segment};

use crate::trees::{ReadError, Trees};
use crate::units::Reading;
use header_types::Sps;
use plan_types::{PicturePlan, SegmentPlan};
use std::alloc::Global;
use unit_trees::{Layout, SegmentData, address_of};

/// Reads all coding tree units of a planned picture, in decoding order, and hands each over once it is read. The
/// error is the first rule that the data break, or want of memory: that of whom the units are handed to, or of the call
/// itself before the first unit.
pub fn read_picture<T: Trees>(
    alloc: Global,
    plan: &PicturePlan,
    trees: &mut T,
) -> Result<(), ReadError>
    ensures value { (given : List TreeUnit) → T.tells trees.old plan.now given
        → ReadsPicture result (T.tells trees.new plan.now) (picture_read plan.now given) }
{
    let Ok(mut reading) = Reading::new(alloc, &Layout::new(plan)) else {
        return Err(ReadError::Memory);
    };
    let mut first = 0;
    for number in 0..plan.segments.len() {
        let segment = segment_data(plan, number, first);
        if let Err(error) = reading.read_segment(&segment, trees) {
            return Err(error);
        }
        first = segment.behind();
    }
    Ok(())
}

/// The data of a picture's segment with this number, whose first unit stands at `first`.
fn segment_data(plan: &PicturePlan, number: usize, first: u32) -> SegmentData<'_>
    requires number { number < length plan.now.segments }
    requires first { first ≤ size_in_ctbs plan.now.sps }
    ensures value { (s : SegmentPlan) → result ≡ next_segment plan.now number first s }
    ensures first { result.shape.first ≡ first }
    ensures behind { result.shape.first + result.shape.count
        ≡ end_of (size_in_ctbs plan.now.sps) first (drop (number + 1) plan.now.segments) }
    ensures inside { result.shape.first + result.shape.count ≤ size_in_ctbs plan.now.sps }
{
    let segments = plan.segments.as_slice();
    let behind = end_of(unit_count(&plan.sps), first, &segments[number + 1..]);
    SegmentData::new(plan, number, &segments[number], first, behind)
}

/// PicSizeInCtbsY.
fn unit_count(sps: &Sps) -> u32
    ensures value { result ≡ size_in_ctbs sps.now }
    ensures few { result ≤ 262144 }
    ensures inside { result ≤ 512 * width_in_ctbs sps.now }
{
    sps.width_in_ctbs() * sps.height_in_ctbs()
}

/// The place behind the last unit of a segment that begins at `first`, in a picture of `size` units.
fn end_of(size: u32, first: u32, later: &[SegmentPlan]) -> u32
    requires { first ≤ size }
    ensures value { result ≡ end_of size first later.now }
    ensures order { first ≤ result }
    ensures inside { result ≤ size }
{
    match later {
        [] => first.max(size),
        [next, ..] => first.max(address_of(next).min(size)),
    }
}
