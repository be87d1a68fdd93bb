//! The motion that a picture keeps of a place, out of the two words of the place.

ghost use Rattle.std.specs.Prelude.{◌≡◌, Option, slice_get};
ghost use Rattle.spec_picture_trees.specs.Shapes.{picture_shape};
ghost use Rattle.row_above_laws.specs.FlightValueLaws.{motion_where};
ghost use Rattle.taken_pictures.specs.Kept.{IsOfSegment, kept_by, motion_in_segment, pointing_in};

use picture_buffer::PlaceMotion;
use picture_layout::CodingTreeUnit;
use plan_types::PicturePlan;
use row_above_laws::{pointing_motion, slice_motion};
use sample_words::{unpack_modes, unpack_motion};
use spec_motion::{Motion, SliceMotion};

/// What the motion of a unit's places depends on, in the slice of one segment of its picture.
#[derive(Clone, Copy)]
pub(crate) struct SegmentMotion {
    /// The number of the segment.
    pub(crate) number: u32,
    /// `None` where the plan hasn't the segment.
    pub(crate) slice: Option<SliceMotion>,
}

impl SegmentMotion {
    /// That of the segment with a number, for a unit.
    pub(crate) fn new(unit: &CodingTreeUnit, plan: &PicturePlan, number: u32) -> SegmentMotion
        requires { unit.now.layout ≡ picture_shape plan.now.sps plan.now.pps }
        ensures number { result.number ≡ number }
        ensures slice { IsOfSegment plan.now unit.now.address result }
    {
        SegmentMotion {
            number,
            slice: motion_in_segment(unit, plan, number),
        }
    }

    /// That of the segment with another number, for the same unit.
    fn go_to(&mut self, unit: &CodingTreeUnit, plan: &PicturePlan, number: u32)
        requires layout { unit.now.layout ≡ picture_shape plan.now.sps plan.now.pps }
        requires slice { IsOfSegment plan.now unit.now.address self.old }
        ensures number { self.new.number ≡ number }
        ensures slice { IsOfSegment plan.now unit.now.address self.new }
    {
        if self.number != number {
            *self = SegmentMotion::new(unit, plan, number);
        }
    }

    /// Motion with the pictures that it refers to.
    fn pointing(&self, motion: Option<Motion>) -> Option<PlaceMotion>
        ensures { result ≡ pointing_in self.now.slice motion }
    {
        match &self.slice {
            Some(slice) => pointing_motion(slice, motion),
            None => None,
        }
    }
}

/// What the motion of a unit's places depends on in the slice of a segment, where the plan has that.
fn motion_in_segment(unit: &CodingTreeUnit, plan: &PicturePlan, number: u32) -> Option<SliceMotion>
    requires { unit.now.layout ≡ picture_shape plan.now.sps plan.now.pps }
    ensures { result ≡ motion_in_segment plan.now unit.now.address (slice_get plan.now.segments number) }
{
    match plan.segments.as_slice().get(number as usize) {
        Some(segment) => Some(slice_motion(unit, plan, segment)),
        None => None,
    }
}

/// The motion that the picture keeps of a place of a unit. The former place's segment is mostly this one's.
pub(crate) fn kept_motion(
    unit: &CodingTreeUnit,
    plan: &PicturePlan,
    segment: &mut SegmentMotion,
    vectors: u64,
    modes: u64,
) -> Option<PlaceMotion>
    requires layout { unit.now.layout ≡ picture_shape plan.now.sps plan.now.pps }
    requires slice { IsOfSegment plan.now unit.now.address segment.old }
    ensures slice { IsOfSegment plan.now unit.now.address segment.new }
    ensures value { result ≡ kept_by plan.now unit.now.address vectors modes }
{
    segment.go_to(unit, plan, unpack_modes(modes).segment);
    segment.pointing(motion_where(unpack_motion(vectors, modes)))
}

/// The motion of a place, where it has a vector.
#[inline(always)]
fn motion_where(motion: Motion) -> Option<Motion>
    ensures { result ≡ motion_where motion }
{
    match (motion.list_0, motion.list_1) {
        (None, None) => None,
        (None, Some(_)) | (Some(_), _) => Some(motion),
    }
}
