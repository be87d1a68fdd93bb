//! The motion that a picture keeps of a place, and whether it is coded, out of the two words of the place.

ghost use Rattle.std.specs.Prelude.{◌≡◌, Bool, Option, slice_get};
ghost use Rattle.border_words.specs.Kept.{AreOfPlace, IsOfSegment, motion_in_segment, pointing_in};
ghost use Rattle.picture_buffer.specs.declared.place_motion.PlaceMotion.{PlaceMotion};
ghost use Rattle.spec_picture_trees.specs.Shapes.{picture_shape};

use picture_buffer::PlaceMotion;
use picture_layout::CodingTreeUnit;
use plan_types::PicturePlan;
use row_above_laws::unpack_place;
use row_borders::{pointing_motion, slice_motion};
use spec_motion::{Motion, SliceMotion};

/// What the motion of a unit's places depends on, in the slice of one segment of its picture.
#[derive(Clone, Copy)]
pub(crate) struct SegmentMotion {
    /// The number of the segment.
    pub number: u32,
    /// `None` where the plan hasn't the segment.
    pub slice: Option<SliceMotion>,
}

/// What a picture keeps of a place.
#[derive(Clone, Copy)]
pub(crate) struct KeptPlace {
    /// Its motion, with the pictures that it refers to; `None` where it is predicted in intra mode.
    pub motion: Option<PlaceMotion>,
    /// Whether its luma transform block has levels that aren't 0.
    pub coded: bool,
}

impl SegmentMotion {
    /// That of the segment with a number, for a unit.
    pub(crate) fn new(unit: &CodingTreeUnit, plan: &PicturePlan, number: u32) -> SegmentMotion
        requires { unit.now.layout ≡ picture_shape plan.now.sps plan.now.pps }
        ensures number { result.number ≡ number }
        ensures slice { IsOfSegment plan.now unit.now.address result }
    {
        let slice = motion_in_segment(unit, plan, number);
        SegmentMotion { number, slice }
    }

    /// That of the segment with another number, for the same unit.
    fn go_to(&mut self, unit: &CodingTreeUnit, plan: &PicturePlan, number: u32)
        requires layout { unit.now.layout ≡ picture_shape plan.now.sps plan.now.pps }
        requires slice { IsOfSegment plan.now unit.now.address self.old }
        ensures number { self.new.number ≡ number }
        ensures slice { IsOfSegment plan.now unit.now.address self.new }
    {
        if self.number != number {
            *self = SegmentMotion::new(unit, plan, number);
        }
    }

    /// Motion with the pictures that it refers to.
    fn pointing(&self, motion: Option<Motion>) -> Option<PlaceMotion>
        ensures { result ≡ pointing_in self.now.slice motion }
    {
        match &self.slice {
            Some(slice) => pointing_motion(slice, motion),
            None => None,
        }
    }
}

/// What the motion of a unit's places depends on in the slice of a segment, where the plan has that.
fn motion_in_segment(unit: &CodingTreeUnit, plan: &PicturePlan, number: u32) -> Option<SliceMotion>
    requires { unit.now.layout ≡ picture_shape plan.now.sps plan.now.pps }
    ensures { result ≡ motion_in_segment plan.now unit.now.address (slice_get plan.now.segments number) }
{
    let segments = plan.segments.as_slice();
    let found = segments.get(number as usize);
    match found {
        Some(segment) => Some(slice_motion(unit, plan, segment)),
        None => None,
    }
}

/// What the picture keeps of a place of a unit, by the two words of the place. The former place's segment is mostly
/// this one's.
pub(crate) fn keep_place(
    unit: &CodingTreeUnit,
    plan: &PicturePlan,
    segment: &mut SegmentMotion,
    vectors: u64,
    modes: u64,
) -> KeptPlace
    requires layout { unit.now.layout ≡ picture_shape plan.now.sps plan.now.pps }
    requires slice { IsOfSegment plan.now unit.now.address segment.old }
    ensures slice { IsOfSegment plan.now unit.now.address segment.new }
    ensures value { (motion : Option PlaceMotion) (coded : Bool)
        → AreOfPlace plan.now unit.now.address motion coded vectors modes
        → result ≡ record { motion = motion; coded = coded } }
{
    let place = unpack_place(vectors, modes);
    segment.go_to(unit, plan, place.modes.segment);
    let motion = segment.pointing(place.motion);
    KeptPlace {
        motion,
        coded: place.modes.coded,
    }
}
