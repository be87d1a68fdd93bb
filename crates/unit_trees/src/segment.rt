//! A slice segment as its data are read (7.3.8.1).

ghost use Rattle.std.specs.Prelude.{◌≡◌, ◌-◌, ◌^◌, ◌≤◌, ◌<◌, ◌∷◌, [], drop, length, take, slice_index_or};
ghost use Rattle.header_types.specs.SequenceParameterSets.{size_in_ctbs};
ghost use Rattle.spec_picture_trees.specs.SpecSliceHeaders.{slice_qp};
ghost use Rattle.coding_quadtree.specs.SpecCabac.{first_contexts};
ghost use Rattle.spec_picture_trees.specs.SpecSliceHeaders.{bytes_of};
ghost use Rattle.spec_picture_trees.specs.Shapes.{first_qp, qp_bd_offset, segment_shape};

use crate::slice_syntax::init_type;
use coding_quadtree::Contexts;
use header_types::Pps;
use picture_layout::slice_address;
use spec_picture_trees::{Payload, PicturePlan, SegmentPlan, Substream};
use std::marker::Model;

/// A slice segment: where its units stand, what its slice begins with, and its substreams.
#[derive(Drop)]
pub(crate) struct Segment<'a> {
    /// The address of its first unit.
    pub(crate) first: u32,
    /// How many units it has.
    pub(crate) count: u32,
    /// The address of its slice's first unit.
    pub(crate) slice: u32,
    /// Qp'Y of its slice.
    pub(crate) qp: u8,
    /// The contexts that its slice begins with.
    pub(crate) contexts: Contexts,
    /// dependent_slice_segment_flag.
    pub(crate) dependent: bool,
    payload: &'a Payload,
    ranges: &'a [Substream],
}

impl<'a> Model for Segment<'a> {
    ghost use Rattle.std.specs.Prelude.{map, ◌+◌, ◌≤◌};
    ghost use Rattle.spec_slice_data.specs.Segment.{SegmentShape};
    ghost use Rattle.spec_picture_trees.specs.SpecSliceHeaders.{bytes_of};

    ghost Value = { SegmentShape };

    ghost view = { λ s. record {
      first = s.first;
      count = s.count;
      slice = s.slice;
      qp = s.qp;
      contexts = s.contexts;
      dependent = s.dependent;
      substreams = map (bytes_of s.payload.now) s.ranges.now;
    } };

    ghost invariant = { λ s. s.first + s.count ≤ 262144 };
}

impl<'a> Segment<'a> {
    /// A segment of a picture, from the place where its first unit stands to the one behind its last.
    #[tactic(auto, unfolding(spec_picture_trees::specs::Shapes::segment_shape))]
    pub(crate) fn new(
        picture: &PicturePlan,
        segment: &'a SegmentPlan,
        first: u32,
        behind: u32,
    ) -> Segment<'a>
        requires order { first ≤ behind }
        requires few { behind ≤ 262144 }
        ensures { result ≡ segment_shape picture.now segment.now first behind }
    {
        let header = segment.header.fields();
        let slice_qp = slice_qp(&picture.pps, header.slice.slice_qp_delta);
        let offset = 6 * picture.sps.fields().format.bit_depth_luma_minus8;
        Segment {
            first,
            count: behind - first,
            slice: slice_address(picture, segment),
            qp: first_qp(offset, slice_qp),
            contexts: first_contexts(slice_qp, init_type(&header.slice)),
            dependent: header.segment.dependent_slice_segment_flag,
            payload: &segment.payload,
            ranges: segment.substreams.as_slice(),
        }
    }

    /// The bytes of the substream with this number, or none.
    pub(crate) fn substream(&self, number: usize) -> &'a [u8]
        ensures value { result.now ≡ slice_index_or self.now.substreams number [] }
        ensures short { length result.now < 2 ^ 60 }
    {
        if number < self.ranges.len() {
            bytes_of(self.payload.as_slice(), self.ranges[number])
        } else {
            &[]
        }
    }
}

/// SliceQpY (7-40).
fn slice_qp(pps: &Pps, slice_qp_delta: i32) -> i64
    ensures { result ≡ slice_qp pps.now slice_qp_delta }
{
    26 + i64::from(pps.fields().quantization.init_qp_minus26) + i64::from(slice_qp_delta)
}

/// Qp'Y of a slice, by QpBdOffsetY and SliceQpY.
fn first_qp(qp_offset: u32, slice_qp: i64) -> u8
    requires { qp_offset ≤ 48 }
    ensures { result ≡ first_qp qp_offset slice_qp }
{
    let offset = i64::from(qp_offset);
    slice_qp.saturating_add(offset).clamp(0, 51 + offset) as u8
}

/// The contexts that a slice begins with.
fn first_contexts(slice_qp: i64, init_type: u32) -> Contexts
    requires { init_type < 3 }
    ensures { result ≡ first_contexts slice_qp init_type }
{
    Contexts::init(slice_qp.clamp(0, 51) as i32, init_type)
}

/// The bytes of a range of a payload.
fn bytes_of(payload: &[u8], range: Substream) -> &[u8]
    ensures value { result.now ≡ bytes_of payload.now range }
    ensures short { length result.now ≤ length payload.now }
{
    behind(front_of(payload, range.end), range.start)
}

/// The bytes from a place on: none where it is past the end.
fn behind(bytes: &[u8], place: usize) -> &[u8]
    ensures value { result.now ≡ drop place bytes.now }
    ensures short { length result.now ≤ length bytes.now }
{
    if place < bytes.len() {
        &bytes[place..]
    } else {
        &[]
    }
}

/// The first bytes, so many or fewer.
fn front_of(bytes: &[u8], count: usize) -> &[u8]
    ensures value { result.now ≡ take count bytes.now }
    ensures short { length result.now ≤ length bytes.now }
{
    if bytes.len() <= count {
        bytes
    } else {
        &bytes[..count]
    }
}
