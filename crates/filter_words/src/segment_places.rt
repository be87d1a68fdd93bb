//! How the places of a slice segment are deblocked.

ghost use Rattle.std.specs.Prelude.{◌≡◌, ◌<◌, ◌≤◌, Some, length, slice_get};
ghost use Rattle.sample_words.specs.Values.{modes_in};
ghost use Rattle.sample_words.specs.declared.modes.PlaceModes.{PlaceModes};
ghost use Rattle.spec_picture_filters.specs.Units.{place_of};
ghost use Rattle.spec_picture_trees.specs.Shapes.{qp_bd_offset};
ghost use Rattle.filter_words.specs.Filters.{filter_place, known_place};

use plan_types::{PicturePlan, SegmentPlan};
use row_filters::{place_of, qp_y};
use sample_words::unpack_modes;
use slice_types::SliceDeblocking;
use spec_boundary_strengths::UnitPlace;
use spec_deblocking::Place;

/// How the places of a slice segment are deblocked.
#[derive(Clone, Copy)]
pub(crate) struct SegmentPlaces {
    /// The fields of its slice.
    pub(crate) deblocking: SliceDeblocking,
    /// QpBdOffsetY.
    pub(crate) qp_bd_offset: u8,
}

/// The segment of a picture with a number.
pub(crate) fn segment_at(plan: &PicturePlan, number: u32) -> &SegmentPlan
    requires { number < length plan.now.segments }
    ensures { slice_get plan.now.segments number ≡ Some result.now }
{
    &plan.segments.as_slice()[number as usize]
}

/// That of the segment of a place, by the word of the place's modes.
pub(crate) fn segment_places(plan: &PicturePlan, word: u64) -> SegmentPlaces
    requires { (modes_in word).segment < length plan.now.segments }
    ensures value { (modes : PlaceModes) → modes.segment ≡ (modes_in word).segment
        → place_of result.deblocking (known_place result.qp_bd_offset modes) ≡ filter_place plan.now modes }
    ensures small { result.qp_bd_offset ≤ 48 }
{
    let segment = segment_at(plan, unpack_modes(word).segment);
    SegmentPlaces {
        deblocking: segment.header.fields().slice.deblocking,
        qp_bd_offset: qp_bd_offset(plan),
    }
}

/// QpBdOffsetY.
fn qp_bd_offset(plan: &PicturePlan) -> u8
    ensures value { result ≡ qp_bd_offset plan.now.sps }
    ensures small { result ≤ 48 }
{
    6 * plan.sps.fields().format.bit_depth_luma_minus8 as u8
}

/// What deblocking asks of a place of such a segment, by the word of its modes.
#[inline(always)]
pub(crate) fn word_place(word: u64, segment: &SegmentPlaces) -> Place
    requires { segment.now.qp_bd_offset ≤ 48 }
    ensures { result ≡ place_of segment.now.deblocking (known_place segment.now.qp_bd_offset (modes_in word)) }
{
    place_of(&segment.deblocking, &unit_place(word, segment.qp_bd_offset))
}

/// A place of a unit, by the word of its modes and QpBdOffsetY.
#[inline(always)]
fn unit_place(word: u64, qp_bd_offset: u8) -> UnitPlace
    requires { qp_bd_offset ≤ 48 }
    ensures { result ≡ known_place qp_bd_offset (modes_in word) }
{
    let modes = unpack_modes(word);
    UnitPlace {
        left_strength: modes.left_strength,
        top_strength: modes.top_strength,
        coded: modes.coded,
        qp_y: qp_y(modes.side.qp, qp_bd_offset),
        kept: modes.kept,
    }
}
