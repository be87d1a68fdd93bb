//! What is known beside a coding tree unit, apart from motion (8.7.2.1).

ghost use Rattle.std.specs.Prelude.{◌≡◌, ◌-◌, ◌≤◌, ◌&&◌, ◌||◌, nat_le, nat_lt};
ghost use Rattle.picture_filters.specs.Filtering.{IsUnit};
ghost use Rattle.spec_picture_trees.specs.Shapes.{qp_bd_offset};
ghost use Rattle.spec_picture_filters.specs.Units.{is_left_filtered, is_reached, is_top_filtered};
ghost use Rattle.spec_picture_filters.specs.Units.{pcm_disabled};

use crate::given::CodedBeside;
use boundary_strengths::UnitSides;
use picture_layout::CodingTreeUnit;
use plan_types::{PicturePlan, SegmentPlan};

/// What is known beside a unit of a segment, with the places that are coded there.
pub(crate) fn unit_sides(
    plan: &PicturePlan,
    segment: &SegmentPlan,
    unit: &CodingTreeUnit,
    coded: &CodedBeside,
) -> UnitSides
    requires { IsUnit plan.now segment.now unit.now }
    ensures left { result.filter_left ≡ is_left_filtered plan.now segment.now unit.now.address }
    ensures top { result.filter_top ≡ is_top_filtered plan.now segment.now unit.now.address }
    ensures disabled { result.deblocking_disabled
        ≡ segment.now.header.slice.deblocking.slice_deblocking_filter_disabled_flag }
    ensures pcm { result.pcm_loop_filter_disabled ≡ pcm_disabled plan.now.sps.tools.pcm }
    ensures offset { result.qp_bd_offset ≡ qp_bd_offset plan.now.sps }
    ensures small { result.qp_bd_offset ≤ 48 }
    ensures coded_left { result.coded_left ≡ coded.now.left }
    ensures coded_above { result.coded_above ≡ coded.now.above }
{
    let slice = &segment.header.fields().slice;
    UnitSides {
        coded_left: coded.left,
        coded_above: coded.above,
        filter_left: is_left_filtered(plan, segment, unit),
        filter_top: is_top_filtered(plan, segment, unit),
        deblocking_disabled: slice.deblocking.slice_deblocking_filter_disabled_flag,
        pcm_loop_filter_disabled: pcm_disabled(plan),
        qp_bd_offset: qp_bd_offset(plan),
    }
}

/// Whether the left side of a unit is filtered.
#[tactic(auto, unfolding(spec_picture_filters::specs::Units::is_left_filtered))]
fn is_left_filtered(plan: &PicturePlan, segment: &SegmentPlan, unit: &CodingTreeUnit) -> bool
    requires { IsUnit plan.now segment.now unit.now }
    ensures { result ≡ is_left_filtered plan.now segment.now unit.now.address }
{
    if 0 < unit.layout.column(unit.address) {
        is_reached(segment, unit, unit.address.saturating_sub(1))
    } else {
        false
    }
}

/// Whether its top is filtered.
#[tactic(auto, unfolding(spec_picture_filters::specs::Units::is_top_filtered))]
fn is_top_filtered(plan: &PicturePlan, segment: &SegmentPlan, unit: &CodingTreeUnit) -> bool
    requires { IsUnit plan.now segment.now unit.now }
    ensures { result ≡ is_top_filtered plan.now segment.now unit.now.address }
{
    let width = unit.layout.width();
    if width <= unit.address {
        is_reached(segment, unit, unit.address - width)
    } else {
        false
    }
}

/// Whether the edges to a unit that was read before are filtered.
fn is_reached(segment: &SegmentPlan, unit: &CodingTreeUnit, before: u32) -> bool
    ensures { result
        ≡ (nat_le unit.now.slice before || segment.now.header.slice.slice_loop_filter_across_slices_enabled_flag) }
{
    let slice = &segment.header.fields().slice;
    unit.slice <= before || slice.slice_loop_filter_across_slices_enabled_flag
}

/// pcm_loop_filter_disabled_flag; 0 where it isn't coded.
fn pcm_disabled(plan: &PicturePlan) -> bool
    ensures { result ≡ pcm_disabled plan.now.sps.tools.pcm }
{
    match plan.sps.fields().tools.pcm {
        Some(pcm) => pcm.pcm_loop_filter_disabled_flag,
        None => false,
    }
}

/// QpBdOffsetY.
fn qp_bd_offset(plan: &PicturePlan) -> u8
    ensures value { result ≡ qp_bd_offset plan.now.sps }
    ensures small { result ≤ 48 }
{
    6 * plan.sps.fields().format.bit_depth_luma_minus8 as u8
}
