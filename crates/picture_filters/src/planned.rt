//! The loop filters of a planned picture.

ghost use Rattle.std.specs.Prelude.{◌≡◌, ◌-◌, ◌/◌, ◌^◌, ℕ, ◌<◌, ◌≤◌};
ghost use Rattle.picture_filters.specs.Places.{HasPlaces, places_of};
ghost use Rattle.picture_filters.specs.Units.{HasUnits, units_of};
ghost use Rattle.header_types.specs.SequenceParameterSets.{height_in_ctbs, width_in_ctbs};
ghost use Rattle.loop_filters.specs.Scratch.{HasRoom};
ghost use Rattle.picture_buffer.specs.Planes.{HasSides, plane_height, plane_width, samples_of};
ghost use Rattle.picture_filters.specs.Filtering.{gathered};
ghost use Rattle.spec_picture_filters.specs.SpecLoopFilters.{depth_of};
ghost use Rattle.spec_picture_filters.specs.Filtered.{filter_format, filtered};

use crate::format::filter_format;
use crate::place_field::PlaceField;
use crate::view::PictureView;
use loop_filters::{FilterScratch, filter_picture};
use picture_buffer::Planes;
use place_grid::Grid;
use plan_types::PicturePlan;
use spec_sample_adaptive_offset::OffsetUnit;

/// Takes the samples of a planned picture through its loop filters, by what is known of its places and units.
#[tactic(auto, unfolding(spec_picture_filters::specs::Filtered::filtered))]
pub(crate) fn filter_planned(
    plan: &PicturePlan,
    places: &PlaceField,
    units: &Grid<OffsetUnit>,
    scratch: &mut FilterScratch,
    planes: &mut Planes,
)
    requires places { HasPlaces places.now (plan.now.sps.format.pic_width_in_luma_samples / 4)
        (plan.now.sps.format.pic_height_in_luma_samples / 4) }
    requires units { HasUnits units.now (width_in_ctbs plan.now.sps) (height_in_ctbs plan.now.sps) }
    requires room { HasRoom scratch.old plan.now.sps.format.pic_width_in_luma_samples
        plan.now.sps.format.pic_height_in_luma_samples }
    requires sides { HasSides planes.old plan.now.sps.format.pic_width_in_luma_samples
        plan.now.sps.format.pic_height_in_luma_samples }
    requires bounded { (c x y : ℕ) → c < 3 → samples_of planes.old c x y ≤ 2 ^ depth_of (filter_format plan.now) c - 1 }
    ensures value { (c x y : ℕ) → c < 3 → x < plane_width planes.old c → y < plane_height planes.old c
        → samples_of planes.new c x y
        ≡ filtered plan.now (gathered (places_of places.now) (units_of units.now)) (samples_of planes.old) c x y }
    ensures sides { HasSides planes.new plan.now.sps.format.pic_width_in_luma_samples
        plan.now.sps.format.pic_height_in_luma_samples }
    ensures room { HasRoom scratch.new plan.now.sps.format.pic_width_in_luma_samples
        plan.now.sps.format.pic_height_in_luma_samples }
{
    let format = filter_format(plan);
    let view = PictureView::new(format, places, units);
    filter_picture(&view, &format, scratch, planes);
}
