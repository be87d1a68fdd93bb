//! What the loop filters of a picture need while its coding tree units are read.

ghost use Rattle.std.specs.Prelude.{◌≡◌, ◌-◌, ◌^◌, ℕ, ◌<◌, ◌≤◌, IfOk};
ghost use Rattle.ctu_records.specs.Tree.{Ctu};
ghost use Rattle.picture_filters.specs.Places.{HasPlaces};
ghost use Rattle.picture_filters.specs.Units.{HasUnits};
ghost use Rattle.header_types.specs.SequenceParameterSets.{height_in_ctbs};
ghost use Rattle.loop_filters.specs.Scratch.{HasRoom};
ghost use Rattle.picture_buffer.specs.Planes.{HasSides, plane_height, plane_width, samples_of};
ghost use Rattle.picture_filters.specs.Filtering.{IsUnit, data_of};
ghost use Rattle.picture_filters.specs.Given.{IsGiven};
ghost use Rattle.spec_picture_filters.specs.SpecLoopFilters.{depth_of};
ghost use Rattle.spec_picture_filters.specs.Data.{no_data};
ghost use Rattle.spec_picture_filters.specs.Filtered.{filter_format, filtered};
ghost use Rattle.spec_picture_filters.specs.Units.{read_added};
ghost use Rattle.spec_picture_filters.specs.SpecPictureMotion.{Motions};

use crate::given::UnitFilters;
use crate::layers::lay_places;
use crate::offsets::lay_offsets;
use crate::place_field::PlaceField;
use crate::planned::filter_planned;
use crate::unit_rows::unit_rows;
use loop_filters::FilterScratch;
use picture_buffer::Planes;
use picture_layout::{CodingTreeUnit, Layout, slice_address};
use place_grid::Grid;
use plan_types::{PicturePlan, SegmentPlan};
use spec_sample_adaptive_offset::OffsetUnit;
use std::alloc::{AllocError, Global};
use std::marker::Model;

/// What the loop filters of a planned picture need, unit after unit.
#[derive(Drop)]
pub struct PictureFilters<'a> {
    plan: &'a PicturePlan,
    layout: Layout,
    places: PlaceField,
    units: Grid<OffsetUnit>,
    /// Memory in which samples are filtered.
    scratch: FilterScratch,
}

impl<'a> Model for PictureFilters<'a> {
    ghost use Rattle.std.specs.Prelude.{◌≡◌};
    ghost use Rattle.picture_filters.specs.Places.{HasPlaces};
    ghost use Rattle.picture_filters.specs.Units.{HasUnits};
    ghost use Rattle.header_types.specs.SequenceParameterSets.{height_in_ctbs};
    ghost use Rattle.loop_filters.specs.Scratch.{HasRoom};
    ghost use Rattle.picture_filters.specs.Filtering.{Filtering};
    ghost use Rattle.spec_picture_trees.specs.Shapes.{picture_shape};

    ghost Value = { Filtering };

    ghost view = { λ f. record { plan = f.plan.now; places = f.places; units = f.units } };

    ghost invariant = { λ f. (f.layout ≡ picture_shape f.plan.now.sps f.plan.now.pps)
        × HasPlaces f.places f.layout.across f.layout.down
        × HasUnits f.units f.layout.width (height_in_ctbs f.plan.now.sps)
        × HasRoom f.scratch f.plan.now.sps.format.pic_width_in_luma_samples
        f.plan.now.sps.format.pic_height_in_luma_samples };
}

impl<'a> PictureFilters<'a> {
    /// A picture of which no unit is read, to be filtered in this memory. It takes memory, and no other call does.
    #[tactic(auto, unfolding(spec_picture_trees::specs::Shapes::picture_shape))]
    pub fn new(
        alloc: Global,
        plan: &'a PicturePlan,
        scratch: FilterScratch,
    ) -> Result<PictureFilters<'a>, AllocError>
        ensures plan { IfOk result (λ f. f.plan ≡ plan.now) }
        ensures value { IfOk result (λ f. data_of f ≡ no_data) }
    {
        let layout = Layout::new(plan);
        let places = PlaceField::new(alloc, layout.across(), layout.down())?;
        let units = unit_rows(alloc, plan.sps.width_in_ctbs(), plan.sps.height_in_ctbs())?;
        let scratch = fitted(alloc, plan, scratch)?;
        Ok(PictureFilters {
            plan,
            layout,
            places,
            units,
            scratch,
        })
    }

    /// What the unit of a segment at an address gives over what is known.
    pub fn lay(&mut self, segment: &SegmentPlan, address: u32, given: &UnitFilters)
        ensures plan { self.new.plan ≡ self.old.plan }
        ensures value { (ctu : Ctu) (motions : Motions)
            → IsGiven self.old.plan segment.now address ctu motions (data_of self.old).coded given.now
            → data_of self.new ≡ read_added self.old.plan segment.now address ctu motions (data_of self.old) }
    {
        let unit = self.unit_of(segment, address);
        lay_places(&unit, given.deblocking, &given.places, &mut self.places);
        lay_offsets(&unit, &given.offsets, &mut self.units);
    }

    /// Whether a place is coded, by column and row of the picture; `false` outside the picture.
    pub fn coded(&self, x: usize, y: usize) -> bool
        ensures { result ≡ (data_of self.now).coded x y }
    {
        self.places.at(x, y).coded
    }

    /// A unit of a segment.
    fn unit_of(&self, segment: &SegmentPlan, address: u32) -> CodingTreeUnit
        ensures unit { IsUnit self.now.plan segment.now result }
        ensures address { result.address ≡ address }
        ensures places { HasPlaces self.now.places result.layout.across result.layout.down }
        ensures units { HasUnits self.now.units result.layout.width (height_in_ctbs self.now.plan.sps) }
    {
        CodingTreeUnit {
            layout: self.layout,
            slice: slice_address(self.plan, segment),
            address,
        }
    }

    /// Takes the samples of the picture through its loop filters, deblocking and then sample adaptive offset (8.7).
    pub fn filter(&mut self, planes: &mut Planes)
        requires sides { HasSides planes.old self.old.plan.sps.format.pic_width_in_luma_samples
            self.old.plan.sps.format.pic_height_in_luma_samples }
        requires bounded { (c x y : ℕ) → c < 3
            → samples_of planes.old c x y ≤ 2 ^ depth_of (filter_format self.old.plan) c - 1 }
        ensures same { self.new ≡ self.old }
        ensures value { (c x y : ℕ) → c < 3 → x < plane_width planes.old c → y < plane_height planes.old c
            → samples_of planes.new c x y ≡ filtered self.old.plan (data_of self.old) (samples_of planes.old) c x y }
        ensures sides { HasSides planes.new self.old.plan.sps.format.pic_width_in_luma_samples
            self.old.plan.sps.format.pic_height_in_luma_samples }
    {
        filter_planned(
            self.plan,
            &self.places,
            &self.units,
            &mut self.scratch,
            planes,
        );
    }

    /// The memory in which the picture was filtered, for the next one.
    pub fn into_scratch(self) -> FilterScratch
        ensures { HasRoom result self.entry.plan.sps.format.pic_width_in_luma_samples
            self.entry.plan.sps.format.pic_height_in_luma_samples }
    {
        self.scratch
    }
}

/// Memory in which the samples of a picture are filtered: this one, where it is enough.
fn fitted(
    alloc: Global,
    plan: &PicturePlan,
    scratch: FilterScratch,
) -> Result<FilterScratch, AllocError>
    ensures { IfOk result
        (λ s. HasRoom s plan.now.sps.format.pic_width_in_luma_samples plan.now.sps.format.pic_height_in_luma_samples) }
{
    scratch.fitted(alloc, plan.sps.fields().format.pic_width_in_luma_samples)
}
