//! What the workers of a flight share.

ghost use Rattle.std.specs.Prelude.{◌≡◌, ◌<◌, IfOk, Some, length, slice_get};
ghost use Rattle.plan_types.specs.declared.picture_plan.PicturePlan.{PicturePlan};
ghost use Rattle.loop_filters.specs.Formats.{IsFormat};
ghost use Rattle.flight_names.specs.SpecPictureFilters.{filter_format};
ghost use Rattle.row_waits.specs.FlightFacts.{FlightFacts};
ghost use Rattle.row_waits.specs.FlightFacts.{IsOfFlight};
ghost use Rattle.row_waits.specs.Pictures.{IsPictureOf};
ghost use Rattle.flight_views.specs.Layouts.{IsLaidFor, StandsFor};
ghost use Rattle.flight_views.specs.Views.{IsShared, IsViewOf};

use crate::picture_formats::{PictureFormats, formats_of};
use flight_names::FlightNames;
use flight_plan::FlightPlan;
use picture_buffer::Bases;
use plan_types::PicturePlan;
use row_waits::{PictureView, flight_frame};
use sample_words::Layout;
use spec_loop_filters::FilterFormat;
use std::alloc::{AllocError, Global};

/// What the workers of a flight share: its plans, the pictures before it, and what is read of these before any slice
/// data are: nothing of it changes while the flight is decoded.
#[derive(Drop)]
pub struct FlightViews<'a> {
    /// The plans of the flight.
    pub(crate) plans: &'a [PicturePlan],
    /// The pictures that were decoded before the flight.
    pub(crate) bases: &'a Bases,
    /// How the words of the flight lie.
    pub(crate) layout: Layout,
    /// The rows of the flight, as its plans tell them.
    pub(crate) frame: FlightPlan,
    /// The pictures of the buffer before each picture, by name.
    pub(crate) names: FlightNames,
    /// The formats of each picture.
    pub(crate) formats: Vec<PictureFormats>,
}

impl<'a> FlightViews<'a> {
    /// What is shared of the flight of these pictures behind these bases, which lies so. `Err` is want of memory, and
    /// no other call takes any.
    pub fn new(
        alloc: Global,
        plans: &'a [PicturePlan],
        bases: &'a Bases,
        layout: Layout,
    ) -> Result<FlightViews<'a>, AllocError>
        requires laid { IsLaidFor plans.now bases.now layout }
        ensures view { IfOk result (λ views. (facts : FlightFacts) → StandsFor facts plans.now bases.now
            → IsOfFlight facts layout → IsViewOf facts views) }
    {
        let frame = flight_frame(alloc, plans)?;
        let names = FlightNames::new(alloc, plans, bases.len() as u32)?;
        let formats = formats_of(alloc, plans)?;
        Ok(FlightViews {
            plans,
            bases,
            layout,
            frame,
            names,
            formats,
        })
    }

    /// How the words of the flight lie.
    pub fn layout(&self) -> &Layout
        ensures { result.now ≡ self.now.layout }
    {
        &self.layout
    }

    /// The picture at a place of the flight.
    pub fn picture(&self, place: u32) -> PictureView<'_>
        requires shared { IsShared self.now }
        requires inside { place < length self.now.plans.now }
        ensures picture { (facts : FlightFacts) → IsViewOf facts self.now → IsPictureOf facts result }
        ensures place { result.place ≡ place }
        ensures layout { result.layout.now ≡ self.now.layout }
        ensures bases { result.bases.now ≡ self.now.bases.now }
    {
        PictureView {
            plans: self.plans,
            plan: &self.plans[place as usize],
            place,
            names: self.names.before(place as usize),
            format: &self.formats[place as usize].units,
            layout: &self.layout,
            frame: &self.frame,
            bases: self.bases,
        }
    }

    /// What its loop filters depend on.
    pub fn filters(&self, place: u32) -> &FilterFormat
        requires shared { IsShared self.now }
        requires inside { place < length self.now.plans.now }
        ensures value { (plan : PicturePlan) → slice_get self.now.plans.now place ≡ Some plan
            → result.now ≡ filter_format plan }
        ensures in_range { IsFormat result.now }
    {
        &self.formats[place as usize].filters
    }
}
