//! What a worker knows of a picture of a flight.

ghost use Rattle.std.specs.Prelude.{◌≡◌};
ghost use Rattle.hv_base.specs.declared.line.Phase.TheVariants.{B};
ghost use Rattle.row_waits.specs.Pictures.{address_in};

use flight_plan::{FlightPlan, Reference};
use line_words::UnitPlace;
use picture_buffer::Bases;
use plan_types::PicturePlan;
use sample_words::Layout;
use spec_reconstruction::UnitFormat;

/// What a worker knows of a picture of a flight, and of the flight.
#[derive(Clone, Copy)]
pub struct PictureView<'a> {
    /// The plans of the flight.
    pub plans: &'a [PicturePlan],
    /// That of the picture.
    pub plan: &'a PicturePlan,
    /// The place of the picture in the flight.
    pub place: u32,
    /// The pictures of the decoded picture buffer before it, by name.
    pub names: &'a [Reference],
    /// What all its coding tree units depend on, with the offsets of any slice.
    pub format: &'a UnitFormat,
    /// How the words of the flight lie.
    pub layout: &'a Layout,
    /// The rows of the flight, as its plans tell them.
    pub frame: &'a FlightPlan,
    /// The pictures that were decoded before the flight.
    pub bases: &'a Bases,
}

impl<'a> PictureView<'a> {
    /// The address of a coding tree unit of the picture.
    #[inline(always)]
    pub fn address(&self, at: &UnitPlace) -> u32
        requires place { at.now.sizes ≡ self.now.layout.now }
        requires phase { at.now.line.phase ≡ B }
        ensures value { result ≡ address_in self.now.plan.now at.now }
    {
        let _rows = self.layout.rows();
        let _columns = self.layout.columns();
        at.line().row * self.plan.sps.width_in_ctbs() + at.unit()
    }
}
