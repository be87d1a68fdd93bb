//! How a flight lies in words, if it may.

ghost use Rattle.std.specs.Prelude.{◌≡◌, ◌≤◌, ℕ, Decides, IfSome, None, Some, length, slice_get};
ghost use Rattle.header_types.specs.SequenceParameterSets.{IsSps};
ghost use Rattle.plan_types.specs.declared.picture_plan.PicturePlan.{PicturePlan};
ghost use Rattle.row_waits.specs.LocalityLaws.{IsHalved};
ghost use Rattle.row_waits.specs.PictureBuild.{buffer_of};
ghost use Rattle.flight_names.specs.SpecFlights.{flight_sizes};
ghost use Rattle.row_waits.specs.FlightUnitLaws.{IsPlanned};
ghost use Rattle.row_waits.specs.FlightValueLaws.{IsInRange};
ghost use Rattle.row_waits.specs.FlightFacts.{FlightFacts};
ghost use Rattle.row_waits.specs.FlightFacts.{flight_of};
ghost use Rattle.row_waits.specs.FlightFacts.{flight_in};
ghost use Rattle.row_waits.specs.FlightFacts.{IsOfFlight};
ghost use Rattle.flight_views.specs.Layouts.{AreHalved, HasSetsOf, IsLaidFor, StandsFor};

use header_types::PictureFormat;
use picture_buffer::Bases;
use plan_types::PicturePlan;
use sample_words::{FlightSizes, Layout};

/// The most pictures that a flight, or the buffer before it, may have.
const MOST_PICTURES: usize = 65536;

/// How the words of a flight of these pictures behind these bases lie, if it can be worked off on a board: it has some
/// picture and at most 65,536, all of one picture format and one set of block sizes, each with a slice segment; and
/// there are at most 65,536 bases, with sides of which chroma has half.
pub fn flight_layout(plans: &[PicturePlan], bases: &Bases) -> Option<Layout>
    ensures laid { IfSome result (λ layout. IsLaidFor plans.now bases.now layout) }
    ensures flight { IfSome result (λ layout. (facts : FlightFacts) → StandsFor facts plans.now bases.now
        → IsInRange (flight_in facts) → IsOfFlight facts layout) }
    ensures none { result ≡ None → length bases.now ≤ 65536
        → IsPlanned (flight_of plans.now (buffer_of bases.now)) → ⊥ }
{
    if !has_counts(plans, bases) {
        return None;
    }
    let first = &plans[0];
    if are_alike(first, plans) && are_halved(bases) {
        Some(layout_of(first, plans.len() as u32))
    } else {
        None
    }
}

/// Whether there are as many pictures, and bases, as there may be.
fn has_counts(plans: &[PicturePlan], bases: &Bases) -> bool
    ensures { Decides result ((1 ≤ length plans.now) × (length plans.now ≤ 65536) × (length bases.now ≤ 65536)) }
{
    1 <= plans.len() && plans.len() <= MOST_PICTURES && bases.len() <= MOST_PICTURES
}

/// That of so many pictures like this one.
fn layout_of(first: &PicturePlan, count: u32) -> Layout
    requires some { 1 ≤ count }
    requires few { count ≤ 65536 }
    ensures { result ≡ flight_sizes first.now.sps count }
{
    let format = &first.sps.fields().format;
    Layout::new(FlightSizes {
        width: format.pic_width_in_luma_samples,
        height: format.pic_height_in_luma_samples,
        ctb_log2: first.sps.ctb_log2(),
        deep: format.bit_depth_luma_minus8 > 0 || format.bit_depth_chroma_minus8 > 0,
        pictures: count,
    })
}

/// Whether all pictures have the format and the block sizes of one, and a slice segment.
fn are_alike(first: &PicturePlan, plans: &[PicturePlan]) -> bool
    ensures alike { Decides result
        ((k : ℕ) (p : PicturePlan) → slice_get plans.now k ≡ Some p → HasSetsOf first.now p) }
    ensures in_range { (k : ℕ) (p : PicturePlan) → slice_get plans.now k ≡ Some p → IsSps p.sps }
{
    let mut alike = true;
    for place in 0..plans.len() {
        alike = is_like(first, &plans[place]) && alike;
    }
    alike
}

/// Whether a picture has the format and the block sizes of another, and a slice segment.
fn is_like(first: &PicturePlan, plan: &PicturePlan) -> bool
    ensures like { Decides result (HasSetsOf first.now plan.now) }
    ensures in_range { IsSps plan.now.sps }
{
    let own = first.sps.fields();
    let other = plan.sps.fields();
    other.format == own.format && other.blocks == own.blocks && 1 <= plan.segments.len()
}

/// Whether all pictures of a buffer have sides of which chroma has half.
fn are_halved(bases: &Bases) -> bool
    requires { length bases.now ≤ 65536 }
    ensures { Decides result (AreHalved bases.now) }
{
    for place in 0..bases.len() as u32 {
        if !is_halved_at(bases, place) {
            return false;
        }
    }
    true
}

/// Whether the picture at a place has, if there is one.
fn is_halved_at(bases: &Bases, place: u32) -> bool
    ensures { Decides result (IfSome (slice_get bases.now place) (λ picture. IsHalved picture.format)) }
{
    match bases.get(place) {
        Some(picture) => is_halved(picture.format()),
        None => true,
    }
}

/// Whether a format has.
fn is_halved(format: &PictureFormat) -> bool
    ensures { Decides result (IsHalved format.now) }
{
    2 <= format.pic_width_in_luma_samples
        && 2 <= format.pic_height_in_luma_samples
        && format.pic_height_in_luma_samples % 2 == 0
}
