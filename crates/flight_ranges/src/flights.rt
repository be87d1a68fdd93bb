//! Whether a flight is in range.

ghost use Rattle.std.specs.Prelude.{◌<◌, ◌≤◌, All, Decides, IfSome, length, slice_get};
ghost use Rattle.flight_facts.specs.PictureBuildPictures.{buffer_of};
ghost use Rattle.plan_laws.specs.Plans.{IsPlan};
ghost use Rattle.flight_facts.specs.FlightValueLaws.{IsInRange};
ghost use Rattle.flight_facts.specs.Boards.{flight_of};
ghost use Rattle.flight_ranges.specs.Buffers.{IsBaseHeld};

use crate::motions::are_motions_held;
use crate::plans::is_plan;
use picture_buffer::Bases;
use plan_types::PicturePlan;

/// Whether the flight of these pictures behind these bases is in range. All flights of a stream are.
pub fn is_in_range(plans: &[PicturePlan], bases: &Bases) -> bool
    requires { length bases.now ≤ 65536 }
    ensures { Decides result (IsInRange (flight_of plans.now (buffer_of bases.now))) }
{
    are_plans(plans) && are_bases_held(bases)
}

/// Whether each picture is planned as one of a stream is.
fn are_plans(plans: &[PicturePlan]) -> bool
    ensures { Decides result (All IsPlan plans.now) }
{
    for place in 0..plans.len() {
        if !is_plan_at(plans, place) {
            return false;
        }
    }
    true
}

/// Whether the picture at a place is.
fn is_plan_at(plans: &[PicturePlan], place: usize) -> bool
    requires { place < length plans.now }
    ensures { Decides result (IfSome (slice_get plans.now place) IsPlan) }
{
    is_plan(&plans[place])
}

/// Whether the motion of each picture of a buffer has vectors that may be.
fn are_bases_held(bases: &Bases) -> bool
    requires { length bases.now ≤ 65536 }
    ensures { Decides result (All IsBaseHeld bases.now) }
{
    for place in 0..bases.len() as u32 {
        if !is_held_at(bases, place) {
            return false;
        }
    }
    true
}

/// Whether that of the picture at a place has, if there is one.
fn is_held_at(bases: &Bases, place: u32) -> bool
    ensures { Decides result (IfSome (slice_get bases.now place) IsBaseHeld) }
{
    match bases.get(place) {
        Some(picture) => are_motions_held(picture.motion()),
        None => true,
    }
}
