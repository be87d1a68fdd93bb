//! Whole pictures of a flight, out of the words of their rows.

ghost use Rattle.std.specs.Prelude.{◌≡◌, ℕ, ◌/◌, Some, slice_get};
ghost use Rattle.picture_buffer.specs.Motion.{HasPlaces, motions_of};
ghost use Rattle.picture_buffer.specs.Planes.{HasSides, samples_of};
ghost use Rattle.sample_lines.specs.FactsOfFlights.{decoded_of};
ghost use Rattle.spec_flights.specs.Pictures.{known_decoded, pictures_before};
ghost use Rattle.progress_words.specs.Passes.{IsPassOf, Knows, view};
ghost use Rattle.line_words.specs.Passes.{AreAllSound};
ghost use Rattle.sample_lines.specs.FactsOfFlights.{flight_meaning};
ghost use Rattle.sample_lines.specs.FactsOfFlights.{flight_in};
ghost use Rattle.sample_lines.specs.FactsOfFlights.{IsOfFlight};
ghost use Rattle.taken_pictures.specs.Pictures.{IsPictureSeen, held_picture};

use crate::laws::{fields_hold_their_motion, planes_hold_their_samples};
use crate::picture_lines::{built_line, final_line};
use crate::row_motion::take_row_motion;
use crate::row_samples::take_row_samples;
use line_words::UnitPlace;
use picture_buffer::{MotionField, Planes};
use plan_types::PicturePlan;
use progress_words::{Board, Pass};
use sample_lines::{FlightFacts, pictures_have_the_sizes_of_their_flight};
use sample_words::Layout;

/// Takes a decoded picture of the flight into planes and a motion field of its size: its samples behind all loop
/// filters, and the motion of its places. The pass has seen all its coding tree units counted, and all its rows behind
/// all loop filters. What stood in planes and field tells nothing.
pub fn take_picture(
    board: &Board<'_, FlightFacts>,
    pass: &mut Pass<FlightFacts>,
    layout: &Layout,
    plan: &PicturePlan,
    picture: u32,
    planes: &mut Planes,
    field: &mut MotionField,
)
    requires own { IsPassOf board.now pass.old }
    requires flight { IsOfFlight board.now.flight layout.now }
    requires picture { slice_get (flight_in board.now.flight).pictures picture ≡ Some plan.now }
    requires seen { IsPictureSeen layout.now (view pass.old) picture }
    requires known { AreAllSound (flight_meaning (flight_in board.now.flight)) (view pass.old) }
    requires sides { HasSides planes.old plan.now.sps.format.pic_width_in_luma_samples
        plan.now.sps.format.pic_height_in_luma_samples }
    requires places { HasPlaces field.old (plan.now.sps.format.pic_width_in_luma_samples / 4)
        (plan.now.sps.format.pic_height_in_luma_samples / 4) }
    ensures sides { HasSides planes.new plan.now.sps.format.pic_width_in_luma_samples
        plan.now.sps.format.pic_height_in_luma_samples }
    ensures places { HasPlaces field.new (plan.now.sps.format.pic_width_in_luma_samples / 4)
        (plan.now.sps.format.pic_height_in_luma_samples / 4) }
    ensures picture { decoded_of (held_picture plan.now.sps.format planes.new field.new)
        ≡ known_decoded (pictures_before (flight_in board.now.flight) picture) plan.now }
    ensures same { Knows pass.old pass.new (view pass.old) }
{
    take_samples(board, pass, layout, plan, picture, planes);
    take_motion(board, pass, layout, plan, picture, field);
}

/// Takes its samples alone.
pub fn take_samples(
    board: &Board<'_, FlightFacts>,
    pass: &mut Pass<FlightFacts>,
    layout: &Layout,
    plan: &PicturePlan,
    picture: u32,
    planes: &mut Planes,
)
    requires own { IsPassOf board.now pass.old }
    requires flight { IsOfFlight board.now.flight layout.now }
    requires picture { slice_get (flight_in board.now.flight).pictures picture ≡ Some plan.now }
    requires seen { IsPictureSeen layout.now (view pass.old) picture }
    requires sides { HasSides planes.old plan.now.sps.format.pic_width_in_luma_samples
        plan.now.sps.format.pic_height_in_luma_samples }
    ensures sides { HasSides planes.new plan.now.sps.format.pic_width_in_luma_samples
        plan.now.sps.format.pic_height_in_luma_samples }
    ensures samples { (c x y : ℕ) → samples_of planes.new c x y
        ≡ (known_decoded (pictures_before (flight_in board.now.flight) picture) plan.now).samples c x y }
    ensures same { Knows pass.old pass.new (view pass.old) }
{
    pictures_have_the_sizes_of_their_flight();
    planes_hold_their_samples();
    let rows = layout.rows() as u32;
    for row in 0..rows {
        let last = final_line(picture, row);
        let at = UnitPlace::new(layout, last, 0);
        take_row_samples(board, pass, layout, &at, planes);
    }
}

/// Takes the motion of its places alone.
pub fn take_motion(
    board: &Board<'_, FlightFacts>,
    pass: &mut Pass<FlightFacts>,
    layout: &Layout,
    plan: &PicturePlan,
    picture: u32,
    field: &mut MotionField,
)
    requires own { IsPassOf board.now pass.old }
    requires flight { IsOfFlight board.now.flight layout.now }
    requires picture { slice_get (flight_in board.now.flight).pictures picture ≡ Some plan.now }
    requires seen { IsPictureSeen layout.now (view pass.old) picture }
    requires known { AreAllSound (flight_meaning (flight_in board.now.flight)) (view pass.old) }
    requires places { HasPlaces field.old (plan.now.sps.format.pic_width_in_luma_samples / 4)
        (plan.now.sps.format.pic_height_in_luma_samples / 4) }
    ensures places { HasPlaces field.new (plan.now.sps.format.pic_width_in_luma_samples / 4)
        (plan.now.sps.format.pic_height_in_luma_samples / 4) }
    ensures motion { (x y : ℕ) → motions_of field.new x y
        ≡ (known_decoded (pictures_before (flight_in board.now.flight) picture) plan.now).motions x y }
    ensures same { Knows pass.old pass.new (view pass.old) }
{
    pictures_have_the_sizes_of_their_flight();
    fields_hold_their_motion();
    let rows = layout.rows() as u32;
    for row in 0..rows {
        let built = built_line(picture, row);
        take_row_motion(board, pass, layout, plan, built, field);
    }
}
