//! One picture of a flight, which two threads take side by side.

ghost use Rattle.std.specs.Prelude.{◌≡◌, ◌/◌, Some, slice_get};
ghost use Rattle.picture_buffer.specs.Motion.{HasPlaces};
ghost use Rattle.picture_buffer.specs.Planes.{HasSides};
ghost use Rattle.progress_words.specs.declared.waiting.Waited.TheVariants.{Ready, Stopped};
ghost use Rattle.progress_words.specs.Passes.{Knows, view};
ghost use Rattle.taken_pictures.specs.FlightFacts.{flight_in};
ghost use Rattle.flight_workers.specs.Working.{IsGathered};
ghost use Rattle.taken_flights.specs.Taken.{HasLookedOn, HoldsMotion, HoldsSamples, IsBroken, IsDecoded, IsSized};
ghost use Rattle.taken_flights.specs.Taken.{MayLook, MayRead, MayTake};

use hv_io::Gate;
use picture_buffer::{MotionField, Planes};
use plan_types::PicturePlan;
use progress_words::{Board, Pass, Waited};
use sample_words::Layout;
use std::sync::Wait;
use std::thread::{Threads, join_mut};
use taken_pictures::{FlightFacts, see_picture, take_motion, take_samples};

/// Takes a picture of the flight, unless a fault is found in it or before it: its samples with one pass and its motion
/// with another, both of which are split off and joined again.
pub(crate) fn take_by_two<R: Threads + Wait, G: Gate>(
    rt: &R,
    gate: &G,
    board: &Board<'_, FlightFacts>,
    layout: &Layout,
    plan: &PicturePlan,
    picture: u32,
    pass: &mut Pass<FlightFacts>,
    part: &mut (Planes, MotionField),
) -> Waited
    requires may { MayTake board.now layout.now pass.old 2 }
    requires picture { slice_get (flight_in board.now.flight).pictures picture ≡ Some plan.now }
    requires sized { IsSized plan.now part.old }
    ensures gathered { IsGathered board.now pass.old pass.new }
    ensures sized { IsSized plan.now part.new }
    ensures ready { result ≡ Ready → IsDecoded (flight_in board.now.flight) picture plan.now part.new }
    ensures stopped { result ≡ Stopped → IsBroken (flight_in board.now.flight) picture }
{
    let mut one = board.split(pass);
    let mut other = board.split(pass);
    let waited = take_seen(
        rt, gate, board, layout, plan, picture, &mut one, &mut other, part,
    );
    board.join(pass, other);
    board.join(pass, one);
    waited
}

/// The same with two passes that are lent.
fn take_seen<R: Threads + Wait, G: Gate>(
    rt: &R,
    gate: &G,
    board: &Board<'_, FlightFacts>,
    layout: &Layout,
    plan: &PicturePlan,
    picture: u32,
    one: &mut Pass<FlightFacts>,
    other: &mut Pass<FlightFacts>,
    part: &mut (Planes, MotionField),
) -> Waited
    requires one { MayLook board.now layout.now one.old }
    requires other { MayLook board.now layout.now other.old }
    requires picture { slice_get (flight_in board.now.flight).pictures picture ≡ Some plan.now }
    requires sized { IsSized plan.now part.old }
    ensures one { HasLookedOn board.now one.old one.new }
    ensures other { HasLookedOn board.now other.old other.new }
    ensures sized { IsSized plan.now part.new }
    ensures ready { result ≡ Ready → IsDecoded (flight_in board.now.flight) picture plan.now part.new }
    ensures stopped { result ≡ Stopped → IsBroken (flight_in board.now.flight) picture }
{
    match see_both(rt, gate, board, layout, plan, picture, one, other) {
        Waited::Ready => {
            let (planes, field) = part;
            take_both(rt, board, layout, plan, picture, one, planes, other, field);
            Waited::Ready
        }
        Waited::Stopped => Waited::Stopped,
    }
}

/// Waits with both until all of the picture is counted, or a fault is found in it or before it.
fn see_both<R: Wait, G: Gate>(
    rt: &R,
    gate: &G,
    board: &Board<'_, FlightFacts>,
    layout: &Layout,
    plan: &PicturePlan,
    picture: u32,
    one: &mut Pass<FlightFacts>,
    other: &mut Pass<FlightFacts>,
) -> Waited
    requires one { MayLook board.now layout.now one.old }
    requires other { MayLook board.now layout.now other.old }
    requires picture { slice_get (flight_in board.now.flight).pictures picture ≡ Some plan.now }
    ensures one { HasLookedOn board.now one.old one.new }
    ensures other { HasLookedOn board.now other.old other.new }
    ensures ready { result ≡ Ready → MayRead board.now layout.now picture plan.now one.new
        × MayRead board.now layout.now picture plan.now other.new }
    ensures stopped { result ≡ Stopped → IsBroken (flight_in board.now.flight) picture }
{
    match see_one(rt, gate, board, layout, plan, picture, one) {
        Waited::Ready => see_one(rt, gate, board, layout, plan, picture, other),
        Waited::Stopped => Waited::Stopped,
    }
}

/// The same with one.
fn see_one<R: Wait, G: Gate>(
    rt: &R,
    gate: &G,
    board: &Board<'_, FlightFacts>,
    layout: &Layout,
    plan: &PicturePlan,
    picture: u32,
    pass: &mut Pass<FlightFacts>,
) -> Waited
    requires may { MayLook board.now layout.now pass.old }
    requires picture { slice_get (flight_in board.now.flight).pictures picture ≡ Some plan.now }
    ensures looked { HasLookedOn board.now pass.old pass.new }
    ensures ready { result ≡ Ready → MayRead board.now layout.now picture plan.now pass.new }
    ensures stopped { result ≡ Stopped → IsBroken (flight_in board.now.flight) picture }
{
    see_picture(rt, board, pass, layout, picture, gate)
}

/// Takes the samples of the picture in a new thread and its motion in this one.
fn take_both<R: Threads>(
    rt: &R,
    board: &Board<'_, FlightFacts>,
    layout: &Layout,
    plan: &PicturePlan,
    picture: u32,
    one: &mut Pass<FlightFacts>,
    planes: &mut Planes,
    other: &mut Pass<FlightFacts>,
    field: &mut MotionField,
)
    requires one { MayRead board.now layout.now picture plan.now one.old }
    requires sides { HasSides planes.old plan.now.sps.format.pic_width_in_luma_samples
        plan.now.sps.format.pic_height_in_luma_samples }
    requires other { MayRead board.now layout.now picture plan.now other.old }
    requires places { HasPlaces field.old (plan.now.sps.format.pic_width_in_luma_samples / 4)
        (plan.now.sps.format.pic_height_in_luma_samples / 4) }
    ensures one { Knows one.old one.new (view one.old) }
    ensures samples { HoldsSamples (flight_in board.now.flight) picture plan.now planes.new }
    ensures other { Knows other.old other.new (view other.old) }
    ensures motion { HoldsMotion (flight_in board.now.flight) picture plan.now field.new }
{
    let ((), ()) = join_mut(
        rt,
        &mut || -> ()
            requires { MayRead board.now layout.now picture plan.now one.now
                × HasSides planes.now plan.now.sps.format.pic_width_in_luma_samples
                plan.now.sps.format.pic_height_in_luma_samples }
            ensures { Knows one.entry.now one.exit.now (view one.entry.now)
                × HoldsSamples (flight_in board.entry.now.flight) picture plan.entry.now planes.exit.now }
        { take_samples(board, one, layout, plan, picture, planes) },
        &mut || -> ()
            requires { MayRead board.now layout.now picture plan.now other.now
                × HasPlaces field.now (plan.now.sps.format.pic_width_in_luma_samples / 4)
                (plan.now.sps.format.pic_height_in_luma_samples / 4) }
            ensures { Knows other.entry.now other.exit.now (view other.entry.now)
                × HoldsMotion (flight_in board.entry.now.flight) picture plan.entry.now field.exit.now }
        { take_motion(board, other, layout, plan, picture, field) },
    );
}
