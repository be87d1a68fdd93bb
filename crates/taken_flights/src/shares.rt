//! A share of the pictures of a flight, which one thread takes.

ghost use Rattle.std.specs.Prelude.{◌≡◌, Some, slice_get};
ghost use Rattle.progress_words.specs.declared.waiting.Waited.TheVariants.{Ready, Stopped};
ghost use Rattle.taken_pictures.specs.FlightFacts.{flight_in};
ghost use Rattle.taken_flights.specs.Taken.{AreParts, AreTaken, HasLookedOn, IsBroken, IsDecoded, IsSized, MayLook};

use hv_io::Gate;
use picture_buffer::{MotionField, Planes};
use plan_types::PicturePlan;
use progress_words::{Board, Pass, Waited};
use sample_words::Layout;
use std::sync::Wait;
use taken_pictures::{FlightFacts, see_picture, take_picture};

/// Takes pictures of the flight one after the other, from one on, until all are taken or a fault is found in the next
/// one or before it. How many it has taken.
pub(crate) fn take_share<R: Wait, G: Gate>(
    rt: &R,
    gate: &G,
    board: &Board<'_, FlightFacts>,
    layout: &Layout,
    plans: &[PicturePlan],
    first: u32,
    pass: &mut Pass<FlightFacts>,
    parts: &mut [(Planes, MotionField)],
) -> u32
    requires may { MayLook board.now layout.now pass.old }
    requires parts { AreParts (flight_in board.now.flight) first plans.now parts.old }
    ensures looked { HasLookedOn board.now pass.old pass.new }
    ensures taken { AreTaken (flight_in board.now.flight) first plans.now parts.old parts.new result }
{
    for k in 0..parts.len() {
        let picture = first + k as u32;
        match take_part(
            rt,
            gate,
            board,
            layout,
            &plans[k],
            picture,
            pass,
            &mut parts[k],
        ) {
            Waited::Ready => {}
            Waited::Stopped => return k as u32,
        }
    }
    parts.len() as u32
}

/// Takes one of them, unless a fault is found in it or before it.
fn take_part<R: Wait, G: Gate>(
    rt: &R,
    gate: &G,
    board: &Board<'_, FlightFacts>,
    layout: &Layout,
    plan: &PicturePlan,
    picture: u32,
    pass: &mut Pass<FlightFacts>,
    part: &mut (Planes, MotionField),
) -> Waited
    requires may { MayLook board.now layout.now pass.old }
    requires picture { slice_get (flight_in board.now.flight).pictures picture ≡ Some plan.now }
    requires sized { IsSized plan.now part.old }
    ensures looked { HasLookedOn board.now pass.old pass.new }
    ensures sized { IsSized plan.now part.new }
    ensures ready { result ≡ Ready → IsDecoded (flight_in board.now.flight) picture plan.now part.new }
    ensures stopped { result ≡ Stopped → IsBroken (flight_in board.now.flight) picture }
{
    match see_picture(rt, board, pass, layout, picture, gate) {
        Waited::Ready => {
            let (planes, field) = part;
            take_picture(board, pass, layout, plan, picture, planes, field);
            Waited::Ready
        }
        Waited::Stopped => Waited::Stopped,
    }
}
