//! The rows of a flight as far as its plans tell them.

ghost use Rattle.std.specs.Prelude.{◌≡◌, ◌≤◌, IfOk, length};
ghost use Rattle.flight_waits.specs.Frames.{frame_rows, framed};

use flight_plan::{FlightPicture, FlightPlan};
use plan_types::PicturePlan;
use std::alloc::{AllocError, Global};

/// The rows of the pictures of a flight before any of their slice data are read: how many coding tree units each has,
/// and whether it begins with the contexts behind the second unit of the row above. What units refer to isn't in it.
pub fn flight_frame(alloc: Global, pictures: &[PicturePlan]) -> Result<FlightPlan, AllocError>
    requires { length pictures.now ≤ 65536 }
    ensures { IfOk result (λ frame. frame ≡ frame_rows pictures.now) }
{
    let mut frame = FlightPlan::new(alloc);
    for place in 0..pictures.len() {
        frame.push(framed(alloc, &pictures[place]))?;
    }
    Ok(frame)
}

/// The rows of a picture.
fn framed(alloc: Global, plan: &PicturePlan) -> FlightPicture
    ensures { result ≡ framed plan.now }
{
    let width = plan.sps.width_in_ctbs();
    let rows = plan.sps.height_in_ctbs();
    let sync = plan
        .pps
        .fields()
        .prediction
        .entropy_coding_sync_enabled_flag;
    FlightPicture::new(width, rows, sync, Vec::new(alloc), Vec::new(alloc))
}
