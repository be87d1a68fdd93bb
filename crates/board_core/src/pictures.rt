//! What a flight says of one of its pictures, by its place, also where there is none.

ghost use Rattle.std.specs.Prelude.{◌≡◌, ◌+◌, ◌≤◌, min};
ghost use Rattle.flight_plan.specs.Flight.{picture_at};
ghost use Rattle.board_core.specs.Places.{full_count};

use flight_plan::FlightPlan;
use hv_base::{Line, Phase};

/// The rows of a picture, 0 where the flight has no such picture.
pub fn rows_at(plan: &FlightPlan, picture: u32) -> u32
    ensures value { result ≡ (picture_at plan.now picture).rows }
    ensures small { result ≤ 512 }
{
    match plan.pictures().get(picture as usize) {
        Some(found) => found.rows(),
        None => 0,
    }
}

/// The coding tree units of a row of a picture, 0 where the flight has no such picture.
pub fn width_at(plan: &FlightPlan, picture: u32) -> u32
    ensures value { result ≡ (picture_at plan.now picture).width }
    ensures small { result ≤ 512 }
{
    match plan.pictures().get(picture as usize) {
        Some(found) => found.width(),
        None => 0,
    }
}

/// Whether entropy coding sync is on in a picture; not where the flight has no such picture.
pub fn sync_at(plan: &FlightPlan, picture: u32) -> bool
    ensures { result ≡ (picture_at plan.now picture).sync }
{
    match plan.pictures().get(picture as usize) {
        Some(found) => found.sync(),
        None => false,
    }
}

/// The units of a line: of a B line the coding tree units of a row of its picture, of another line one.
pub fn full_count_at(plan: &FlightPlan, line: Line) -> u32
    ensures value { result ≡ full_count plan.now line }
    ensures small { result ≤ 512 }
{
    match line.phase {
        Phase::B => width_at(plan, line.picture),
        Phase::V => 1,
        Phase::H => 1,
        Phase::S => 1,
    }
}

/// The end of the rows up to `last` that a picture has.
pub fn rows_end(plan: &FlightPlan, picture: u32, last: u64) -> u32
    ensures value { result ≡ min (last + 1) (picture_at plan.now picture).rows }
    ensures small { result ≤ 512 }
{
    let rows = rows_at(plan, picture);
    if last < u64::from(rows) {
        last as u32 + 1
    } else {
        rows
    }
}
