//! Decodes a flight.

ghost use Rattle.std.specs.Prelude.{◌≡◌, ◌∷◌, [], ℕ, Option, IfOk};
ghost use Rattle.board_core.specs.Runs.{IsLeastBad};
ghost use Rattle.flight_ranges.specs.FlightUnitLaws.{HaveSegments};
ghost use Rattle.flight_ranges.specs.PictureBuild.{buffer_of};
ghost use Rattle.row_workers.specs.SpecFlights.{flight_rows};
ghost use Rattle.flight_ranges.specs.FlightFacts.{flight_of};
ghost use Rattle.flight_results.specs.Decoding.{Decodes};
ghost use Rattle.flight_results.specs.Flights.{DecodesFlight, TellsLeast};
ghost use Rattle.row_jobs.specs.Decoding.{TellsError};

use crate::board::{board_layout, decode_on_board};
use crate::buffer::enter;
use crate::picture::decode_picture;
use crate::result::FlightResult;
use crate::spares::Spares;
use flight_ranges::Flight;
use flight_results::{flights_are_decoded_in_order, least_bad_units_are_told};
use hv_io::Gate;
use picture_buffer::Bases;
use picture_trees::ReadError;
use plan_types::PicturePlan;
use std::alloc::{AllocError, Global};
use std::sync::Wait;
use std::thread::Threads;

/// Decodes the pictures of a flight, in decoding order, by the pictures of the decoded picture buffer before it. They
/// are kept in spare memory where there is some of their size. `AllocError` is want of memory.
///
/// The pictures are those of sequential decoding before the first in which a rule is broken, and the fault is that rule
/// (`decoded`, `flight`). It is broken at the flight's least bad coding tree unit (`least`). The answer is the same for
/// every number of workers.
pub fn run_flight<R: Threads + Wait + Sync, G: Gate + Sync>(
    rt: &R,
    alloc: Global,
    flight: &Flight,
    bases: &Bases,
    workers: u32,
    gate: &G,
    spares: &mut Spares,
) -> Result<FlightResult, AllocError>
    ensures decoded { IfOk result (λ r. Decodes (buffer_of bases.now) flight.now r.pictures r.fault) }
    ensures flight { IfOk result
        (λ r. DecodesFlight (flight_of flight.now (buffer_of bases.now)) r.pictures r.fault) }
    ensures least { IfOk result
        (λ r. (u : Option ℕ) → HaveSegments (flight_of flight.now (buffer_of bases.now))
        → IsLeastBad (flight_rows (flight_of flight.now (buffer_of bases.now))) u
        → TellsLeast (flight_of flight.now (buffer_of bases.now)) r.pictures r.fault u) }
{
    flights_are_decoded_in_order();
    least_bad_units_are_told();
    decode_flight(rt, alloc, flight, bases, workers, gate, spares)
}

/// Decodes a picture by those of the decoded picture buffer before it, as a flight of it alone (`decoded`). It is kept
/// in spare memory where there is some of its size. `AllocError` is want of memory.
pub fn run_picture(
    alloc: Global,
    picture: &PicturePlan,
    bases: &Bases,
    spares: &mut Spares,
) -> Result<FlightResult, AllocError>
    ensures decoded { IfOk result (λ r. Decodes (buffer_of bases.now) (picture.now ∷ []) r.pictures r.fault) }
{
    let mut pictures = Bases::new(alloc);
    match decode_picture(alloc, picture, bases, spares) {
        Ok(decoded) => {
            pictures.push(decoded)?;
            let fault = None;
            Ok(FlightResult { pictures, fault })
        }
        Err(error) => stopped(pictures, error),
    }
}

/// The pictures of a flight on a board, where it may lie on one, else one after the other.
fn decode_flight<R: Threads + Wait + Sync, G: Gate + Sync>(
    rt: &R,
    alloc: Global,
    flight: &Flight,
    bases: &Bases,
    workers: u32,
    gate: &G,
    spares: &mut Spares,
) -> Result<FlightResult, AllocError>
    ensures { IfOk result (λ r. DecodesFlight (flight_of flight.now (buffer_of bases.now)) r.pictures r.fault) }
{
    match board_layout(flight.as_slice(), bases, workers) {
        Some(layout) => decode_on_board(rt, alloc, flight, bases, layout, workers, gate, spares),
        None => decode_plainly(alloc, flight.as_slice(), bases, spares),
    }
}

/// The pictures of a flight, decoded one after the other.
fn decode_plainly(
    alloc: Global,
    plan: &[PicturePlan],
    bases: &Bases,
    spares: &mut Spares,
) -> Result<FlightResult, AllocError>
    ensures { IfOk result (λ r. DecodesFlight (flight_of plan.now (buffer_of bases.now)) r.pictures r.fault) }
{
    flights_are_decoded_in_order();
    decode_in_order(alloc, plan, bases, spares)
}

/// Decodes pictures one after the other, each by a buffer of its own, which has the same pictures as this one before
/// the first.
fn decode_in_order(
    alloc: Global,
    plan: &[PicturePlan],
    bases: &Bases,
    spares: &mut Spares,
) -> Result<FlightResult, AllocError>
    ensures { IfOk result (λ r. Decodes (buffer_of bases.now) plan.now r.pictures r.fault) }
{
    let mut buffer = bases.share()?;
    let mut pictures = Bases::new(alloc);
    for picture in plan {
        let kept = picture.outputs.kept.as_slice();
        match decode_picture(alloc, picture, &buffer, spares) {
            Ok(decoded) => enter(alloc, decoded, kept, &mut buffer, &mut pictures)?,
            Err(error) => return stopped(pictures, error),
        }
    }
    let fault = None;
    Ok(FlightResult { pictures, fault })
}

/// These pictures, and what the data of the next break; `AllocError` where there was no memory for it.
fn stopped(pictures: Bases, error: ReadError) -> Result<FlightResult, AllocError>
    ensures { IfOk result (λ r. (r.pictures ≡ pictures) × TellsError error r.fault) }
{
    match error {
        ReadError::Memory => Err(AllocError),
        ReadError::Broken { breach, nal, ctu } => {
            let fault = Some(breach.at(nal, Some(ctu)));
            Ok(FlightResult { pictures, fault })
        }
    }
}
