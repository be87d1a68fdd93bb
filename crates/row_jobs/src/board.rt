//! Decodes a flight on a board, by several workers.

ghost use Rattle.std.specs.Prelude.{◌≡◌, ◌+◌, ◌≤◌, All, IfOk, IfSome, None, length};
ghost use Rattle.std.specs.List.{list_any};
ghost use Rattle.flight_ranges.specs.PictureBuild.{buffer_of};
ghost use Rattle.flight_ranges.specs.FlightFacts.{FlightFacts};
ghost use Rattle.flight_ranges.specs.FlightFacts.{flight_of};
ghost use Rattle.flight_ranges.specs.FlightFacts.{flight_in};
ghost use Rattle.flight_ranges.specs.FlightFacts.{IsOfFlight};
ghost use Rattle.flight_results.specs.Flights.{DecodesFlight};
ghost use Rattle.row_workers.specs.FlightViews.{IsLaidFor, StandsFor};
ghost use Rattle.row_workers.specs.FlightViews.{IsShared, IsViewOf};
ghost use Rattle.taken_flights.specs.Taken.{AreParts, AreTaken};
ghost use Rattle.row_jobs.specs.Boards.{GoesOnBoard, IsFaultWord, IsOpener, IsWorkedOff, MayBegin, MayClose};
ghost use Rattle.row_jobs.specs.Boards.{has_row_substreams};

use crate::parts::{parts_of, pictures_of};
use crate::result::FlightResult;
use crate::spares::Spares;
use flight_ranges::{
    Flight, FlightFacts, closed_boards_hold_the_pictures, flights_lie_on_boards, is_in_range,
};
use flight_results::{closed_boards_tell_where_decoding_stops, held_pictures_are_decoded, stop_of};
use hv_io::Gate;
use picture_buffer::{Bases, MotionField, Planes};
use plan_types::PicturePlan;
use progress_words::{BoardMemory, Layout as BoardLayout, OpenBoard, Pass};
use row_workers::{FlightViews, RowWorker, flight_layout, work_off};
use sample_words::Layout;
use std::alloc::{AllocError, Global};
use std::sync::Wait;
use std::thread::Threads;
use taken_flights::{Taken, decoding_stops_where_taking_stops, take_pictures};

/// The most workers that a flight has.
const MOST_WORKERS: u32 = 64;

/// How the words of a flight lie, if it is to be decoded on a board: it may lie on one and is in range, there is more
/// than one worker, and rows can be read side by side.
pub(crate) fn board_layout(plans: &[PicturePlan], bases: &Bases, workers: u32) -> Option<Layout>
    ensures laid { IfSome result (λ layout. IsLaidFor plans.now bases.now layout) }
    ensures flight { IfSome result (λ layout. (facts : FlightFacts) → StandsFor facts plans.now bases.now
        → IsOfFlight facts layout) }
    ensures workers { IfSome result (λ layout. 2 ≤ workers) }
    ensures none { result ≡ None → GoesOnBoard plans.now bases.now workers → ⊥ }
{
    if workers < 2 || !have_row_substreams(plans) {
        return None;
    }
    let layout = flight_layout(plans, bases)?;
    if is_in_range(plans, bases) {
        Some(layout)
    } else {
        None
    }
}

/// Whether some picture has a substream for each row of coding tree blocks (9.3.1). Rows of a picture without them are
/// read one after the other.
pub fn have_row_substreams(plans: &[PicturePlan]) -> bool
    ensures { result ≡ list_any has_row_substreams plans.now }
{
    plans.iter().any(has_row_substreams)
}

/// Whether a picture has.
fn has_row_substreams(plan: &PicturePlan) -> bool
    ensures { result ≡ has_row_substreams plan.now }
{
    let prediction = &plan.pps.fields().prediction;
    prediction.entropy_coding_sync_enabled_flag
}

/// Decodes a flight whose words lie so, by up to so many workers.
pub(crate) fn decode_on_board<'f, R: Threads + Wait + Sync, G: Gate + Sync>(
    rt: &R,
    alloc: Global,
    flight: &'f Flight,
    bases: &'f Bases,
    layout: Layout,
    workers: u32,
    gate: &G,
    spares: &mut Spares,
) -> Result<FlightResult, AllocError>
    requires laid { IsLaidFor flight.now bases.now layout }
    requires flight { (facts : FlightFacts) → StandsFor facts flight.now bases.now → IsOfFlight facts layout }
    requires workers { 2 ≤ workers }
    ensures { IfOk result
        (λ r. DecodesFlight (flight_of flight.now (buffer_of bases.now)) r.pictures r.fault) }
{
    held_pictures_are_decoded();
    flights_lie_on_boards();
    let plans = flight.as_slice();
    let facts = FlightFacts::of(flight, bases);
    let views = FlightViews::new(alloc, plans, bases, layout)?;
    let mut parts = parts_of(alloc, plans, spares)?;
    let word = work_off_flight(
        rt,
        alloc,
        gate,
        &mut spares.board,
        &facts,
        &views,
        plans,
        workers.min(MOST_WORKERS),
        parts.as_mut_slice(),
    )?;
    let stop = stop_of(plans, &layout, word);
    let pictures = pictures_of(alloc, plans, stop.count, parts)?;
    Ok(FlightResult {
        pictures,
        fault: stop.fault,
    })
}

/// Works a flight off and takes its decoded pictures into these parts. The fault word of its board.
fn work_off_flight<R: Threads + Wait + Sync, G: Gate + Sync>(
    rt: &R,
    alloc: Global,
    gate: &G,
    memory: &mut BoardMemory,
    facts: &FlightFacts,
    views: &FlightViews<'_>,
    plans: &[PicturePlan],
    workers: u32,
    parts: &mut [(Planes, MotionField)],
) -> Result<u64, AllocError>
    requires view { IsViewOf facts.now views.now }
    requires workers { (2 ≤ workers) × (workers ≤ 64) }
    requires parts { AreParts (flight_in facts.now) 0 plans.now parts.old }
    ensures { IfOk result (λ word. IsWorkedOff (flight_in facts.now) plans.now parts.old parts.new word) }
{
    closed_boards_tell_where_decoding_stops();
    decoding_stops_where_taking_stops();
    let mut first = RowWorker::new(alloc, views)?;
    let mut others = other_workers(alloc, views, workers as usize - 1)?;
    let layout = views.layout();
    let (board, start) = open_board(memory, layout, facts)?;
    let Taken { pass, count: _ } = work_and_take(
        rt,
        gate,
        &board,
        views,
        plans,
        start,
        &mut first,
        others.as_mut_slice(),
        parts,
    );
    Ok(close_board(board, layout, pass))
}

/// So many workers of a flight.
fn other_workers<'a>(
    alloc: Global,
    views: &'a FlightViews<'a>,
    count: usize,
) -> Result<Vec<RowWorker<'a>>, AllocError>
    requires shared { IsShared views.now }
    ensures count { IfOk result (λ workers. length workers.items ≡ count) }
    ensures ready { IfOk result (λ workers. All (MayBegin views.now) workers.items) }
{
    let mut workers = Vec::new(alloc);
    for _ in 0..count {
        workers.push(RowWorker::new(alloc, views)?)?;
    }
    Ok(workers)
}

/// A board of a flight with nothing drawn and nothing counted.
fn open_board<'m>(
    memory: &'m mut BoardMemory,
    layout: &Layout,
    facts: &FlightFacts,
) -> Result<(OpenBoard<'m, FlightFacts>, Pass<FlightFacts>), AllocError>
    requires flight { IsOfFlight facts.now layout.now }
    ensures board { IfOk result (λ opened. opened.0.flight ≡ facts.now) }
    ensures opener { IfOk result (λ opened. IsOpener opened.0 layout.now opened.1) }
{
    flights_lie_on_boards();
    let words = BoardLayout {
        lines: layout.lines() as usize,
        words: layout.words() as usize,
    };
    memory.open(words, facts)
}

/// Works all lines of a flight off, and takes its pictures out of the words, up to the first fault.
fn work_and_take<'a, R: Threads + Wait + Sync, G: Gate + Sync>(
    rt: &R,
    gate: &G,
    opened: &OpenBoard<'_, FlightFacts>,
    views: &FlightViews<'_>,
    plans: &[PicturePlan],
    start: Pass<FlightFacts>,
    first: &mut RowWorker<'a>,
    others: &mut [RowWorker<'a>],
    parts: &mut [(Planes, MotionField)],
) -> Taken
    requires view { IsViewOf opened.now.flight views.now }
    requires start { IsOpener opened.now views.now.layout start }
    requires first { MayBegin views.now first.old }
    requires others { All (MayBegin views.now) others.old }
    requires few { length others.old + 1 ≤ 64 }
    requires parts { AreParts (flight_in opened.now.flight) 0 plans.now parts.old }
    ensures pass { MayClose opened.now result.pass }
    ensures taken { AreTaken (flight_in opened.now.flight) 0 plans.now parts.old parts.new result.count }
{
    let layout = views.layout();
    let workers = others.len() as u32 + 1;
    let board = opened.lend();
    let pass = work_off(rt, gate, &board, layout, start, first, others);
    take_pictures(rt, gate, &board, layout, plans, pass, 0, workers, parts)
}

/// The fault word of a board that is closed.
fn close_board(board: OpenBoard<'_, FlightFacts>, layout: &Layout, pass: Pass<FlightFacts>) -> u64
    requires flight { IsOfFlight board.flight layout.now }
    requires pass { MayClose board pass }
    ensures { IsFaultWord (flight_in board.entry.flight) result }
{
    closed_boards_hold_the_pictures();
    let words = board.close(pass);
    words.at(layout.fault_word() as usize)
}
