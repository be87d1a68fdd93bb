//! Two small pictures, of which the second refers to the first, run by events that are drawn at random.

use board_core::{Core, Event, LumaLines, PredictedBlock, are_luma_lines, is_block, reached_rows};
use flight_plan::{FlightPicture, FlightPlan, Reference, RowRanges};
use hv_base::{Line, Phase};
use rand_core::SeedableRng;
use rand_core::utils::NextWord;
use rand_pcg::Lcg64Xsh32;
use std::alloc::{AllocError, Global};

/// The rows of both pictures, each of three coding tree units of 16 luma lines.
const ROWS: u32 = 3;

/// What a unit of a row reaches of the first picture, by a vector of so many quarters of a line.
fn reach_of(alloc: Global, row: u32, down: i16) -> Result<RowRanges, AllocError> {
    let lines = LumaLines {
        height: 48,
        ctb_log2: 4,
    };
    let block = PredictedBlock {
        reference: Reference::Flight(0),
        first: row.min(ROWS) * 16,
        lines: 8,
        down,
    };
    let mut ranges = RowRanges::new(alloc);
    if are_luma_lines(lines) && is_block(block) {
        ranges.push(reached_rows(lines, block))?;
    }
    Ok(ranges)
}

/// The two pictures. Vectors of the second one lead 20 lines up in its last row, 20 lines down in its first one.
fn plan_of(alloc: Global) -> Result<FlightPlan, AllocError> {
    let mut plan = FlightPlan::new(alloc);
    let first = FlightPicture::new(3, ROWS, true, Vec::new(alloc), Vec::new(alloc));
    if plan.takes(&first) {
        plan.push(first)?;
    }
    let mut collocated = Vec::new(alloc);
    let mut reach = Vec::new(alloc);
    for unit in 0..9u32 {
        collocated.push(Some(Reference::Flight(0)))?;
        let row = unit / 3;
        reach.push(reach_of(alloc, row, if row == 0 { 80 } else { -80 })?)?;
    }
    let second = FlightPicture::new(3, ROWS, true, collocated, reach);
    if plan.takes(&second) {
        plan.push(second)?;
    }
    Ok(plan)
}

/// Takes an event, if it is ready, and answers whether it was.
fn takes(core: &mut Core, event: Event) -> bool {
    let is_ready = core.ready(event);
    if is_ready {
        core.step(event);
    }
    is_ready
}

/// Takes an event that is drawn, if it is ready: of a phase of a row of a picture, or Draw.
fn takes_drawn(core: &mut Core, word: u32) -> bool {
    let line = |phase| Line {
        phase,
        picture: word / 8 % 2,
        row: word / 16 % ROWS,
    };
    let x = word / 64 % 3;
    match word % 8 {
        0 | 1 => takes(core, Event::Read(line(Phase::B), x)),
        2 | 3 => takes(core, Event::Build(line(Phase::B), x)),
        4 => takes(core, Event::Filter(line(Phase::V))),
        5 => takes(core, Event::Filter(line(Phase::H))),
        6 => takes(core, Event::Filter(line(Phase::S))),
        _ => takes(core, Event::Draw),
    }
}

/// How many events are taken until none is told to be ready, which is to be once all is done.
fn events_to_the_end(core: &mut Core, seed: u64) -> Option<u32> {
    let mut generator = Lcg64Xsh32::seed_from_u64(seed);
    let mut events = 0u32;
    for _ in 0..100_000 {
        if takes_drawn(core, generator.next_word()) {
            events = events.saturating_add(1);
            if core.some_ready().is_none() {
                break;
            }
        }
    }
    if core.done() { Some(events) } else { None }
}

/// Whether the flight runs to its end: with two events for each of 18 coding tree units, one for each of 18 filter
/// lines, and Draw for each of 24 lines.
fn is_run(alloc: Global, seed: u64) -> bool {
    let Ok(plan) = plan_of(alloc) else {
        return false;
    };
    match Core::new(alloc, &plan) {
        Ok(mut core) => events_to_the_end(&mut core, seed) == Some(78),
        Err(AllocError) => false,
    }
}

#[test]
fn a_flight_ends_in_any_order(rt: HostRuntime) {
    for seed in 0..4u64 {
        assert!(rt; is_run(rt.alloc(), seed));
    }
}
