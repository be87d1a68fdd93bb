//! A flight of one small picture, and one of three tall ones.

use board_core::{Core, Event, needs};
use flight_plan::{FlightPicture, FlightPlan};
use hv_base::{Line, Phase};
use std::alloc::{AllocError, Global};

/// A flight of one picture of two rows of three coding tree units, with entropy coding sync.
fn plan_of(alloc: Global) -> Result<FlightPlan, AllocError> {
    let mut plan = FlightPlan::new(alloc);
    let picture = FlightPicture::new(3, 2, true, Vec::new(alloc), Vec::new(alloc));
    if plan.takes(&picture) {
        plan.push(picture)?;
    }
    Ok(plan)
}

/// Whether a row waits for two units more of the row above, or for all of it at its end.
fn are_needs_told(plan: &FlightPlan) -> bool {
    let line = |row| Line {
        phase: Phase::B,
        picture: 0,
        row,
    };
    let first = needs(plan, Event::Read(line(1), 0));
    let last = needs(plan, Event::Read(line(1), 2));
    first.get(0) == Some((line(0), 2)) && last.get(0) == Some((line(0), 3)) && last.get(1) == None
}

/// Whether the horizontal edges of the first of two rows wait for the vertical ones of both, and for both as they are
/// built.
fn are_filter_needs_told(plan: &FlightPlan) -> bool {
    let line = |phase, row| Line {
        phase,
        picture: 0,
        row,
    };
    let list = needs(plan, Event::Filter(line(Phase::H, 0)));
    let is_vertical = list.get(0) == Some((line(Phase::V, 0), 1))
        && list.get(1) == Some((line(Phase::V, 1), 1));
    let is_built = list.get(2) == Some((line(Phase::B, 0), 3))
        && list.get(3) == Some((line(Phase::B, 1), 3));
    is_vertical && is_built && list.get(4) == None
}

/// How many steps the core takes until it is done.
fn steps_to_the_end(core: &mut Core) -> u32 {
    let mut steps = 0u32;
    for _ in 0..100 {
        if let Some(event) = core.some_ready() {
            core.step(event);
            steps = steps.saturating_add(1);
        }
    }
    if core.done() { steps } else { 0 }
}

/// Whether the core runs itself to the end: with Draw for each of eight lines, two events a coding tree unit and one a
/// filter line.
fn is_run(alloc: Global) -> bool {
    let Ok(plan) = plan_of(alloc) else {
        return false;
    };
    match Core::new(alloc, &plan) {
        Ok(mut core) => are_needs_told(&plan)
            && are_filter_needs_told(&plan)
            && steps_to_the_end(&mut core) == 26,
        Err(AllocError) => false,
    }
}

#[test]
fn the_core_runs_itself_to_the_end(rt: HostRuntime) {
    assert!(rt; is_run(rt.alloc()));
}

/// Takes an event, if it is ready, and answers whether it was.
fn takes(core: &mut Core, event: Event) -> bool {
    let is_ready = core.ready(event);
    if is_ready {
        core.step(event);
    }
    is_ready
}

/// Reads and builds a coding tree unit of a row, and answers whether both were ready.
fn takes_unit(core: &mut Core, row: u32, x: u32) -> bool {
    let line = Line {
        phase: Phase::B,
        picture: 0,
        row,
    };
    takes(core, Event::Read(line, x)) && takes(core, Event::Build(line, x))
}

/// Whether the second of two rows of three units with entropy coding sync runs behind the first by two units: its first
/// unit isn't ready behind one unit of the row above, and is behind two; its last one waits for all three.
fn runs_behind(core: &mut Core) -> bool {
    let is_drawn = takes(core, Event::Draw) && takes(core, Event::Draw);
    let waits_for_two = takes_unit(core, 0, 0) && !takes_unit(core, 1, 0);
    let has_two = takes_unit(core, 0, 1) && takes_unit(core, 1, 0);
    let waits_for_three = !takes_unit(core, 1, 1) && takes_unit(core, 0, 2);
    is_drawn
        && waits_for_two
        && has_two
        && waits_for_three
        && takes_unit(core, 1, 1)
        && takes_unit(core, 1, 2)
}

/// Whether rows run behind one another on a new core.
fn is_wavefront(alloc: Global) -> bool {
    let Ok(plan) = plan_of(alloc) else {
        return false;
    };
    match Core::new(alloc, &plan) {
        Ok(mut core) => runs_behind(&mut core),
        Err(AllocError) => false,
    }
}

#[test]
fn a_row_runs_two_units_behind_the_row_above(rt: HostRuntime) {
    assert!(rt; is_wavefront(rt.alloc()));
}

/// A flight of three pictures of 512 rows of one coding tree unit.
fn tall_plan_of(alloc: Global) -> Result<FlightPlan, AllocError> {
    let mut plan = FlightPlan::new(alloc);
    for _ in 0..3 {
        let picture = FlightPicture::new(1, 512, false, Vec::new(alloc), Vec::new(alloc));
        if plan.takes(&picture) {
            plan.push(picture)?;
        }
    }
    Ok(plan)
}

/// How often a line may be drawn before anything else is done.
fn draws(core: &mut Core) -> u32 {
    let mut count = 0u32;
    for _ in 0..10_000 {
        if core.ready(Event::Draw) {
            core.step(Event::Draw);
            count = count.saturating_add(1);
        }
    }
    count
}

/// Whether each of the lines of tall pictures is drawn: four for each of 3 * 512 rows.
fn are_all_drawn(alloc: Global) -> bool {
    let Ok(plan) = tall_plan_of(alloc) else {
        return false;
    };
    match Core::new(alloc, &plan) {
        Ok(mut core) => plan.units() == 6_144 && draws(&mut core) == 6_144,
        Err(AllocError) => false,
    }
}

#[test]
fn the_lines_of_tall_pictures_are_drawn(rt: HostRuntime) {
    assert!(rt; are_all_drawn(rt.alloc()));
}
