//! All shares of the pictures of a flight.

ghost use Rattle.std.specs.Prelude.{◌≡◌, ◌+◌, ◌-◌, ◌/◌, ◌≤◌, length};
ghost use Rattle.std.specs.Thread.{IsSync};
ghost use Rattle.taken_pictures.specs.FlightFacts.{flight_in};
ghost use Rattle.flight_workers.specs.Working.{IsGathered};
ghost use Rattle.taken_flights.specs.Taken.{AreParts, AreTaken, HasLookedOn, MayLook, MayTake};

use crate::pairs::take_by_two;
use crate::shares::take_share;
use hv_io::Gate;
use picture_buffer::{MotionField, Planes};
use plan_types::PicturePlan;
use progress_words::{Board, Pass, Waited};
use sample_words::Layout;
use std::sync::Wait;
use std::thread::{Threads, join_mut};
use taken_pictures::FlightFacts;

/// A pass that is back from taking pictures of a flight, and how many were taken.
pub struct Taken {
    /// The pass that was given, to which all that were split off are joined.
    pub pass: Pass<FlightFacts>,
    /// How many pictures were taken, from the first on.
    pub count: u32,
}

/// Takes the decoded pictures of a flight from the one at place `first` on, as many as there are plans, into planes and
/// motion fields of their sizes: shares of pictures that follow one another, side by side on up to so many threads.
/// Where a thread can't be started its caller does that work. It is meant for the pass that is left when all lines are
/// drawn and all other passes joined. Where a fault is found, those pictures are taken that are before the first one
/// with a fault in it or before it.
pub fn take_pictures<R: Threads + Wait + Sync, G: Gate + Sync>(
    rt: &R,
    gate: &G,
    board: &Board<'_, FlightFacts>,
    layout: &Layout,
    plans: &[PicturePlan],
    start: Pass<FlightFacts>,
    first: u32,
    workers: u32,
    parts: &mut [(Planes, MotionField)],
) -> Taken
    requires may { MayTake board.now layout.now start workers }
    requires parts { AreParts (flight_in board.now.flight) first plans.now parts.old }
    ensures gathered { IsGathered board.now start result.pass }
    ensures taken { AreTaken (flight_in board.now.flight) first plans.now parts.old parts.new result.count }
{
    let mut pass = start;
    let count = fan(
        rt, gate, board, layout, plans, first, workers, &mut pass, parts,
    );
    Taken { pass, count }
}

/// The same with a pass that is lent.
#[cycle(shares)]
fn fan<R: Threads + Wait + Sync, G: Gate + Sync>(
    rt: &R,
    gate: &G,
    board: &Board<'_, FlightFacts>,
    layout: &Layout,
    plans: &[PicturePlan],
    first: u32,
    workers: u32,
    pass: &mut Pass<FlightFacts>,
    parts: &mut [(Planes, MotionField)],
) -> u32
    requires may { MayTake board.now layout.now pass.old workers }
    requires parts { AreParts (flight_in board.now.flight) first plans.now parts.old }
    ensures gathered { IsGathered board.now pass.old pass.new }
    ensures taken { AreTaken (flight_in board.now.flight) first plans.now parts.old parts.new result }
{
    if workers == 1 || parts.len() == 0 {
        return take_alone(rt, gate, board, layout, plans, first, pass, parts);
    }
    if parts.len() == 1 {
        return take_last(rt, gate, board, layout, plans, first, pass, parts);
    }
    let share = share_of(parts.len(), workers);
    let next = first + share as u32;
    let (here, there) = plans.split_at(share);
    let (mine, rest) = parts.split_at_mut(share);
    let mut other = board.split(pass);
    let (more, taken) = take_both(
        rt,
        gate,
        board,
        layout,
        here,
        first,
        &mut other,
        mine,
        there,
        next,
        workers - 1,
        pass,
        rest,
    );
    board.join(pass, other);
    if (taken as usize) < share {
        taken
    } else {
        taken + more
    }
}

/// The first share with a pass of its own, and the pictures behind it by one thread less.
#[cycle(shares)]
fn take_both<R: Threads + Wait + Sync, G: Gate + Sync>(
    rt: &R,
    gate: &G,
    board: &Board<'_, FlightFacts>,
    layout: &Layout,
    here: &[PicturePlan],
    first: u32,
    other: &mut Pass<FlightFacts>,
    mine: &mut [(Planes, MotionField)],
    there: &[PicturePlan],
    next: u32,
    workers: u32,
    pass: &mut Pass<FlightFacts>,
    rest: &mut [(Planes, MotionField)],
) -> (u32, u32)
    requires look { MayLook board.now layout.now other.old }
    requires mine { AreParts (flight_in board.now.flight) first here.now mine.old }
    requires may { MayTake board.now layout.now pass.old workers }
    requires rest { AreParts (flight_in board.now.flight) next there.now rest.old }
    ensures gathered { IsGathered board.now pass.old pass.new }
    ensures rest { AreTaken (flight_in board.now.flight) next there.now rest.old rest.new result.0 }
    ensures looked { HasLookedOn board.now other.old other.new }
    ensures mine { AreTaken (flight_in board.now.flight) first here.now mine.old mine.new result.1 }
{
    join_mut(
        rt,
        &mut || -> u32
            requires { IsSync R.row × IsSync G.row × MayTake board.now layout.now pass.now workers
                × AreParts (flight_in board.now.flight) next there.now rest.now }
            ensures { IsGathered board.entry.now pass.entry.now pass.exit.now
                × AreTaken (flight_in board.entry.now.flight) next there.entry.now rest.entry.now rest.exit.now result }
        { fan(rt, gate, board, layout, there, next, workers, pass, rest) },
        &mut || -> u32
            requires { MayLook board.now layout.now other.now
                × AreParts (flight_in board.now.flight) first here.now mine.now }
            ensures { HasLookedOn board.entry.now other.entry.now other.exit.now
                × AreTaken (flight_in board.entry.now.flight) first here.entry.now mine.entry.now mine.exit.now result }
        { take_share(rt, gate, board, layout, here, first, other, mine) },
    )
}

/// All of them with one pass, which is split off and joined again.
fn take_alone<R: Wait, G: Gate>(
    rt: &R,
    gate: &G,
    board: &Board<'_, FlightFacts>,
    layout: &Layout,
    plans: &[PicturePlan],
    first: u32,
    pass: &mut Pass<FlightFacts>,
    parts: &mut [(Planes, MotionField)],
) -> u32
    requires may { MayTake board.now layout.now pass.old 1 }
    requires parts { AreParts (flight_in board.now.flight) first plans.now parts.old }
    ensures gathered { IsGathered board.now pass.old pass.new }
    ensures taken { AreTaken (flight_in board.now.flight) first plans.now parts.old parts.new result }
{
    let mut other = board.split(pass);
    let count = take_share(rt, gate, board, layout, plans, first, &mut other, parts);
    board.join(pass, other);
    count
}

/// One picture, by two passes.
fn take_last<R: Threads + Wait, G: Gate>(
    rt: &R,
    gate: &G,
    board: &Board<'_, FlightFacts>,
    layout: &Layout,
    plans: &[PicturePlan],
    picture: u32,
    pass: &mut Pass<FlightFacts>,
    parts: &mut [(Planes, MotionField)],
) -> u32
    requires may { MayTake board.now layout.now pass.old 2 }
    requires one { length parts.old ≡ 1 }
    requires parts { AreParts (flight_in board.now.flight) picture plans.now parts.old }
    ensures gathered { IsGathered board.now pass.old pass.new }
    ensures taken { AreTaken (flight_in board.now.flight) picture plans.now parts.old parts.new result }
{
    let plan = &plans[0];
    let part = &mut parts[0];
    match take_by_two(rt, gate, board, layout, plan, picture, pass, part) {
        Waited::Ready => 1,
        Waited::Stopped => 0,
    }
}

/// How many pictures of so many the first of some threads takes.
fn share_of(count: usize, workers: u32) -> usize
    requires some { 1 ≤ count }
    requires workers { 1 ≤ workers }
    ensures value { result ≡ (count - 1) / workers + 1 }
    ensures inside { result ≤ count }
{
    (count - 1) / workers as usize + 1
}
