//! Waiting until all that stands in a decoded picture is counted.

ghost use Rattle.std.specs.Prelude.{◌≡◌, ◌-◌, ◌<◌, ◌≤◌};
ghost use Rattle.hv_base.specs.declared.line.Phase.TheVariants.{S};
ghost use Rattle.board_core.specs.Places.{line_of};
ghost use Rattle.sample_words.specs.Sizes.{rows};
ghost use Rattle.sample_words.specs.Words.{IsLine, line_number};
ghost use Rattle.progress_words.specs.declared.waiting.Waited.TheVariants.{Ready, Stopped};
ghost use Rattle.progress_words.specs.Faults.{IsFault, unit_in};
ghost use Rattle.progress_words.specs.Passes.{IsPassOf, view};
ghost use Rattle.progress_words.specs.Views.{seen_of};
ghost use Rattle.flight_lines.specs.Numbers.{unit_number};
ghost use Rattle.line_words.specs.Passes.{AreAllSound};
ghost use Rattle.sample_lines.specs.FactsOfFlights.{flight_meaning};
ghost use Rattle.sample_lines.specs.FactsOfFlights.{flight_in};
ghost use Rattle.sample_lines.specs.FactsOfFlights.{IsOfFlight};
ghost use Rattle.taken_pictures.specs.Pictures.{HasSeenMore, IsPictureSeen, IsBuiltAndFinal};

use crate::picture_lines::{built_line, final_line};
use flight_lines::{line_number, unit_number};
use hv_base::{Line, UnitNumber};
use hv_io::Gate;
use progress_words::{Board, Pass, Waited};
use sample_lines::FlightFacts;
use sample_words::Layout;
use std::sync::Wait;

/// Waits until all coding tree units of a picture of the flight are counted, and all its rows behind all loop filters,
/// or a fault is found in it or before it. It is meant for a pass that has come back from all jobs.
pub fn see_picture<R: Wait, G: Gate>(
    rt: &R,
    board: &Board<'_, FlightFacts>,
    pass: &mut Pass<FlightFacts>,
    layout: &Layout,
    picture: u32,
    gate: &G,
) -> Waited
    requires own { IsPassOf board.now pass.old }
    requires flight { IsOfFlight board.now.flight layout.now }
    requires picture { picture < layout.now.pictures }
    requires known { AreAllSound (flight_meaning (flight_in board.now.flight)) (view pass.old) }
    ensures ready { result ≡ Ready → IsPictureSeen layout.now (view pass.new) picture }
    ensures stopped { result ≡ Stopped
        → (unit_in (view pass.new).least < unit_number layout.now (line_of S picture (rows layout.now - 1)) 0)
        × IsFault (flight_meaning (flight_in board.now.flight)) (view pass.new).least }
    ensures own { IsPassOf board.now pass.new }
    ensures kept { HasSeenMore (view pass.old) (view pass.new) }
    ensures known { AreAllSound (flight_meaning (flight_in board.now.flight)) (view pass.new) }
{
    let rows = layout.rows() as u32;
    let lowest = final_line(picture, rows - 1);
    let last = unit_number(layout, lowest, 0);
    for row in 0..rows {
        match see_row(rt, board, pass, layout, picture, row, last, gate) {
            Waited::Ready => {}
            Waited::Stopped => return Waited::Stopped,
        }
    }
    Waited::Ready
}

/// The same of one row, unless a fault is found before a unit.
fn see_row<R: Wait, G: Gate>(
    rt: &R,
    board: &Board<'_, FlightFacts>,
    pass: &mut Pass<FlightFacts>,
    layout: &Layout,
    picture: u32,
    row: u32,
    unit: UnitNumber,
    gate: &G,
) -> Waited
    requires own { IsPassOf board.now pass.old }
    requires flight { IsOfFlight board.now.flight layout.now }
    requires picture { picture < layout.now.pictures }
    requires row { row < rows layout.now }
    requires known { AreAllSound (flight_meaning (flight_in board.now.flight)) (view pass.old) }
    ensures ready { result ≡ Ready → IsBuiltAndFinal layout.now (view pass.new) picture row }
    ensures stopped { result ≡ Stopped → (unit_in (view pass.new).least < unit)
        × IsFault (flight_meaning (flight_in board.now.flight)) (view pass.new).least }
    ensures own { IsPassOf board.now pass.new }
    ensures kept { HasSeenMore (view pass.old) (view pass.new) }
    ensures known { AreAllSound (flight_meaning (flight_in board.now.flight)) (view pass.new) }
{
    let columns = layout.columns();
    let built = built_line(picture, row);
    match see_line(rt, board, pass, layout, built, columns, unit, gate) {
        Waited::Ready => {
            let last = final_line(picture, row);
            see_line(rt, board, pass, layout, last, 1, unit, gate)
        }
        Waited::Stopped => Waited::Stopped,
    }
}

/// The same of so many units of one line.
fn see_line<R: Wait, G: Gate>(
    rt: &R,
    board: &Board<'_, FlightFacts>,
    pass: &mut Pass<FlightFacts>,
    layout: &Layout,
    line: Line,
    count: u64,
    unit: UnitNumber,
    gate: &G,
) -> Waited
    requires own { IsPassOf board.now pass.old }
    requires flight { IsOfFlight board.now.flight layout.now }
    requires line { IsLine layout.now line }
    requires known { AreAllSound (flight_meaning (flight_in board.now.flight)) (view pass.old) }
    ensures ready { result ≡ Ready → count ≤ seen_of (view pass.new) (line_number layout.now line) }
    ensures stopped { result ≡ Stopped → (unit_in (view pass.new).least < unit)
        × IsFault (flight_meaning (flight_in board.now.flight)) (view pass.new).least }
    ensures own { IsPassOf board.now pass.new }
    ensures kept { HasSeenMore (view pass.old) (view pass.new) }
    ensures known { AreAllSound (flight_meaning (flight_in board.now.flight)) (view pass.new) }
{
    let number = line_number(layout, line);
    board.wait_line(rt, pass, number, count, unit, gate)
}
