//! Waiting for what the next unit of a line needs.

ghost use Rattle.std.specs.Prelude.{◌≡◌, ◌≢◌, ◌+◌, ◌-◌, ◌<◌, Some};
ghost use Rattle.hv_base.specs.declared.line.Phase.TheVariants.{B, S};
ghost use Rattle.flight_plan.specs.Flight.{IsEarlier};
ghost use Rattle.flight_plan.specs.declared.row_range.Reference.TheVariants.{Flight};
ghost use Rattle.board_core.specs.Needs.{filter_needs, range_needs, read_needs, row_needs, rows_needs};
ghost use Rattle.board_core.specs.Places.{line_of};
ghost use Rattle.progress_words.specs.declared.waiting.Waited.TheVariants.{Ready, Stopped};
ghost use Rattle.progress_words.specs.Passes.{IsPassOf, view};
ghost use Rattle.progress_words.specs.Views.{HasEnded};
ghost use Rattle.flight_lines.specs.Numbers.{AreOfFlight, numbered_needs};
ghost use Rattle.line_words.specs.Passes.{NameOthers};
ghost use Rattle.line_words.specs.Places.{number_at};
ghost use Rattle.flight_facts.specs.SpecFlights.{flight_rows};
ghost use Rattle.flight_facts.specs.Boards.{flight_meaning};
ghost use Rattle.flight_facts.specs.Facts.{flight_in};
ghost use Rattle.flight_facts.specs.Flights.{IsOfFlight};
ghost use Rattle.flight_waits.specs.Frames.{frame_rows};
ghost use Rattle.flight_waits.specs.Waits.{AreAllKnown, AreSeen, HasWaited, HoldsUnit};

use board_core::Needs;
use flight_facts::FlightFacts;
use flight_lines::{needs_to_count, needs_to_read};
use flight_plan::{FlightPlan, RowRange};
use hv_base::{Line, Phase};
use hv_io::Gate;
use line_words::{UnitPlace, wait_for};
use progress_words::{Board, Pass, Waited};
use sample_words::Layout;
use std::sync::Wait;

/// Waits until needs of the next unit of the line held are seen, which name other lines, or a fault is found before it.
fn wait_at<R: Wait, G: Gate>(
    rt: &R,
    board: &Board<'_, FlightFacts>,
    pass: &mut Pass<FlightFacts>,
    layout: &Layout,
    needs: &Needs<'_>,
    at: &UnitPlace,
    gate: &G,
) -> Waited
    requires own { IsPassOf board.now pass.old }
    requires flight { IsOfFlight board.now.flight layout.now }
    requires place { at.now.sizes ≡ layout.now }
    requires lines { AreOfFlight layout.now needs.now }
    requires others { NameOthers (number_at at.now) (numbered_needs layout.now needs.now) }
    requires known { AreAllKnown board.now.flight (view pass.old) }
    ensures ready { result ≡ Ready → AreSeen board.now.flight layout.now (view pass.new) needs.now }
    ensures ended { result ≡ Stopped → HoldsUnit (view pass.old) at.now
        → HasEnded (flight_meaning (flight_in board.now.flight)) (view pass.new) }
    ensures own { IsPassOf board.now pass.new }
    ensures waited { HasWaited (view pass.old) (number_at at.now) (view pass.new) }
    ensures known { AreAllKnown board.now.flight (view pass.new) }
{
    let unit = at.unit_number();
    wait_for(rt, board, pass, layout, needs, unit, gate)
}

/// Waits for what a coding tree unit needs to be read: units of the row above.
pub fn wait_to_read<R: Wait, G: Gate>(
    rt: &R,
    board: &Board<'_, FlightFacts>,
    pass: &mut Pass<FlightFacts>,
    layout: &Layout,
    frame: &FlightPlan,
    at: &UnitPlace,
    gate: &G,
) -> Waited
    requires own { IsPassOf board.now pass.old }
    requires flight { IsOfFlight board.now.flight layout.now }
    requires place { at.now.sizes ≡ layout.now }
    requires frame { frame.now ≡ frame_rows (flight_in board.now.flight).pictures }
    requires known { AreAllKnown board.now.flight (view pass.old) }
    ensures ready { result ≡ Ready → AreSeen board.now.flight layout.now (view pass.new)
        (read_needs (flight_rows (flight_in board.now.flight)) at.now.line at.now.unit) }
    ensures ended { result ≡ Stopped → HoldsUnit (view pass.old) at.now
        → HasEnded (flight_meaning (flight_in board.now.flight)) (view pass.new) }
    ensures own { IsPassOf board.now pass.new }
    ensures waited { HasWaited (view pass.old) (number_at at.now) (view pass.new) }
    ensures known { AreAllKnown board.now.flight (view pass.new) }
{
    let needs = needs_to_read(frame, at.line(), at.unit());
    wait_at(rt, board, pass, layout, &needs, at, gate)
}

/// Waits for what a row needs to be filtered: those that its phase reads.
pub fn wait_to_filter<R: Wait, G: Gate>(
    rt: &R,
    board: &Board<'_, FlightFacts>,
    pass: &mut Pass<FlightFacts>,
    layout: &Layout,
    frame: &FlightPlan,
    at: &UnitPlace,
    gate: &G,
) -> Waited
    requires own { IsPassOf board.now pass.old }
    requires flight { IsOfFlight board.now.flight layout.now }
    requires place { at.now.sizes ≡ layout.now }
    requires frame { frame.now ≡ frame_rows (flight_in board.now.flight).pictures }
    requires phase { at.now.line.phase ≢ B }
    requires known { AreAllKnown board.now.flight (view pass.old) }
    ensures ready { result ≡ Ready → AreSeen board.now.flight layout.now (view pass.new)
        (filter_needs (flight_rows (flight_in board.now.flight)) at.now.line) }
    ensures ended { result ≡ Stopped → HoldsUnit (view pass.old) at.now
        → HasEnded (flight_meaning (flight_in board.now.flight)) (view pass.new) }
    ensures own { IsPassOf board.now pass.new }
    ensures waited { HasWaited (view pass.old) (number_at at.now) (view pass.new) }
    ensures known { AreAllKnown board.now.flight (view pass.new) }
{
    let needs = needs_to_count(frame, at.line(), 0);
    wait_at(rt, board, pass, layout, &needs, at, gate)
}

/// Waits, for a row that is filtered by sample adaptive offset, for the row and those above and below it as they are
/// built: their units tell which slices they are of. What the row needs comes behind these, so the wait is short.
pub fn wait_for_built_rows<R: Wait, G: Gate>(
    rt: &R,
    board: &Board<'_, FlightFacts>,
    pass: &mut Pass<FlightFacts>,
    layout: &Layout,
    frame: &FlightPlan,
    at: &UnitPlace,
    gate: &G,
) -> Waited
    requires own { IsPassOf board.now pass.old }
    requires flight { IsOfFlight board.now.flight layout.now }
    requires place { at.now.sizes ≡ layout.now }
    requires frame { frame.now ≡ frame_rows (flight_in board.now.flight).pictures }
    requires phase { at.now.line.phase ≡ S }
    requires known { AreAllKnown board.now.flight (view pass.old) }
    ensures ready { result ≡ Ready → AreSeen board.now.flight layout.now (view pass.new)
        (rows_needs (flight_rows (flight_in board.now.flight)) B at.now.line.picture (at.now.line.row - 1)
        (at.now.line.row + 1)) }
    ensures ended { result ≡ Stopped → HoldsUnit (view pass.old) at.now
        → HasEnded (flight_meaning (flight_in board.now.flight)) (view pass.new) }
    ensures own { IsPassOf board.now pass.new }
    ensures waited { HasWaited (view pass.old) (number_at at.now) (view pass.new) }
    ensures known { AreAllKnown board.now.flight (view pass.new) }
{
    let line = at.line();
    let beside = line_of(Phase::H, line.picture, line.row);
    let needs = needs_to_count(frame, beside, 0);
    wait_at(rt, board, pass, layout, &needs, at, gate)
}

/// Waits for the row of a coding tree unit in an earlier picture of the flight, as it is built.
pub fn wait_for_collocated_row<R: Wait, G: Gate>(
    rt: &R,
    board: &Board<'_, FlightFacts>,
    pass: &mut Pass<FlightFacts>,
    layout: &Layout,
    frame: &FlightPlan,
    at: &UnitPlace,
    picture: u32,
    gate: &G,
) -> Waited
    requires own { IsPassOf board.now pass.old }
    requires flight { IsOfFlight board.now.flight layout.now }
    requires place { at.now.sizes ≡ layout.now }
    requires frame { frame.now ≡ frame_rows (flight_in board.now.flight).pictures }
    requires earlier { picture < at.now.line.picture }
    requires known { AreAllKnown board.now.flight (view pass.old) }
    ensures ready { result ≡ Ready → AreSeen board.now.flight layout.now (view pass.new)
        (row_needs (flight_rows (flight_in board.now.flight)) (Some (Flight picture)) at.now.line.row) }
    ensures ended { result ≡ Stopped → HoldsUnit (view pass.old) at.now
        → HasEnded (flight_meaning (flight_in board.now.flight)) (view pass.new) }
    ensures own { IsPassOf board.now pass.new }
    ensures waited { HasWaited (view pass.old) (number_at at.now) (view pass.new) }
    ensures known { AreAllKnown board.now.flight (view pass.new) }
{
    let line = line_of(Phase::V, picture, at.line().row);
    let needs = needs_to_count(frame, line, 0);
    wait_at(rt, board, pass, layout, &needs, at, gate)
}

/// Waits for rows of a reference picture behind all loop filters. Those of a picture from before the flight are there.
pub fn wait_for_final_rows<R: Wait, G: Gate>(
    rt: &R,
    board: &Board<'_, FlightFacts>,
    pass: &mut Pass<FlightFacts>,
    layout: &Layout,
    frame: &FlightPlan,
    at: &UnitPlace,
    range: RowRange,
    gate: &G,
) -> Waited
    requires own { IsPassOf board.now pass.old }
    requires flight { IsOfFlight board.now.flight layout.now }
    requires place { at.now.sizes ≡ layout.now }
    requires frame { frame.now ≡ frame_rows (flight_in board.now.flight).pictures }
    requires earlier { IsEarlier at.now.line.picture range.picture }
    requires known { AreAllKnown board.now.flight (view pass.old) }
    ensures ready { result ≡ Ready → AreSeen board.now.flight layout.now (view pass.new)
        (range_needs (flight_rows (flight_in board.now.flight)) range) }
    ensures ended { result ≡ Stopped → HoldsUnit (view pass.old) at.now
        → HasEnded (flight_meaning (flight_in board.now.flight)) (view pass.new) }
    ensures own { IsPassOf board.now pass.new }
    ensures waited { HasWaited (view pass.old) (number_at at.now) (view pass.new) }
    ensures known { AreAllKnown board.now.flight (view pass.new) }
{
    let _line = at.line();
    let ranges = [range];
    let needs = Needs::new(frame, None, None, None, &ranges);
    wait_at(rt, board, pass, layout, &needs, at, gate)
}

/// The line of a phase of a row of a picture.
fn line_of(phase: Phase, picture: u32, row: u32) -> Line
    ensures { result ≡ line_of phase picture row }
{
    Line {
        phase,
        picture,
        row,
    }
}
