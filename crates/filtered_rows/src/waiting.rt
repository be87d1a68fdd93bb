//! Waiting for all that a row of coding tree blocks needs.

ghost use Rattle.std.specs.Prelude.{◌≡◌, ◌≢◌, ◌+◌, ◌-◌};
ghost use Rattle.hv_base.specs.declared.line.Phase.TheVariants.{B, S};
ghost use Rattle.board_core.specs.Needs.{rows_needs};
ghost use Rattle.progress_words.specs.declared.waiting.Waited.TheVariants.{Ready, Stopped};
ghost use Rattle.progress_words.specs.Passes.{IsPassOf, view};
ghost use Rattle.progress_words.specs.Views.{HasEnded};
ghost use Rattle.line_words.specs.Places.{number_at};
ghost use Rattle.flight_waits.specs.SpecFlights.{flight_rows};
ghost use Rattle.sample_lines.specs.FactsOfFlights.{flight_meaning};
ghost use Rattle.sample_lines.specs.FactsOfFlights.{flight_in};
ghost use Rattle.sample_lines.specs.FactsOfFlights.{IsOfFlight};
ghost use Rattle.flight_waits.specs.Frames.{frame_rows};
ghost use Rattle.flight_waits.specs.Waits.{AreAllKnown, AreSeen, HasWaited, HoldsUnit};
ghost use Rattle.filtered_rows.specs.Phases.{IsReady};

use flight_plan::FlightPlan;
use flight_waits::{wait_for_built_rows, wait_to_filter};
use hv_base::Phase;
use hv_io::Gate;
use line_words::UnitPlace;
use progress_words::{Board, Pass, Waited};
use sample_lines::FlightFacts;
use sample_words::Layout;
use std::sync::Wait;

/// Waits, where a row is taken through all loop filters, for the rows around it as they are built.
fn wait_beside<R: Wait, G: Gate>(
    rt: &R,
    board: &Board<'_, FlightFacts>,
    pass: &mut Pass<FlightFacts>,
    layout: &Layout,
    frame: &FlightPlan,
    at: &UnitPlace,
    gate: &G,
) -> Waited
    requires own { IsPassOf board.now pass.old }
    requires flight { IsOfFlight board.now.flight layout.now }
    requires place { at.now.sizes ≡ layout.now }
    requires frame { frame.now ≡ frame_rows (flight_in board.now.flight).pictures }
    requires known { AreAllKnown board.now.flight (view pass.old) }
    ensures ready { result ≡ Ready → at.now.line.phase ≡ S → AreSeen board.now.flight layout.now (view pass.new)
        (rows_needs (flight_rows (flight_in board.now.flight)) B at.now.line.picture (at.now.line.row - 1)
        (at.now.line.row + 1)) }
    ensures ended { result ≡ Stopped → HoldsUnit (view pass.old) at.now
        → HasEnded (flight_meaning (flight_in board.now.flight)) (view pass.new) }
    ensures own { IsPassOf board.now pass.new }
    ensures waited { HasWaited (view pass.old) (number_at at.now) (view pass.new) }
    ensures known { AreAllKnown board.now.flight (view pass.new) }
{
    match at.line().phase {
        Phase::S => wait_for_built_rows(rt, board, pass, layout, frame, at, gate),
        Phase::B => Waited::Ready,
        Phase::V => Waited::Ready,
        Phase::H => Waited::Ready,
    }
}

/// Waits for what a row needs, and in the last phase for the rows as they are built that it is filtered from.
pub(crate) fn wait_for_row<R: Wait, G: Gate>(
    rt: &R,
    board: &Board<'_, FlightFacts>,
    pass: &mut Pass<FlightFacts>,
    layout: &Layout,
    frame: &FlightPlan,
    at: &UnitPlace,
    gate: &G,
) -> Waited
    requires own { IsPassOf board.now pass.old }
    requires flight { IsOfFlight board.now.flight layout.now }
    requires place { at.now.sizes ≡ layout.now }
    requires frame { frame.now ≡ frame_rows (flight_in board.now.flight).pictures }
    requires phase { at.now.line.phase ≢ B }
    requires known { AreAllKnown board.now.flight (view pass.old) }
    ensures ready { result ≡ Ready → IsReady board.now.flight layout.now (view pass.new) at.now.line }
    ensures ended { result ≡ Stopped → HoldsUnit (view pass.old) at.now
        → HasEnded (flight_meaning (flight_in board.now.flight)) (view pass.new) }
    ensures own { IsPassOf board.now pass.new }
    ensures waited { HasWaited (view pass.old) (number_at at.now) (view pass.new) }
    ensures known { AreAllKnown board.now.flight (view pass.new) }
{
    match wait_to_filter(rt, board, pass, layout, frame, at, gate) {
        Waited::Ready => wait_beside(rt, board, pass, layout, frame, at, gate),
        Waited::Stopped => Waited::Stopped,
    }
}
