//! A row of coding tree blocks in a phase of the loop filters, as a job over a board.

ghost use Rattle.std.specs.Prelude.{◌≡◌, ◌≢◌, ◌≤◌, ℕ, Some, slice_get};
ghost use Rattle.hv_base.specs.declared.line.Phase.TheVariants.{B};
ghost use Rattle.spec_picture_filters.specs.Filtered.{filter_format};
ghost use Rattle.progress_words.specs.Passes.{IsPassOf, Knows, view};
ghost use Rattle.progress_words.specs.Views.{AllSound, HasEnded, counting, seen_of};
ghost use Rattle.line_words.specs.Places.{number_at};
ghost use Rattle.sample_lines.specs.FactsOfFlights.{flight_meaning};
ghost use Rattle.sample_lines.specs.FactsOfFlights.{flight_in};
ghost use Rattle.sample_lines.specs.FactsOfFlights.{IsOfFlight};
ghost use Rattle.flight_waits.specs.Frames.{frame_rows};
ghost use Rattle.flight_waits.specs.Waits.{AreAllKnown, HasSameParts, HoldsUnit};
ghost use Rattle.filtered_rows.specs.Memory.{HasRoomFor};
ghost use Rattle.filtered_rows.specs.Phases.{IsReady};

use crate::final_row::finish_row;
use crate::memory::FilterMemory;
use crate::waiting::wait_for_row;
use flight_plan::FlightPlan;
use hv_base::Phase;
use hv_io::Gate;
use line_words::{UnitPlace, count_unit};
use plan_types::PicturePlan;
use progress_words::{Board, Pass, Waited};
use sample_lines::FlightFacts;
use sample_words::Layout;
use spec_loop_filters::FilterFormat;
use std::sync::Wait;

/// Works off a row that all it needs is seen of. Behind edges it has no words and is counted; behind sample adaptive
/// offset it is taken through all loop filters.
fn filter_ready_row(
    board: &Board<'_, FlightFacts>,
    pass: &mut Pass<FlightFacts>,
    layout: &Layout,
    plan: &PicturePlan,
    format: &FilterFormat,
    at: &UnitPlace,
    memory: &mut FilterMemory,
)
    requires own { IsPassOf board.now pass.old }
    requires flight { IsOfFlight board.now.flight layout.now }
    requires place { at.now.sizes ≡ layout.now }
    requires picture { slice_get (flight_in board.now.flight).pictures at.now.line.picture ≡ Some plan.now }
    requires format { format.now ≡ filter_format plan.now }
    requires phase { at.now.line.phase ≢ B }
    requires holds { HoldsUnit (view pass.old) at.now }
    requires written { (view pass.old).written ≡ 0 }
    requires known { AreAllKnown board.now.flight (view pass.old) }
    requires ready { IsReady board.now.flight layout.now (view pass.old) at.now.line }
    requires memory { HasRoomFor format.now memory.old }
    ensures counted { Knows pass.old pass.new (counting (view pass.old) (number_at at.now) 1) }
    ensures sound { AllSound (flight_meaning (flight_in board.now.flight)) (number_at at.now) 1 }
    ensures memory { HasRoomFor format.now memory.new }
{
    match at.line().phase {
        Phase::B => unreachable!(),
        Phase::V | Phase::H => count_unit(board, pass, at),
        Phase::S => finish_row(board, pass, layout, plan, format, at, memory),
    }
}

/// Works off a row of coding tree blocks in a phase of the loop filters, whose line the pass holds: waits for what the
/// phase needs, filters the row in memory and writes its words if the phase is the last, and counts it. Where a fault
/// is found before the row it ends without.
pub fn filter_row<R: Wait, G: Gate>(
    rt: &R,
    board: &Board<'_, FlightFacts>,
    pass: &mut Pass<FlightFacts>,
    layout: &Layout,
    frame: &FlightPlan,
    plan: &PicturePlan,
    format: &FilterFormat,
    at: &UnitPlace,
    memory: &mut FilterMemory,
    gate: &G,
)
    requires own { IsPassOf board.now pass.old }
    requires flight { IsOfFlight board.now.flight layout.now }
    requires place { at.now.sizes ≡ layout.now }
    requires frame { frame.now ≡ frame_rows (flight_in board.now.flight).pictures }
    requires picture { slice_get (flight_in board.now.flight).pictures at.now.line.picture ≡ Some plan.now }
    requires format { format.now ≡ filter_format plan.now }
    requires phase { at.now.line.phase ≢ B }
    requires holds { HoldsUnit (view pass.old) at.now }
    requires written { (view pass.old).written ≡ 0 }
    requires known { AreAllKnown board.now.flight (view pass.old) }
    requires memory { HasRoomFor format.now memory.old }
    ensures own { IsPassOf board.now pass.new }
    ensures known { AreAllKnown board.now.flight (view pass.new) }
    ensures ended { HasEnded (flight_meaning (flight_in board.now.flight)) (view pass.new) }
    ensures parts { HasSameParts (view pass.old) (view pass.new) }
    ensures more { (l : ℕ) → seen_of (view pass.old) l ≤ seen_of (view pass.new) l }
    ensures memory { HasRoomFor format.now memory.new }
{
    let _line = at.line();
    match wait_for_row(rt, board, pass, layout, frame, at, gate) {
        Waited::Ready => filter_ready_row(board, pass, layout, plan, format, at, memory),
        Waited::Stopped => {}
    }
}
