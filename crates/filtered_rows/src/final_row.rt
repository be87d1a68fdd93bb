//! A row of coding tree blocks behind all loop filters.

ghost use Rattle.std.specs.Prelude.{◌≡◌, ◌≤◌, ◌*◌, Some, length, slice_get};
ghost use Rattle.hv_base.specs.declared.line.Phase.TheVariants.{S};
ghost use Rattle.spec_picture_filters.specs.Filtered.{filter_format};
ghost use Rattle.sample_words.specs.Words.{IsLine};
ghost use Rattle.progress_words.specs.Passes.{IsPassOf, Knows, view};
ghost use Rattle.progress_words.specs.Rule.{IsNext};
ghost use Rattle.progress_words.specs.Views.{AllSound, counting, seen_of};
ghost use Rattle.flight_waits.specs.SpecFlights.{folded_at};
ghost use Rattle.line_words.specs.Passes.{writing_run};
ghost use Rattle.line_words.specs.Places.{number_at, words_at};
ghost use Rattle.sample_lines.specs.FactsOfFlights.{flight_meaning};
ghost use Rattle.sample_lines.specs.FactsOfFlights.{flight_in};
ghost use Rattle.sample_lines.specs.FactsOfFlights.{IsOfFlight};
ghost use Rattle.flight_waits.specs.Waits.{AreAllKnown, HoldsUnit};
ghost use Rattle.filtered_rows.specs.Components.{AreRowsBuilt, IsFormatAt};
ghost use Rattle.filtered_rows.specs.Memory.{HasRoomFor};
ghost use Rattle.filtered_rows.specs.Phases.{IsAroundKnown, IsReady};

use crate::components::final_component;
use crate::memory::FilterMemory;
use crate::row_lines::count_of;
use filter_words::{lay_row_places, lay_row_units};
use hv_base::Line;
use line_words::{UnitPlace, count_unit};
use loop_filters::component_of;
use plan_types::PicturePlan;
use progress_words::{Board, Pass};
use row_filters::RowPlaces;
use sample_lines::FlightFacts;
use sample_words::Layout;
use spec_loop_filters::FilterFormat;

/// Lays what the loop filters of a row ask of its places and units and of those of the rows beside it.
pub(crate) fn lay_around(
    board: &Board<'_, FlightFacts>,
    pass: &mut Pass<FlightFacts>,
    layout: &Layout,
    plan: &PicturePlan,
    line: Line,
    around: &mut RowPlaces,
)
    requires own { IsPassOf board.now pass.old }
    requires flight { IsOfFlight board.now.flight layout.now }
    requires picture { slice_get (flight_in board.now.flight).pictures line.picture ≡ Some plan.now }
    requires line { IsLine layout.now line }
    requires phase { line.phase ≡ S }
    requires known { AreAllKnown board.now.flight (view pass.old) }
    requires ready { IsReady board.now.flight layout.now (view pass.old) line }
    requires format { around.old.format ≡ filter_format plan.now }
    ensures format { around.new.format ≡ around.old.format }
    ensures known { IsAroundKnown (folded_at (flight_in board.now.flight) line.picture).filters line.row around.new }
    ensures same { Knows pass.old pass.new (view pass.old) }
{
    lay_row_places(board, pass, layout, plan, line, 2, around);
    lay_row_units(board, pass, layout, plan, line, around);
}

/// Takes all components of a row through the loop filters, and writes its words.
pub(crate) fn filter_components(
    board: &Board<'_, FlightFacts>,
    pass: &mut Pass<FlightFacts>,
    layout: &Layout,
    at: &UnitPlace,
    format: &FilterFormat,
    places: &RowPlaces,
    lines: &mut [u16],
    copy: &mut [u16],
)
    requires own { IsPassOf board.now pass.old }
    requires flight { IsOfFlight board.now.flight layout.now }
    requires place { at.now.sizes ≡ layout.now }
    requires phase { at.now.line.phase ≡ S }
    requires next { IsNext (flight_meaning (flight_in board.now.flight)) (view pass.old) (number_at at.now) }
    requires unit { seen_of (view pass.old) (number_at at.now) ≡ at.now.unit }
    requires written { (view pass.old).written ≡ 0 }
    requires seen { AreRowsBuilt layout.now (view pass.old) at.now.line }
    requires format { IsFormatAt (flight_in board.now.flight) at.now.line.picture format.now }
    requires places { places.now.format ≡ format.now }
    requires known { IsAroundKnown (folded_at (flight_in board.now.flight) at.now.line.picture).filters
        at.now.line.row places.now }
    requires lines { format.now.width * 72 ≤ length lines.old }
    requires copy { format.now.width * 66 ≤ length copy.old }
    ensures { Knows pass.old pass.new (writing_run (view pass.old) (words_at at.now)) }
{
    let line = at.line();
    for c in 0..3usize {
        let component = component_of(format, c);
        let count = count_of(layout, &component, line.row, 4);
        final_component(
            board,
            pass,
            layout,
            at,
            places,
            &component,
            &mut lines[..count],
            copy,
        );
    }
}

/// Takes a row that all it is filtered from is seen of through the loop filters, writes its words, and counts it.
pub(crate) fn finish_row(
    board: &Board<'_, FlightFacts>,
    pass: &mut Pass<FlightFacts>,
    layout: &Layout,
    plan: &PicturePlan,
    format: &FilterFormat,
    at: &UnitPlace,
    memory: &mut FilterMemory,
)
    requires own { IsPassOf board.now pass.old }
    requires flight { IsOfFlight board.now.flight layout.now }
    requires place { at.now.sizes ≡ layout.now }
    requires picture { slice_get (flight_in board.now.flight).pictures at.now.line.picture ≡ Some plan.now }
    requires format { format.now ≡ filter_format plan.now }
    requires phase { at.now.line.phase ≡ S }
    requires holds { HoldsUnit (view pass.old) at.now }
    requires written { (view pass.old).written ≡ 0 }
    requires known { AreAllKnown board.now.flight (view pass.old) }
    requires ready { IsReady board.now.flight layout.now (view pass.old) at.now.line }
    requires memory { HasRoomFor format.now memory.old }
    ensures counted { Knows pass.old pass.new (counting (view pass.old) (number_at at.now) 1) }
    ensures sound { AllSound (flight_meaning (flight_in board.now.flight)) (number_at at.now) 1 }
    ensures memory { HasRoomFor format.now memory.new }
{
    let line = at.line();
    memory.places.set_format(format);
    lay_around(board, pass, layout, plan, line, &mut memory.places);
    filter_components(
        board,
        pass,
        layout,
        at,
        format,
        &memory.places,
        &mut memory.lines,
        &mut memory.copy,
    );
    count_unit(board, pass, at);
}
