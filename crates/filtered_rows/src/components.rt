//! A component of a row of coding tree blocks behind all loop filters.

ghost use Rattle.std.specs.Prelude.{◌≡◌, ◌≤◌, length};
ghost use Rattle.hv_base.specs.declared.line.Phase.TheVariants.{S};
ghost use Rattle.loop_filters.specs.Formats.{IsComponent};
ghost use Rattle.row_filters.specs.Around.{place_in, unit_in};
ghost use Rattle.row_filters.specs.Known.{ArePlaces, AreUnits};
ghost use Rattle.row_filters.specs.Lines.{HoldRow, count_of};
ghost use Rattle.sample_words.specs.Contents.{component_words, components_before};
ghost use Rattle.progress_words.specs.Passes.{IsPassOf, Knows, view};
ghost use Rattle.progress_words.specs.Rule.{IsNext};
ghost use Rattle.progress_words.specs.Views.{seen_of};
ghost use Rattle.flight_waits.specs.SpecFlights.{folded_at};
ghost use Rattle.line_words.specs.Passes.{writing_run};
ghost use Rattle.line_words.specs.Places.{number_at};
ghost use Rattle.sample_lines.specs.FactsOfFlights.{flight_meaning};
ghost use Rattle.sample_lines.specs.FactsOfFlights.{flight_in};
ghost use Rattle.sample_lines.specs.FactsOfFlights.{IsOfFlight, samples_at};
ghost use Rattle.sample_lines.specs.Lines.{luma_height, luma_width};
ghost use Rattle.filtered_rows.specs.Components.{AreRowsBuilt, HasSidesOf, IsFormatAt};

use crate::around::read_rows_around;
use crate::row_lines::row_top;
use line_words::UnitPlace;
use loop_filters::Component;
use progress_words::{Board, Pass};
use row_filters::{RowPlaces, final_lines};
use sample_lines::{FlightFacts, write_lines};
use sample_words::Layout;

/// Writes a component of a row, whose lines stand in memory among so many beside them.
fn write_row(
    board: &Board<'_, FlightFacts>,
    pass: &mut Pass<FlightFacts>,
    layout: &Layout,
    at: &UnitPlace,
    component: &Component,
    beside: usize,
    lines: &[u16],
)
    requires own { IsPassOf board.now pass.old }
    requires flight { IsOfFlight board.now.flight layout.now }
    requires place { at.now.sizes ≡ layout.now }
    requires phase { at.now.line.phase ≡ S }
    requires next { IsNext (flight_meaning (flight_in board.now.flight)) (view pass.old) (number_at at.now) }
    requires unit { seen_of (view pass.old) (number_at at.now) ≡ at.now.unit }
    requires written { (view pass.old).written
        ≡ components_before layout.now (luma_width at.now) (luma_height at.now) component.now.c }
    requires component { HasSidesOf layout.now component.now }
    requires beside { beside ≤ 4 }
    requires room { length lines.now ≡ count_of component.now at.now.line.row beside }
    requires value { HoldRow component.now at.now.line.row beside
        (samples_at (flight_in board.now.flight) at.now.line.picture at.now.line.phase component.now.c) lines.now }
    ensures { Knows pass.old pass.new (writing_run (view pass.old)
        (component_words layout.now (luma_width at.now) (luma_height at.now) component.now.c)) }
{
    let line = at.line();
    let top = row_top(layout, component, line.row);
    let above = top.min(beside);
    let behind = above + component.size.min(component.height - top);
    let from = component.width * above;
    let to = component.width * behind;
    write_lines(board, pass, layout, at, component.c, &lines[from..to]);
}

/// Takes a component of a row through all loop filters: its lines as they are built, with four above and four below
/// them, are read and filtered in memory, and the row's own are written. `copy` is room for the row's lines with one
/// above and one below them. The words of the components before it are written.
pub fn final_component(
    board: &Board<'_, FlightFacts>,
    pass: &mut Pass<FlightFacts>,
    layout: &Layout,
    at: &UnitPlace,
    places: &RowPlaces,
    component: &Component,
    lines: &mut [u16],
    copy: &mut [u16],
)
    requires own { IsPassOf board.now pass.old }
    requires flight { IsOfFlight board.now.flight layout.now }
    requires place { at.now.sizes ≡ layout.now }
    requires phase { at.now.line.phase ≡ S }
    requires next { IsNext (flight_meaning (flight_in board.now.flight)) (view pass.old) (number_at at.now) }
    requires unit { seen_of (view pass.old) (number_at at.now) ≡ at.now.unit }
    requires written { (view pass.old).written
        ≡ components_before layout.now (luma_width at.now) (luma_height at.now) component.now.c }
    requires seen { AreRowsBuilt layout.now (view pass.old) at.now.line }
    requires format { IsFormatAt (flight_in board.now.flight) at.now.line.picture places.now.format }
    requires component { IsComponent places.now.format component.now }
    requires known { ArePlaces places.now.format at.now.line.row 2
        (folded_at (flight_in board.now.flight) at.now.line.picture).filters.places (place_in places.now) }
    requires units { AreUnits places.now.format component.now.c at.now.line.row
        (folded_at (flight_in board.now.flight) at.now.line.picture).filters.units (unit_in places.now) }
    requires room { length lines.old ≡ count_of component.now at.now.line.row 4 }
    requires copy { count_of component.now at.now.line.row 1 ≤ length copy.old }
    ensures { Knows pass.old pass.new (writing_run (view pass.old)
        (component_words layout.now (luma_width at.now) (luma_height at.now) component.now.c)) }
{
    let line = at.line();
    read_rows_around(board, pass, layout, line, component, 4, lines);
    final_lines(places, component, line.row as usize, lines, copy);
    write_row(board, pass, layout, at, component, 4, lines);
}
