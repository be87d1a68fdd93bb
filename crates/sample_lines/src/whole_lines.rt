//! Whole lines of samples out of the words of their unit.

ghost use Rattle.std.specs.Prelude.{ℕ, ◌≡◌, ◌+◌, ◌*◌, ◌<◌, ◌≤◌, length, slice_index};
ghost use Rattle.hv_base.specs.declared.line.Phase.TheVariants.{S};
ghost use Rattle.progress_words.specs.Passes.{IsPassOf, Knows, view};
ghost use Rattle.progress_words.specs.Views.{seen_of};
ghost use Rattle.line_words.specs.Places.{number_at};
ghost use Rattle.flight_facts.specs.Facts.{flight_in};
ghost use Rattle.flight_facts.specs.Flights.{IsOfFlight};
ghost use Rattle.sample_lines.specs.Lines.{height_at, sample_of, width_at};

use crate::laying::{LaidLines, lay_lines};
use crate::shapes::width_at;
use flight_facts::FlightFacts;
use line_words::UnitPlace;
use progress_words::{Board, Pass};
use sample_words::Layout;

/// Whole lines of a component of a row behind all loop filters that the pass has seen counted, one after the other,
/// from a line of the row on: as many as are asked for.
pub fn read_lines(
    board: &Board<'_, FlightFacts>,
    pass: &mut Pass<FlightFacts>,
    layout: &Layout,
    at: &UnitPlace,
    c: usize,
    first: usize,
    lines: usize,
    out: &mut [u16],
)
    requires own { IsPassOf board.now pass.old }
    requires flight { IsOfFlight board.now.flight layout.now }
    requires place { at.now.sizes ≡ layout.now }
    requires phase { at.now.line.phase ≡ S }
    requires seen { at.now.unit < seen_of (view pass.old) (number_at at.now) }
    requires component { c < 3 }
    requires inside { first + lines ≤ height_at at.now c }
    requires room { length out.old ≡ width_at at.now c * lines }
    ensures count { length out.new ≡ length out.old }
    ensures value { (x y : ℕ) → x < width_at at.now c → y < lines
        → slice_index out.new (width_at at.now c * y + x)
        ≡ sample_of (flight_in board.now.flight) at.now c x (first + y) }
    ensures same { Knows pass.old pass.new (view pass.old) }
{
    let width = width_at(layout, at, c);
    let laid = LaidLines {
        c,
        first,
        count: lines,
        stride: width,
        left: 0,
    };
    lay_lines(board, pass, layout, at, laid, out);
}
