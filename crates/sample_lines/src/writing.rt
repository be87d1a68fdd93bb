//! Lines of samples into the words of their unit.

ghost use Rattle.std.specs.Prelude.{ℕ, ◌≡◌, ◌+◌, ◌*◌, ◌<◌, ◌≤◌, length, slice_index};
ghost use Rattle.hv_base.specs.declared.line.Phase.TheVariants.{S};
ghost use Rattle.sample_words.specs.Contents.{component_words, components_before};
ghost use Rattle.sample_words.specs.Sizes.{line_words};
ghost use Rattle.progress_words.specs.Passes.{IsPassOf, Knows, view};
ghost use Rattle.progress_words.specs.Rule.{IsNext};
ghost use Rattle.progress_words.specs.Views.{seen_of};
ghost use Rattle.line_words.specs.Passes.{writing_run};
ghost use Rattle.line_words.specs.Places.{number_at};
ghost use Rattle.flight_facts.specs.Boards.{flight_meaning};
ghost use Rattle.flight_facts.specs.Facts.{flight_in};
ghost use Rattle.flight_facts.specs.Flights.{IsOfFlight};
ghost use Rattle.sample_lines.specs.Lines.{height_at, luma_height, luma_width, sample_index, sample_of, width_at};

use crate::packing::write_words;
use crate::shapes::{height_at, sample_index, width_at};
use flight_facts::FlightFacts;
use line_words::UnitPlace;
use progress_words::{Board, Pass};
use sample_words::Layout;

/// Writes all lines of a component of a row behind all loop filters, which is the next unit of the line held, and whose
/// words are the next ones. The samples are those of the lines, one after the other.
pub fn write_lines(
    board: &Board<'_, FlightFacts>,
    pass: &mut Pass<FlightFacts>,
    layout: &Layout,
    at: &UnitPlace,
    c: usize,
    samples: &[u16],
)
    requires own { IsPassOf board.now pass.old }
    requires flight { IsOfFlight board.now.flight layout.now }
    requires place { at.now.sizes ≡ layout.now }
    requires next { IsNext (flight_meaning (flight_in board.now.flight)) (view pass.old) (number_at at.now) }
    requires phase { at.now.line.phase ≡ S }
    requires unit { seen_of (view pass.old) (number_at at.now) ≡ at.now.unit }
    requires component { c < 3 }
    requires written { (view pass.old).written
        ≡ components_before layout.now (luma_width at.now) (luma_height at.now) c }
    requires whole { length samples.now ≡ width_at at.now c * height_at at.now c }
    requires value { (x y : ℕ) → x < width_at at.now c → y < height_at at.now c
        → slice_index samples.now (width_at at.now c * y + x) ≡ sample_of (flight_in board.now.flight) at.now c x y }
    ensures { Knows pass.old pass.new
        (writing_run (view pass.old) (component_words layout.now (luma_width at.now) (luma_height at.now) c)) }
{
    let width = width_at(layout, at, c);
    let height = height_at(layout, at, c);
    for y in 0..height {
        let from = width * y;
        write_line(board, pass, layout, at, c, y, &samples[from..from + width]);
    }
}

/// Writes one of its lines.
fn write_line(
    board: &Board<'_, FlightFacts>,
    pass: &mut Pass<FlightFacts>,
    layout: &Layout,
    at: &UnitPlace,
    c: usize,
    line: usize,
    samples: &[u16],
)
    requires own { IsPassOf board.now pass.old }
    requires flight { IsOfFlight board.now.flight layout.now }
    requires place { at.now.sizes ≡ layout.now }
    requires next { IsNext (flight_meaning (flight_in board.now.flight)) (view pass.old) (number_at at.now) }
    requires phase { at.now.line.phase ≡ S }
    requires unit { seen_of (view pass.old) (number_at at.now) ≡ at.now.unit }
    requires component { c < 3 }
    requires line { line < height_at at.now c }
    requires written { (view pass.old).written ≡ sample_index at.now c line 0 }
    requires whole { length samples.now ≡ width_at at.now c }
    requires value { (x : ℕ) → x < width_at at.now c
        → slice_index samples.now x ≡ sample_of (flight_in board.now.flight) at.now c x line }
    ensures { Knows pass.old pass.new
        (writing_run (view pass.old) (line_words layout.now (width_at at.now c))) }
{
    if samples.is_empty() {
        return;
    }
    let first = sample_index(layout, at, c, line, 0);
    write_words(board, pass, layout, at, first, samples);
}
