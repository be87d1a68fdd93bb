//! Lines of a unit, laid among those of its picture.

ghost use Rattle.std.specs.Prelude.{ℕ, ◌≡◌, ◌+◌, ◌*◌, ◌<◌, ◌≤◌, length, slice_index, true};
ghost use Rattle.sample_words.specs.Words.{has_words};
ghost use Rattle.progress_words.specs.Passes.{IsPassOf, Knows, view};
ghost use Rattle.progress_words.specs.Views.{seen_of};
ghost use Rattle.line_words.specs.Places.{number_at};
ghost use Rattle.flight_facts.specs.Facts.{flight_in};
ghost use Rattle.flight_facts.specs.Flights.{IsOfFlight};
ghost use Rattle.sample_lines.specs.Lines.{height_at, sample_of, width_at};

use crate::samples::read_samples;
use crate::shapes::{height_at, width_at};
use flight_facts::FlightFacts;
use line_words::UnitPlace;
use progress_words::{Board, Pass};
use sample_words::Layout;

/// Lines of a component of a unit, and where they are laid.
#[derive(Clone, Copy)]
pub(crate) struct LaidLines {
    /// The component.
    pub(crate) c: usize,
    /// The first of them, counted from the unit's first line.
    pub(crate) first: usize,
    /// How many they are.
    pub(crate) count: usize,
    /// How many samples the lines have among which they are laid.
    pub(crate) stride: usize,
    /// The column in these of their first sample.
    pub(crate) left: usize,
}

/// Lays lines of a unit that the pass has seen counted. What stands before their first column stays.
pub(crate) fn lay_lines(
    board: &Board<'_, FlightFacts>,
    pass: &mut Pass<FlightFacts>,
    layout: &Layout,
    at: &UnitPlace,
    lines: LaidLines,
    out: &mut [u16],
)
    requires own { IsPassOf board.now pass.old }
    requires flight { IsOfFlight board.now.flight layout.now }
    requires place { at.now.sizes ≡ layout.now }
    requires words { has_words at.now.line.phase ≡ true }
    requires seen { at.now.unit < seen_of (view pass.old) (number_at at.now) }
    requires component { lines.c < 3 }
    requires inside { lines.first + lines.count ≤ height_at at.now lines.c }
    requires columns { lines.left + width_at at.now lines.c ≤ lines.stride }
    requires room { length out.old ≡ lines.stride * lines.count }
    ensures count { length out.new ≡ length out.old }
    ensures value { (x y : ℕ) → x < width_at at.now lines.c → y < lines.count
        → slice_index out.new (lines.stride * y + (lines.left + x))
        ≡ sample_of (flight_in board.now.flight) at.now lines.c x (lines.first + y) }
    ensures kept { (x y : ℕ) → x < lines.left
        → slice_index out.new (lines.stride * y + x) ≡ slice_index out.old (lines.stride * y + x) }
    ensures same { Knows pass.old pass.new (view pass.old) }
{
    let width = width_at(layout, at, lines.c);
    let _height = height_at(layout, at, lines.c);
    for y in 0..lines.count {
        let from = lines.stride * y + lines.left;
        let line = lines.first + y;
        read_samples(
            board,
            pass,
            layout,
            at,
            lines.c,
            line,
            0,
            &mut out[from..from + width],
        );
    }
}
