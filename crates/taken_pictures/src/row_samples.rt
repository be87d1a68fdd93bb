//! The samples of a row of coding tree blocks behind all loop filters, out of the row's words.

ghost use Rattle.std.specs.Prelude.{◌≡◌, ℕ, ◌+◌, ◌*◌, ◌<◌, ◌≤◌, ◌==◌, false, length, slice_index, if◌then◌else◌};
ghost use Rattle.hv_base.specs.declared.line.Phase.TheVariants.{S};
ghost use Rattle.picture_buffer.specs.Planes.{HasSides, samples_of};
ghost use Rattle.sample_words.specs.Contents.{component_side};
ghost use Rattle.progress_words.specs.Passes.{IsPassOf, Knows, view};
ghost use Rattle.progress_words.specs.Views.{seen_of};
ghost use Rattle.line_words.specs.Places.{number_at};
ghost use Rattle.sample_lines.specs.FactsOfFlights.{flight_in};
ghost use Rattle.sample_lines.specs.FactsOfFlights.{IsOfFlight, samples_at};
ghost use Rattle.taken_pictures.specs.Rows.{is_line_of_row};

use line_words::UnitPlace;
use picture_buffer::Planes;
use progress_words::{Board, Pass};
use sample_lines::{FlightFacts, read_lines};
use sample_words::Layout;

/// Takes the samples of a row behind all loop filters, which the pass has seen counted, into planes of the picture's
/// size. The lines of other rows stay.
pub fn take_row_samples(
    board: &Board<'_, FlightFacts>,
    pass: &mut Pass<FlightFacts>,
    layout: &Layout,
    at: &UnitPlace,
    planes: &mut Planes,
)
    requires own { IsPassOf board.now pass.old }
    requires flight { IsOfFlight board.now.flight layout.now }
    requires place { at.now.sizes ≡ layout.now }
    requires phase { at.now.line.phase ≡ S }
    requires seen { at.now.unit < seen_of (view pass.old) (number_at at.now) }
    requires sides { HasSides planes.old layout.now.width layout.now.height }
    ensures sides { HasSides planes.new layout.now.width layout.now.height }
    ensures samples { (c x y : ℕ) → c < 3 → x < component_side c layout.now.width
        → y < component_side c layout.now.height
        → samples_of planes.new c x y
        ≡ (if is_line_of_row layout.now c at.now.line.row y
        then samples_at (flight_in board.now.flight) at.now.line.picture S c x y
        else samples_of planes.old c x y) }
    ensures same { Knows pass.old pass.new (view pass.old) }
{
    for c in 0..3 {
        take_component(board, pass, layout, at, c, planes);
    }
}

/// Takes those of one component.
fn take_component(
    board: &Board<'_, FlightFacts>,
    pass: &mut Pass<FlightFacts>,
    layout: &Layout,
    at: &UnitPlace,
    c: usize,
    planes: &mut Planes,
)
    requires own { IsPassOf board.now pass.old }
    requires flight { IsOfFlight board.now.flight layout.now }
    requires place { at.now.sizes ≡ layout.now }
    requires phase { at.now.line.phase ≡ S }
    requires seen { at.now.unit < seen_of (view pass.old) (number_at at.now) }
    requires component { c < 3 }
    requires sides { HasSides planes.old layout.now.width layout.now.height }
    ensures sides { HasSides planes.new layout.now.width layout.now.height }
    ensures value { (x y : ℕ) → x < component_side c layout.now.width → y < component_side c layout.now.height
        → samples_of planes.new c x y
        ≡ (if is_line_of_row layout.now c at.now.line.row y
        then samples_at (flight_in board.now.flight) at.now.line.picture S c x y
        else samples_of planes.old c x y) }
    ensures others { (i x y : ℕ) → (i == c) ≡ false → samples_of planes.new i x y ≡ samples_of planes.old i x y }
    ensures same { Knows pass.old pass.new (view pass.old) }
{
    let plane = planes.samples_mut(c);
    lay_component(board, pass, layout, at, c, plane);
}

/// Lays those of one component among all samples that the picture has of it.
fn lay_component(
    board: &Board<'_, FlightFacts>,
    pass: &mut Pass<FlightFacts>,
    layout: &Layout,
    at: &UnitPlace,
    c: usize,
    plane: &mut [u16],
)
    requires own { IsPassOf board.now pass.old }
    requires flight { IsOfFlight board.now.flight layout.now }
    requires place { at.now.sizes ≡ layout.now }
    requires phase { at.now.line.phase ≡ S }
    requires seen { at.now.unit < seen_of (view pass.old) (number_at at.now) }
    requires component { c < 3 }
    requires whole { length plane.old ≡ component_side c layout.now.width * component_side c layout.now.height }
    ensures count { length plane.new ≡ length plane.old }
    ensures value { (x y : ℕ) → x < component_side c layout.now.width → y < component_side c layout.now.height
        → slice_index plane.new (component_side c layout.now.width * y + x)
        ≡ (if is_line_of_row layout.now c at.now.line.row y
        then samples_at (flight_in board.now.flight) at.now.line.picture S c x y
        else slice_index plane.old (component_side c layout.now.width * y + x)) }
    ensures same { Knows pass.old pass.new (view pass.old) }
{
    let line = at.line();
    let row = u64::from(line.row);
    let _rows = layout.rows();
    let sizes = layout.sizes();
    let side = layout.ctb_size() as u32;
    let lines = layout.height_of(row) as u32;
    let width = component_side(c, sizes.width) as usize;
    let first = component_side(c, line.row * side) as usize;
    let count = component_side(c, lines) as usize;
    let start = width * first;
    let end = start + width * count;
    read_lines(board, pass, layout, at, c, 0, count, &mut plane[start..end]);
}

/// A component's side, by that of luma.
#[inline(always)]
fn component_side(c: usize, side: u32) -> u32
    ensures value { result ≡ component_side c side }
    ensures few { result ≤ side }
{
    if c == 0 { side } else { side / 2 }
}
