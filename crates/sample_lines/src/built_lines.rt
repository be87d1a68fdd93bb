//! Lines of samples of a row of coding tree units.

ghost use Rattle.std.specs.Prelude.{ℕ, ◌≡◌, ◌+◌, ◌*◌, ◌<◌, ◌≤◌, length, slice_index};
ghost use Rattle.hv_base.specs.declared.line.Phase.TheVariants.{B};
ghost use Rattle.sample_words.specs.Contents.{component_side};
ghost use Rattle.sample_words.specs.Sizes.{columns, ctb_size, height_of, width_of};
ghost use Rattle.sample_words.specs.Words.{IsLine, line_number};
ghost use Rattle.progress_words.specs.Passes.{IsPassOf, Knows, view};
ghost use Rattle.progress_words.specs.Views.{seen_of};
ghost use Rattle.flight_facts.specs.Facts.{flight_in};
ghost use Rattle.flight_facts.specs.Flights.{IsOfFlight, samples_at};

use crate::laying::{LaidLines, lay_lines};
use crate::shapes::component_side;
use flight_facts::FlightFacts;
use hv_base::Line;
use line_words::UnitPlace;
use progress_words::{Board, Pass};
use sample_words::Layout;

/// Whole lines of a component of a row of coding tree units, as they are built, all of which the pass has seen counted:
/// one line after the other, from a line of the row on, as many as are asked for.
pub fn read_built_lines(
    board: &Board<'_, FlightFacts>,
    pass: &mut Pass<FlightFacts>,
    layout: &Layout,
    line: Line,
    c: usize,
    first: usize,
    lines: usize,
    out: &mut [u16],
)
    requires own { IsPassOf board.now pass.old }
    requires flight { IsOfFlight board.now.flight layout.now }
    requires line { IsLine layout.now line }
    requires phase { line.phase ≡ B }
    requires seen { columns layout.now ≤ seen_of (view pass.old) (line_number layout.now line) }
    requires component { c < 3 }
    requires inside { first + lines ≤ component_side c (height_of layout.now line.row) }
    requires room { length out.old ≡ component_side c layout.now.width * lines }
    ensures count { length out.new ≡ length out.old }
    ensures value { (x y : ℕ) → x < component_side c layout.now.width → y < lines
        → slice_index out.new (component_side c layout.now.width * y + x)
        ≡ samples_at (flight_in board.now.flight) line.picture B c x
        (component_side c (line.row * ctb_size layout.now) + first + y) }
    ensures same { Knows pass.old pass.new (view pass.old) }
{
    let columns = layout.columns() as u32;
    let stride = component_side(c, layout.sizes().width) as usize;
    let laid = LaidLines {
        c,
        first,
        count: lines,
        stride,
        left: 0,
    };
    for column in 0..columns {
        lay_unit(board, pass, layout, line, column, laid, out);
    }
}

/// The lines of one of its units, in its columns of the lines of the row.
fn lay_unit(
    board: &Board<'_, FlightFacts>,
    pass: &mut Pass<FlightFacts>,
    layout: &Layout,
    line: Line,
    column: u32,
    lines: LaidLines,
    out: &mut [u16],
)
    requires own { IsPassOf board.now pass.old }
    requires flight { IsOfFlight board.now.flight layout.now }
    requires line { IsLine layout.now line }
    requires phase { line.phase ≡ B }
    requires column { column < columns layout.now }
    requires seen { column < seen_of (view pass.old) (line_number layout.now line) }
    requires component { lines.c < 3 }
    requires inside { lines.first + lines.count ≤ component_side lines.c (height_of layout.now line.row) }
    requires stride { lines.stride ≡ component_side lines.c layout.now.width }
    requires room { length out.old ≡ lines.stride * lines.count }
    ensures count { length out.new ≡ length out.old }
    ensures value { (x y : ℕ) → x < component_side lines.c (width_of layout.now column) → y < lines.count
        → slice_index out.new (lines.stride * y + (component_side lines.c (column * ctb_size layout.now) + x))
        ≡ samples_at (flight_in board.now.flight) line.picture B lines.c
        (component_side lines.c (column * ctb_size layout.now) + x)
        (component_side lines.c (line.row * ctb_size layout.now) + (lines.first + y)) }
    ensures kept { (x y : ℕ) → x < component_side lines.c (column * ctb_size layout.now)
        → slice_index out.new (lines.stride * y + x) ≡ slice_index out.old (lines.stride * y + x) }
    ensures same { Knows pass.old pass.new (view pass.old) }
{
    let at = UnitPlace::new(layout, line, column);
    let _columns = layout.columns();
    let side = layout.ctb_size() as u32;
    let left = component_side(lines.c, column * side) as usize;
    lay_lines(board, pass, layout, &at, LaidLines { left, ..lines }, out);
}
