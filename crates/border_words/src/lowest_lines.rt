//! The lowest lines of samples of a coding tree unit, out of its words.

ghost use Rattle.std.specs.Prelude.{◌≡◌, ◌≢◌, ℕ, ◌+◌, ◌*◌, ◌<◌, ◌≤◌, length, slice_index, take};
ghost use Rattle.border_words.specs.Units.{IsTreeUnit};
ghost use Rattle.sample_lines.specs.FactsOfFlights.{flight_in};
ghost use Rattle.sample_lines.specs.FactsOfFlights.{IsOfFlight};
ghost use Rattle.hv_base.specs.declared.line.Phase.TheVariants.{B};
ghost use Rattle.header_types.specs.SequenceParameterSets.{height_in_ctbs};
ghost use Rattle.line_words.specs.Places.{number_at};
ghost use Rattle.progress_words.specs.Passes.{IsPassOf, Knows, view};
ghost use Rattle.progress_words.specs.Views.{seen_of};
ghost use Rattle.row_borders.specs.Borders.{with_above};
ghost use Rattle.row_borders.specs.Next.{HasLine, LaysSamples};
ghost use Rattle.row_borders.specs.Strips.{with_samples};
ghost use Rattle.sample_lines.specs.Lines.{height_at, sample_of, width_at};
ghost use Rattle.sample_words.specs.Contents.{component_side};
ghost use Rattle.spec_flights.specs.Pictures.{folded_at};
ghost use Rattle.spec_picture_build.specs.Border.{width_of};
ghost use Rattle.spec_picture_trees.specs.Places.{unit_places};
ghost use Rattle.spec_picture_trees.specs.Shapes.{picture_shape};
ghost use Rattle.spec_slice_data.specs.Residual.{samples_of_place};

use crate::laws::words_are_of_kept_places;
use line_words::UnitPlace;
use plan_types::PicturePlan;
use progress_words::{Board, Pass};
use row_borders::RowBorder;
use sample_lines::{FlightFacts, read_samples};
use sample_words::Layout;

/// Lays the lowest line of samples of each component of a unit above the row below it.
pub(crate) fn lay_lines_above(
    board: &Board<'_, FlightFacts>,
    pass: &mut Pass<FlightFacts>,
    layout: &Layout,
    plan: &PicturePlan,
    at: &UnitPlace,
    border: &mut RowBorder,
)
    requires own { IsPassOf board.now pass.old }
    requires unit { IsTreeUnit board.now.flight at.now plan.now }
    requires place { at.now.sizes ≡ layout.now }
    requires seen { at.now.unit < seen_of (view pass.old) (number_at at.now) }
    requires below { at.now.line.row + 1 < height_in_ctbs plan.now.sps }
    requires border { border.old.unit.layout ≡ picture_shape plan.now.sps plan.now.pps }
    ensures lines { (c : ℕ) → c < 3
        → HasLine (picture_shape plan.now.sps plan.now.pps) (at.now.line.row + 1) border.old.above
        (folded_at (flight_in board.now.flight) at.now.line.picture) c
        (samples_of_place c * (unit_places (picture_shape plan.now.sps plan.now.pps) * at.now.unit))
        → HasLine (picture_shape plan.now.sps plan.now.pps) (at.now.line.row + 1) border.new.above
        (folded_at (flight_in board.now.flight) at.now.line.picture) c
        (samples_of_place c * (unit_places (picture_shape plan.now.sps plan.now.pps) * (at.now.unit + 1))) }
    ensures same { border.new ≡ with_above border.old (with_samples border.old.above border.new.above.samples) }
    ensures pass { Knows pass.old pass.new (view pass.old) }
{
    lay_line(board, pass, layout, plan, at, 0, border);
    lay_line(board, pass, layout, plan, at, 1, border);
    lay_line(board, pass, layout, plan, at, 2, border);
}

/// The same of one component.
fn lay_line(
    board: &Board<'_, FlightFacts>,
    pass: &mut Pass<FlightFacts>,
    layout: &Layout,
    plan: &PicturePlan,
    at: &UnitPlace,
    c: usize,
    border: &mut RowBorder,
)
    requires own { IsPassOf board.now pass.old }
    requires unit { IsTreeUnit board.now.flight at.now plan.now }
    requires place { at.now.sizes ≡ layout.now }
    requires seen { at.now.unit < seen_of (view pass.old) (number_at at.now) }
    requires below { at.now.line.row + 1 < height_in_ctbs plan.now.sps }
    requires border { border.old.unit.layout ≡ picture_shape plan.now.sps plan.now.pps }
    requires component { c < 3 }
    ensures line { HasLine (picture_shape plan.now.sps plan.now.pps) (at.now.line.row + 1) border.old.above
        (folded_at (flight_in board.now.flight) at.now.line.picture) c
        (samples_of_place c * (unit_places (picture_shape plan.now.sps plan.now.pps) * at.now.unit))
        → HasLine (picture_shape plan.now.sps plan.now.pps) (at.now.line.row + 1) border.new.above
        (folded_at (flight_in board.now.flight) at.now.line.picture) c
        (samples_of_place c * (unit_places (picture_shape plan.now.sps plan.now.pps) * (at.now.unit + 1))) }
    ensures others { (i end : ℕ) → i ≢ c
        → HasLine (picture_shape plan.now.sps plan.now.pps) (at.now.line.row + 1) border.old.above
        (folded_at (flight_in board.now.flight) at.now.line.picture) i end
        → HasLine (picture_shape plan.now.sps plan.now.pps) (at.now.line.row + 1) border.new.above
        (folded_at (flight_in board.now.flight) at.now.line.picture) i end }
    ensures same { border.new ≡ with_above border.old (with_samples border.old.above border.new.above.samples) }
    ensures pass { Knows pass.old pass.new (view pass.old) }
{
    words_are_of_kept_places();
    let line = at.line();
    let unit = at.unit();
    let column = u64::from(unit);
    let shape = layout.unit_shape(line, column);
    let side = layout.ctb_size();
    let width = component_side(c, shape.width as usize);
    let height = component_side(c, shape.height as usize);
    let left = component_side(c, unit as usize * side as usize);
    let lowest = height - 1;
    let mut samples = [0; 64];
    read_line(board, pass, layout, at, c, lowest, width, &mut samples);
    lay_line_above(border, c, left, &samples, width);
}

/// The first samples of a line of a component, as many as are asked for.
fn read_line(
    board: &Board<'_, FlightFacts>,
    pass: &mut Pass<FlightFacts>,
    layout: &Layout,
    at: &UnitPlace,
    c: usize,
    line: usize,
    width: usize,
    out: &mut [u16; 64],
)
    requires own { IsPassOf board.now pass.old }
    requires flight { IsOfFlight board.now.flight layout.now }
    requires place { at.now.sizes ≡ layout.now }
    requires phase { at.now.line.phase ≡ B }
    requires seen { at.now.unit < seen_of (view pass.old) (number_at at.now) }
    requires component { c < 3 }
    requires line { line < height_at at.now c }
    requires few { width ≤ 64 }
    requires inside { width ≤ width_at at.now c }
    ensures long { length out.new ≡ 64 }
    ensures value { (k : ℕ) → k < width
        → slice_index out.new k ≡ sample_of (flight_in board.now.flight) at.now c k line }
    ensures same { Knows pass.old pass.new (view pass.old) }
{
    read_from_left(board, pass, layout, at, c, line, &mut out[..width]);
}

/// The samples of a line of a component from the left one on.
fn read_from_left(
    board: &Board<'_, FlightFacts>,
    pass: &mut Pass<FlightFacts>,
    layout: &Layout,
    at: &UnitPlace,
    c: usize,
    line: usize,
    out: &mut [u16],
)
    requires own { IsPassOf board.now pass.old }
    requires flight { IsOfFlight board.now.flight layout.now }
    requires place { at.now.sizes ≡ layout.now }
    requires phase { at.now.line.phase ≡ B }
    requires seen { at.now.unit < seen_of (view pass.old) (number_at at.now) }
    requires component { c < 3 }
    requires line { line < height_at at.now c }
    requires inside { length out.old ≤ width_at at.now c }
    ensures count { length out.new ≡ length out.old }
    ensures value { (k : ℕ) → k < length out.old
        → slice_index out.new k ≡ sample_of (flight_in board.now.flight) at.now c k line }
    ensures same { Knows pass.old pass.new (view pass.old) }
{
    read_samples(board, pass, layout, at, c, line, 0, out);
}

/// Lays the first so many samples above a border's unit.
fn lay_line_above(border: &mut RowBorder, c: usize, first: usize, samples: &[u16; 64], width: usize)
    requires component { c < 3 }
    requires few { width ≤ 64 }
    requires inside { first + width ≤ width_of border.old.unit.layout c }
    ensures line { LaysSamples border.old.above border.new.above c first (take width samples.now) }
    ensures same { border.new ≡ with_above border.old (with_samples border.old.above border.new.above.samples) }
{
    border.lay_above(c, first, &samples[..width]);
}

/// A component's side, by that of luma.
#[inline(always)]
fn component_side(c: usize, side: usize) -> usize
    ensures { result ≡ component_side c side }
{
    if c == 0 { side } else { side / 2 }
}
