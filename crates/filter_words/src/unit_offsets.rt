//! The components of a coding tree unit.

ghost use Rattle.std.specs.Prelude.{◌≡◌, ◌<◌, ◌≤◌, ◌+◌, ◌==◌, ◌&&◌, slice_index};
ghost use Rattle.hv_base.specs.declared.line.Phase.TheVariants.{B};
ghost use Rattle.loop_filters.specs.Formats.{columns_of};
ghost use Rattle.spec_picture_filters.specs.Units.{is_across, unit_read};
ghost use Rattle.sample_words.specs.declared.unit_content.UnitContent.TheVariants.{Modes, Offsets};
ghost use Rattle.flight_facts.specs.SpecFlights.{expected};
ghost use Rattle.line_words.specs.Places.{number_at, word_at};
ghost use Rattle.progress_words.specs.Passes.{IsPassOf, Knows, view};
ghost use Rattle.progress_words.specs.Views.{seen_of};
ghost use Rattle.flight_facts.specs.Facts.{flight_in};
ghost use Rattle.flight_facts.specs.Flights.{IsOfFlight};
ghost use Rattle.filter_words.specs.Placed.{content_index};
ghost use Rattle.filter_words.specs.Regions.{LaysUnits};
ghost use Rattle.filter_words.specs.Units.{HasRoom, IsSoundUnit, filters_at, is_unit, unit_at};

use crate::placed_unit::PlacedUnit;
use crate::segment_places::segment_at;
use ctu_records::Sao;
use flight_facts::FlightFacts;
use hv_base::Line;
use line_words::read_run;
use picture_layout::slice_address;
use plan_types::{PicturePlan, SegmentPlan};
use progress_words::{Board, Pass};
use row_filters::RowPlaces;
use sample_words::{Layout, unpack_modes, unpack_offsets};
use spec_sample_adaptive_offset::OffsetUnit;

/// Lays the components of a coding tree unit that the pass has seen counted: luma, Cb and Cr. The unit is the one in a
/// column of the row that a line is of, whichever phase the line has.
pub fn lay_unit_offsets(
    board: &Board<'_, FlightFacts>,
    pass: &mut Pass<FlightFacts>,
    layout: &Layout,
    plan: &PicturePlan,
    line: Line,
    unit: u32,
    around: &mut RowPlaces,
)
    requires own { IsPassOf board.now pass.old }
    requires unit { IsSoundUnit board.now.flight plan.now (unit_at layout.now line unit) }
    requires seen { unit < seen_of (view pass.old) (number_at (unit_at layout.now line unit)) }
    requires room { HasRoom around.old plan.now line.row }
    ensures units { LaysUnits (is_unit (unit_at layout.now line unit)) (filters_at board.now.flight line).units
        around.old around.new }
    ensures same { Knows pass.old pass.new (view pass.old) }
{
    let placed = PlacedUnit::new(layout, line, unit);
    let modes = first_modes(board, pass, &placed);
    let offsets = offset_words(board, pass, &placed);
    let segment = segment_at(plan, unpack_modes(modes).segment);
    let sao = unpack_offsets(offsets[0], offsets[1]);
    let column = unit as usize;
    let row = line.row as usize;
    lay_components(plan, segment, sao, column, row, around);
}

/// The word of the modes of a unit's first place.
fn first_modes(
    board: &Board<'_, FlightFacts>,
    pass: &mut Pass<FlightFacts>,
    unit: &PlacedUnit,
) -> u64
    requires own { IsPassOf board.now pass.old }
    requires flight { IsOfFlight board.now.flight unit.now.sizes }
    requires phase { unit.now.line.phase ≡ B }
    requires seen { unit.now.unit < seen_of (view pass.old) (number_at unit.now) }
    ensures value { result
        ≡ expected (flight_in board.now.flight) (word_at unit.now (content_index unit.now (Modes 0 0))) }
    ensures same { Knows pass.old pass.new (view pass.old) }
{
    let mut words = [0u64; 1];
    read_run(board, pass, unit.at(), unit.modes(), &mut words);
    words[0]
}

/// The two words of a unit's offsets.
fn offset_words(
    board: &Board<'_, FlightFacts>,
    pass: &mut Pass<FlightFacts>,
    unit: &PlacedUnit,
) -> [u64; 2]
    requires own { IsPassOf board.now pass.old }
    requires flight { IsOfFlight board.now.flight unit.now.sizes }
    requires phase { unit.now.line.phase ≡ B }
    requires seen { unit.now.unit < seen_of (view pass.old) (number_at unit.now) }
    ensures first { slice_index result 0
        ≡ expected (flight_in board.now.flight) (word_at unit.now (content_index unit.now (Offsets 0))) }
    ensures second { slice_index result 1
        ≡ expected (flight_in board.now.flight) (word_at unit.now (content_index unit.now (Offsets 1))) }
    ensures same { Knows pass.old pass.new (view pass.old) }
{
    let mut words = [0u64; 2];
    read_run(board, pass, unit.at(), unit.offsets(), &mut words);
    words
}

/// Lays the components of a unit of a segment, which stands in a column of a row.
fn lay_components(
    plan: &PicturePlan,
    segment: &SegmentPlan,
    sao: Sao,
    column: usize,
    row: usize,
    around: &mut RowPlaces,
)
    requires column { column < columns_of around.old.format }
    requires first { around.old.above ≤ row }
    requires last { row ≤ around.old.above + 2 }
    ensures { LaysUnits (λ i j. i == column && j == row) (λ c i j. unit_read plan.now segment.now sao c)
        around.old around.new }
{
    let slice = slice_address(plan, segment);
    let across = is_across(segment);
    let luma = OffsetUnit {
        offset: sao.luma,
        slice,
        across,
    };
    let cb = OffsetUnit {
        offset: sao.cb,
        slice,
        across,
    };
    let cr = OffsetUnit {
        offset: sao.cr,
        slice,
        across,
    };
    around.lay_unit(0, column, row, luma);
    around.lay_unit(1, column, row, cb);
    around.lay_unit(2, column, row, cr);
}

/// slice_loop_filter_across_slices_enabled_flag of a segment's slice.
fn is_across(segment: &SegmentPlan) -> bool
    ensures { result ≡ is_across segment.now }
{
    segment
        .header
        .fields()
        .slice
        .slice_loop_filter_across_slices_enabled_flag
}
