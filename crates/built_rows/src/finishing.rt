//! The last stage of a coding tree unit's work: its words are written, and it is counted.

ghost use Rattle.std.specs.Prelude.{◌≡◌, ◌+◌, ◌<◌};
ghost use Rattle.header_types.specs.SequenceParameterSets.{width_in_ctbs};
ghost use Rattle.spec_known_units.specs.Known.{picture_segments, segment_having};
ghost use Rattle.board_core.specs.Needs.{unit_needs};
ghost use Rattle.spec_flights.specs.Rows.{flight_rows};
ghost use Rattle.row_waits.specs.RowTrees.{IsReadKnown};
ghost use Rattle.border_words.specs.RowBorders.{HoldsUnit as HoldsBuilt};
ghost use Rattle.progress_words.specs.Passes.{IsPassOf, Knows, view};
ghost use Rattle.progress_words.specs.Views.{AllSound, HasEnded, counting};
ghost use Rattle.line_words.specs.Places.{IsUnit, number_at};
ghost use Rattle.border_words.specs.FlightFacts.{flight_meaning};
ghost use Rattle.border_words.specs.FlightFacts.{flight_in};
ghost use Rattle.done_units.specs.FlightWaits.{AreSeen, HoldsUnit};
ghost use Rattle.row_waits.specs.Pictures.{IsPictureOf, IsUnitOf, address_in};
ghost use Rattle.built_rows.specs.Stages.{GoesOn, HasBuilt, HasReached, HasRead, IsWorking, StandsAt, next_of};
ghost use Rattle.built_rows.specs.Stages.{units_in};

use crate::row_builder::RowBuilder;
use crate::slices::segment_number;
use border_words::{BuiltUnit, DoneUnit, FlightFacts};
use done_units::finish_unit;
use line_words::UnitPlace;
use progress_words::{Board, Pass};
use row_waits::{PictureView, RowReader};

/// Writes the words of a unit that is built, counts it, and keeps its last column on the left of the next one.
pub(crate) fn finish_next<'a>(
    board: &Board<'_, FlightFacts>,
    pass: &mut Pass<FlightFacts>,
    picture: &PictureView<'a>,
    at: &UnitPlace,
    builder: &mut RowBuilder<'a>,
)
    requires own { IsPassOf board.now pass.old }
    requires picture { IsPictureOf board.now.flight picture.now }
    requires working { IsWorking board.now.flight picture.now at.now (view pass.old) builder.old }
    requires read { HasRead board.now.flight picture.now at.now (view pass.old) builder.old }
    requires reached { HasReached board.now.flight picture.now at.now (view pass.old) builder.old }
    requires built { HasBuilt board.now.flight picture.now at.now builder.old }
    ensures next { at.now.unit + 1 < width_in_ctbs picture.now.plan.now.sps
        → StandsAt board.now.flight picture.now (next_of at.now) (view pass.new) builder.new }
    ensures last { at.now.unit + 1 ≡ width_in_ctbs picture.now.plan.now.sps
        → HasEnded (flight_meaning (flight_in board.now.flight)) (view pass.new) }
    ensures kept { GoesOn board.now picture.now pass.old pass.new builder.new }
{
    count_built(board, pass, picture, at, &builder.reader, &builder.built);
    builder.border.keep_left(&builder.built);
}

/// Writes the words of a unit, by what was read and built of it, and counts it.
fn count_built(
    board: &Board<'_, FlightFacts>,
    pass: &mut Pass<FlightFacts>,
    picture: &PictureView<'_>,
    at: &UnitPlace,
    reader: &RowReader<'_>,
    built: &BuiltUnit,
)
    requires own { IsPassOf board.now pass.old }
    requires picture { IsPictureOf board.now.flight picture.now }
    requires unit { IsUnitOf picture.now at.now }
    requires holds { HoldsUnit (view pass.old) at.now }
    requires written { (view pass.old).written ≡ 0 }
    requires needs { AreSeen board.now.flight picture.now.layout.now (view pass.old)
        (unit_needs (flight_rows (flight_in board.now.flight)) at.now.line at.now.unit) }
    requires current { reader.now.segments.current
        ≡ segment_having (picture_segments picture.now.plan.now) (address_in picture.now.plan.now at.now) }
    requires read { IsReadKnown picture.now.plan.now (address_in picture.now.plan.now at.now) reader.now.records
        reader.now.reader }
    requires built { HoldsBuilt picture.now.plan.now (address_in picture.now.plan.now at.now) built.now
        (units_in board.now.flight picture.now) }
    ensures unit { IsUnit at.now }
    ensures seen { Knows pass.old pass.new (counting (view pass.old) (number_at at.now) (at.now.unit + 1)) }
    ensures sound { AllSound (flight_meaning (flight_in board.now.flight)) (number_at at.now) (at.now.unit + 1) }
{
    let done = DoneUnit {
        layout: picture.layout,
        row: at.line().row,
        column: at.unit(),
        segment: segment_number(reader) as u32,
        built,
        records: reader.records(),
        reader: reader.reader(),
    };
    finish_unit(board, pass, at, &done);
}
