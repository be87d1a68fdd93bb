//! The fourth stage of a coding tree unit's work: its samples are built (8.4, 8.5, 8.6).

ghost use Rattle.std.specs.Prelude.{◌≡◌, ℕ};
ghost use Rattle.border_words.specs.PictureFilters.{IsUnit};
ghost use Rattle.progress_words.specs.Passes.{IsPassOf, Knows, view};
ghost use Rattle.border_words.specs.RowBorders.{HoldsUnit, IsBeneath, IsBeside, IsDerived, tree_unit};
ghost use Rattle.spec_decoded_pictures.specs.Decoded.{DecodedUnits, unit_decoded};
ghost use Rattle.spec_flights.specs.Pictures.{pictures_before};
ghost use Rattle.spec_picture_build.specs.Format.{unit_format};
ghost use Rattle.spec_picture_build.specs.References.{motions_of};
ghost use Rattle.spec_picture_motion.specs.Derived.{collocated_motions};
ghost use Rattle.spec_picture_motion.specs.Slices.{collocated_entry};
ghost use Rattle.spec_picture_trees.specs.Shapes.{slice_start};
ghost use Rattle.spec_reconstruction.specs.Sound.{AreSound, IsFormat};
ghost use Rattle.border_words.specs.FlightFacts.{flight_in};
ghost use Rattle.row_waits.specs.FlightWindows.{seen_pictures};
ghost use Rattle.row_waits.specs.FlightWindows.{AreFlagsSeen};
ghost use Rattle.row_waits.specs.FlightWindows.{IsKnown, bases_in};
ghost use Rattle.row_waits.specs.Pictures.{IsPictureOf};
ghost use Rattle.built_rows.specs.Filling.{OnlyBuilds};
ghost use Rattle.built_rows.specs.Stages.{HasBuilt, HasDerived, HasReached, HasRead, IsWorking};

use crate::row_builder::RowBuilder;
use crate::slices::{segment_at, segment_number};
use border_words::{BuiltUnit, FlightFacts, RowBorder, Scratch, UnitSource, fill_in_row};
use ctu_records::Records;
use inter_pred::RefWindow;
use line_words::UnitPlace;
use plan_types::SegmentPlan;
use progress_words::{Board, Pass};
use row_waits::{FlightWindows, KnownPass, PictureView, SeenRows};
use spec_reconstruction::UnitFormat;
use std::marker::Brand;

/// Builds the samples of the unit over the pictures that it refers to, of which these are from before the flight. The
/// pass is handed back, and knows what it knew.
pub(crate) fn fill_next<'a, W: RefWindow + Copy + Drop>(
    board: &Board<'_, FlightFacts>,
    pass: Pass<FlightFacts>,
    picture: &PictureView<'a>,
    bases: W,
    at: &UnitPlace,
    builder: &mut RowBuilder<'a>,
) -> Pass<FlightFacts>
    requires own { IsPassOf board.now pass }
    requires picture { IsPictureOf board.now.flight picture.now }
    requires bases { W.reference_at bases ≡ bases_in picture.now.plan.now.sps.format board.now.flight }
    requires working { IsWorking board.now.flight picture.now at.now (view pass) builder.old }
    requires read { HasRead board.now.flight picture.now at.now (view pass) builder.old }
    requires derived { HasDerived board.now.flight picture.now at.now (view pass) builder.old }
    requires reached { HasReached board.now.flight picture.now at.now (view pass) builder.old }
    ensures built { HasBuilt board.now.flight picture.now at.now builder.new }
    ensures same { OnlyBuilds builder.old builder.new }
    ensures pass { Knows pass result (view pass) }
{
    let _column = at.unit();
    let segment = segment_at(picture.plan, segment_number(&builder.reader));
    fill_over::<Brand, W>(
        board,
        pass,
        picture,
        bases,
        segment,
        builder.reader.records(),
        &builder.border,
        &builder.format,
        &builder.seen,
        &mut builder.scratch,
        &mut builder.built,
    )
}

/// The same of a unit of a segment, by what a row's builder has of it, and by a type that tells what the pass knows.
fn fill_over<K: KnownPass, W: RefWindow + Copy + Drop>(
    board: &Board<'_, FlightFacts>,
    pass: Pass<FlightFacts>,
    picture: &PictureView<'_>,
    bases: W,
    segment: &SegmentPlan,
    records: &Records,
    border: &RowBorder,
    format: &UnitFormat,
    seen: &SeenRows,
    scratch: &mut Scratch,
    built: &mut BuiltUnit,
) -> Pass<FlightFacts>
    requires own { IsPassOf board.now pass }
    requires picture { IsPictureOf board.now.flight picture.now }
    requires bases { W.reference_at bases ≡ bases_in picture.now.plan.now.sps.format board.now.flight }
    requires seen { AreFlagsSeen picture.now.layout.now (view pass) seen.now }
    requires known { IsKnown K.table K.knows pass }
    requires unit { IsUnit picture.now.plan.now segment.now border.now.unit }
    requires depths { IsFormat format.now }
    requires format { format.now
        ≡ unit_format picture.now.plan.now.sps picture.now.plan.now.pps segment.now.header.slice }
    requires derived { IsDerived picture.now.plan.now segment.now border.now records.now built.old }
    ensures value { (number : ℕ) (units : DecodedUnits)
        → AreSound format.now records.now.items
        → IsBeside border.now units
        → IsBeneath border.now
        (collocated_motions (motions_of (pictures_before (flight_in board.now.flight) picture.now.place))
        (collocated_entry segment.now.header.slice (slice_start picture.now.plan.now segment.now).lists))
        → HoldsUnit picture.now.plan.now border.now.unit.address built.new
        (unit_decoded (seen_pictures (flight_in board.now.flight) picture.now.place seen.now) picture.now.plan.now
        segment.now (tree_unit number border.now.unit.address records.now) units) }
    ensures known { IsKnown K.table K.knows result }
{
    let source = UnitSource {
        plan: picture.plan,
        segment,
        format,
    };
    let mut windows = FlightWindows::<K, W>::new(
        board,
        pass,
        *picture.layout,
        picture.names,
        bases,
        &picture.plan.sps,
        seen,
    );
    fill_in_row(&source, records, border, &mut windows, scratch, built);
    windows.into_pass()
}
