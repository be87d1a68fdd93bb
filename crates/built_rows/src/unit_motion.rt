//! The second stage of a coding tree unit's work: its motion is derived (8.5.3.2).

ghost use Rattle.std.specs.Prelude.{◌≡◌, ℕ, List, Some, slice_get};
ghost use Rattle.std.specs.List.{All};
ghost use Rattle.ctu_motion.specs.Held.{held};
ghost use Rattle.border_words.specs.PictureFilters.{IsUnit};
ghost use Rattle.spec_motion.specs.Units.{IsPlacedItem};
ghost use Rattle.spec_picture_trees.specs.Shapes.{slice_start};
ghost use Rattle.spec_known_units.specs.Known.{KnownUnit, units_known};
ghost use Rattle.spec_picture_motion.specs.Derived.{collocated_motions, known_of_unit};
ghost use Rattle.spec_picture_motion.specs.Slices.{collocated_entry};
ghost use Rattle.spec_picture_build.specs.References.{DecodedPicture, motions_of};
ghost use Rattle.spec_decoded_pictures.specs.Decoded.{DecodedUnits};
ghost use Rattle.border_words.specs.RowBorders.{IsBeneath, IsBeside, IsDerived, tree_unit};
ghost use Rattle.board_core.specs.Needs.{row_needs};
ghost use Rattle.progress_words.specs.declared.waiting.Waited.TheVariants.{Ready, Stopped};
ghost use Rattle.progress_words.specs.Passes.{IsPassOf, view};
ghost use Rattle.progress_words.specs.Views.{HasEnded};
ghost use Rattle.spec_flights.specs.References.{collocated_by};
ghost use Rattle.spec_flights.specs.Rows.{flight_rows};
ghost use Rattle.border_words.specs.FlightFacts.{flight_meaning};
ghost use Rattle.border_words.specs.FlightFacts.{flight_in};
ghost use Rattle.done_units.specs.FlightWaits.{AreSeen};
ghost use Rattle.line_words.specs.Places.{IsUnit as IsPlace};
ghost use Rattle.row_waits.specs.Pictures.{IsPictureOf, address_in};
ghost use Rattle.built_rows.specs.Stages.{GoesOn, HasDerived, HasRead, IsLeftOf, IsWorking, shape_of, units_in};

use crate::row_builder::RowBuilder;
use crate::slices::{segment_at, segment_number, unit_of};
use border_words::{
    BuiltUnit, FlightFacts, ReferencePictures, RowBorder, UnitSource, derive_in_row, lay_beneath,
    set_slice,
};
use hv_io::Gate;
use line_words::UnitPlace;
use plan_types::{PicturePlan, SegmentPlan};
use progress_words::{Board, Pass, Waited};
use row_waits::{PictureView, RowReader, wait_for_collocated};
use spec_reconstruction::UnitFormat;
use std::sync::Wait;

/// Derives the motion of the unit that was read, once the collocated picture's row is seen; or waits until a fault is
/// found before it. Where it answers `Stopped` the job has ended.
pub(crate) fn derive_next<'a, R: Wait, G: Gate>(
    rt: &R,
    board: &Board<'_, FlightFacts>,
    pass: &mut Pass<FlightFacts>,
    picture: &PictureView<'a>,
    at: &UnitPlace,
    builder: &mut RowBuilder<'a>,
    gate: &G,
) -> Waited
    requires own { IsPassOf board.now pass.old }
    requires picture { IsPictureOf board.now.flight picture.now }
    requires working { IsWorking board.now.flight picture.now at.now (view pass.old) builder.old }
    requires read { HasRead board.now.flight picture.now at.now (view pass.old) builder.old }
    requires left { IsLeftOf (shape_of picture.now) (address_in picture.now.plan.now at.now) builder.old.border
        (units_in board.now.flight picture.now) }
    ensures working { result ≡ Ready → IsWorking board.now.flight picture.now at.now (view pass.new) builder.new }
    ensures read { result ≡ Ready → HasRead board.now.flight picture.now at.now (view pass.new) builder.new }
    ensures derived { result ≡ Ready → HasDerived board.now.flight picture.now at.now (view pass.new) builder.new }
    ensures ended { result ≡ Stopped → HasEnded (flight_meaning (flight_in board.now.flight)) (view pass.new) }
    ensures kept { GoesOn board.now picture.now pass.old pass.new builder.new }
{
    let _line = at.line();
    let segment = segment_at(picture.plan, segment_number(&builder.reader));
    builder.border.stand_at(unit_of(picture, at, segment));
    match wait_for_collocated(rt, board, pass, picture, at, segment, gate) {
        Waited::Ready => {
            derive_seen(board, pass, picture, at, segment, builder);
            Waited::Ready
        }
        Waited::Stopped => Waited::Stopped,
    }
}

/// The same where the collocated picture's row is seen, of a unit of a segment, at which the border stands.
fn derive_seen<'a>(
    board: &Board<'_, FlightFacts>,
    pass: &mut Pass<FlightFacts>,
    picture: &PictureView<'a>,
    at: &UnitPlace,
    segment: &SegmentPlan,
    builder: &mut RowBuilder<'a>,
)
    requires own { IsPassOf board.now pass.old }
    requires picture { IsPictureOf board.now.flight picture.now }
    requires working { IsWorking board.now.flight picture.now at.now (view pass.old) builder.old }
    requires read { HasRead board.now.flight picture.now at.now (view pass.old) builder.old }
    requires left { IsLeftOf (shape_of picture.now) (address_in picture.now.plan.now at.now) builder.old.border
        (units_in board.now.flight picture.now) }
    requires segment { (known : KnownUnit)
        → units_known picture.now.plan.now (address_in picture.now.plan.now at.now) ≡ Some known
        → slice_get picture.now.plan.now.segments known.segment ≡ Some segment.now }
    requires unit { IsUnit picture.now.plan.now segment.now builder.old.border.unit }
    requires address { builder.old.border.unit.address ≡ address_in picture.now.plan.now at.now }
    requires there { IsPlace at.now }
    requires seen { AreSeen board.now.flight picture.now.layout.now (view pass.old)
        (row_needs (flight_rows (flight_in board.now.flight))
        (collocated_by picture.now.names.now picture.now.plan.now segment.now) at.now.line.row) }
    ensures working { IsWorking board.now.flight picture.now at.now (view pass.new) builder.new }
    ensures read { HasRead board.now.flight picture.now at.now (view pass.new) builder.new }
    ensures derived { HasDerived board.now.flight picture.now at.now (view pass.new) builder.new }
    ensures kept { GoesOn board.now picture.now pass.old pass.new builder.new }
{
    let references = references_of(picture);
    lay_beneath(
        board,
        pass,
        picture.layout,
        &references,
        picture.plan,
        segment,
        &mut builder.border,
    );
    set_slice(
        &mut builder.format,
        &picture.plan.pps,
        &segment.header.fields().slice,
    );
    derive_over(
        picture.plan,
        segment,
        &builder.format,
        &builder.reader,
        &builder.border,
        &mut builder.built,
    );
}

/// Derives the motion of the unit that was read, of a segment, over a border that stands at it.
#[inline(always)]
fn derive_over(
    plan: &PicturePlan,
    segment: &SegmentPlan,
    format: &UnitFormat,
    reader: &RowReader<'_>,
    border: &RowBorder,
    built: &mut BuiltUnit,
)
    requires unit { IsUnit plan.now segment.now border.now.unit }
    ensures derived { IsDerived plan.now segment.now border.now reader.now.records built.new }
    ensures value { (number : ℕ) (others : List DecodedPicture) (units : DecodedUnits)
        → All IsPlacedItem reader.now.records.items
        → IsBeside border.now units
        → IsBeneath border.now
        (collocated_motions (motions_of others)
        (collocated_entry segment.now.header.slice (slice_start plan.now segment.now).lists))
        → held built.new.motion
        ≡ known_of_unit (motions_of others) plan.now segment.now
        (tree_unit number border.now.unit.address reader.now.records) units.motions }
{
    let source = UnitSource {
        plan,
        segment,
        format,
    };
    derive_in_row(&source, reader.records(), border, built);
}

/// The pictures that a picture may refer to.
#[inline(always)]
fn references_of<'a>(picture: &PictureView<'a>) -> ReferencePictures<'a>
    ensures plans { result.plans.now ≡ picture.now.plans.now }
    ensures picture { result.picture ≡ picture.now.place }
    ensures names { result.names.now ≡ picture.now.names.now }
    ensures bases { result.bases.now ≡ picture.now.bases.now }
{
    ReferencePictures {
        plans: picture.plans,
        picture: picture.place as usize,
        names: picture.names,
        bases: picture.bases,
    }
}
