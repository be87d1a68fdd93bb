//! The first stage of a coding tree unit's work: it is read (7.3.8).

ghost use Rattle.std.specs.Prelude.{◌≡◌, ◌+◌, ◌-◌, ◌*◌, ◌<◌, ℕ, OnOk, Some, slice_get};
ghost use Rattle.header_types.specs.SequenceParameterSets.{height_in_ctbs, size_in_ctbs, width_in_ctbs};
ghost use Rattle.plan_types.specs.declared.picture_plan.PicturePlan.{PicturePlan};
ghost use Rattle.spec_picture_trees.specs.Places.{unit_places};
ghost use Rattle.spec_picture_trees.specs.Shapes.{picture_shape};
ghost use Rattle.board_core.specs.Needs.{read_needs};
ghost use Rattle.progress_words.specs.declared.waiting.Waited.TheVariants.{Ready, Stopped};
ghost use Rattle.progress_words.specs.Passes.{IsPassOf, view};
ghost use Rattle.progress_words.specs.Views.{HasEnded};
ghost use Rattle.spec_flights.specs.Rows.{flight_rows};
ghost use Rattle.spec_known_units.specs.Known.{ctu_of, picture_segments, segment_having, units_known};
ghost use Rattle.spec_flights.specs.Pictures.{PlannedFlight};
ghost use Rattle.border_words.specs.UnitTrees.{bottom_of};
ghost use Rattle.border_words.specs.FlightValueLaws.{IsInRange};
ghost use Rattle.row_waits.specs.RowTrees.{IsReadByKnown, OfSegment, Reads, StandsBefore};
ghost use Rattle.border_words.specs.FlightFacts.{FlightFacts};
ghost use Rattle.border_words.specs.FlightFacts.{flight_meaning};
ghost use Rattle.border_words.specs.FlightFacts.{flight_in};
ghost use Rattle.done_units.specs.FlightWaits.{AreSeen};
ghost use Rattle.border_words.specs.Units.{IsAboveOf};
ghost use Rattle.row_waits.specs.Pictures.{IsPictureOf, IsUnitOf, address_in};
ghost use Rattle.built_rows.specs.Reading.{OnlyReads};
ghost use Rattle.built_rows.specs.Stages.{GoesOn, HasRead, IsLeftOf, IsStored, IsWorking, StandsAt, above_of, shape_of};
ghost use Rattle.built_rows.specs.Stages.{units_in};

use crate::above::lay_next_above;
use crate::row_builder::RowBuilder;
use border_words::{Edge, FlightFacts};
use done_units::wait_to_read;
use hv_base::Breach;
use hv_io::Gate;
use line_words::{UnitPlace, find_bad};
use progress_words::{Board, Pass, Waited};
use row_waits::{PictureView, sound_units_are_read_by};
use std::sync::Wait;

/// Waits for what reading the next unit of a row needs, and reads it; or until a fault is found before it, or it breaks
/// a rule, which is told then. Where it answers `Stopped` the job has ended.
pub(crate) fn read_next<'a, R: Wait, G: Gate>(
    rt: &R,
    board: &Board<'_, FlightFacts>,
    pass: &mut Pass<FlightFacts>,
    picture: &PictureView<'a>,
    at: &UnitPlace,
    builder: &mut RowBuilder<'a>,
    gate: &G,
) -> Waited
    requires own { IsPassOf board.now pass.old }
    requires picture { IsPictureOf board.now.flight picture.now }
    requires stands { StandsAt board.now.flight picture.now at.now (view pass.old) builder.old }
    ensures working { result ≡ Ready → IsWorking board.now.flight picture.now at.now (view pass.new) builder.new }
    ensures read { result ≡ Ready → HasRead board.now.flight picture.now at.now (view pass.new) builder.new }
    ensures left { result ≡ Ready → IsLeftOf (shape_of picture.now) (address_in picture.now.plan.now at.now)
        builder.new.border (units_in board.now.flight picture.now) }
    ensures ended { result ≡ Stopped → HasEnded (flight_meaning (flight_in board.now.flight)) (view pass.new) }
    ensures kept { GoesOn board.now picture.now pass.old pass.new builder.new }
{
    match wait_to_read(rt, board, pass, picture.layout, picture.frame, at, gate) {
        Waited::Ready => read_seen(board, pass, picture, at, builder),
        Waited::Stopped => Waited::Stopped,
    }
}

/// The same where what reading it needs is seen.
fn read_seen<'a>(
    board: &Board<'_, FlightFacts>,
    pass: &mut Pass<FlightFacts>,
    picture: &PictureView<'a>,
    at: &UnitPlace,
    builder: &mut RowBuilder<'a>,
) -> Waited
    requires own { IsPassOf board.now pass.old }
    requires picture { IsPictureOf board.now.flight picture.now }
    requires stands { StandsAt board.now.flight picture.now at.now (view pass.old) builder.old }
    requires seen { AreSeen board.now.flight picture.now.layout.now (view pass.old)
        (read_needs (flight_rows (flight_in board.now.flight)) at.now.line at.now.unit) }
    ensures working { result ≡ Ready → IsWorking board.now.flight picture.now at.now (view pass.new) builder.new }
    ensures read { result ≡ Ready → HasRead board.now.flight picture.now at.now (view pass.new) builder.new }
    ensures left { result ≡ Ready → IsLeftOf (shape_of picture.now) (address_in picture.now.plan.now at.now)
        builder.new.border (units_in board.now.flight picture.now) }
    ensures ended { result ≡ Stopped → HasEnded (flight_meaning (flight_in board.now.flight)) (view pass.new) }
    ensures kept { GoesOn board.now picture.now pass.old pass.new builder.new }
{
    let _line = at.line();
    sound_units_are_read_by();
    lay_next_above(board, pass, picture, at, builder);
    match read_over(picture, at, builder) {
        Ok(()) => Waited::Ready,
        Err(breach) => {
            find_bad(board, pass, at, breach);
            Waited::Stopped
        }
    }
}

/// Reads the unit over what the one above it leaves.
fn read_over<'a>(
    picture: &PictureView<'a>,
    at: &UnitPlace,
    builder: &mut RowBuilder<'a>,
) -> Result<(), Breach>
    requires unit { IsUnitOf picture.now at.now }
    requires inside { address_in picture.now.plan.now at.now < size_in_ctbs picture.now.plan.now.sps }
    requires plan { builder.old.reader.segments.plan ≡ picture.now.plan.now }
    requires reader { StandsBefore picture.now.plan.now (address_in picture.now.plan.now at.now)
        builder.old.reader.reader builder.old.reader.left }
    ensures plan { builder.new.reader.segments.plan ≡ picture.now.plan.now }
    ensures segment { builder.new.reader.segments.current
        ≡ segment_having (picture_segments picture.now.plan.now) (address_in picture.now.plan.now at.now) }
    ensures value { (facts : FlightFacts) → IsPictureOf facts picture.now
        → (0 < at.now.line.row
        → IsAboveOf (flight_in facts) picture.now.place picture.now.plan.now (at.now.line.row - 1) at.now.unit
        (above_of builder.old at.now.unit))
        → OfSegment picture.now.plan.now (address_in picture.now.plan.now at.now)
        (IsStored picture.now.plan.now (address_in picture.now.plan.now at.now) builder.old.stored)
        → IsReadByKnown picture.now.plan.now (address_in picture.now.plan.now at.now)
        → Reads result picture.now.plan.now (address_in picture.now.plan.now at.now) builder.new.reader.records
        builder.new.reader.reader
        × OnOk result (StandsBefore picture.now.plan.now (address_in picture.now.plan.now at.now + 1)
        builder.new.reader.reader builder.new.reader.left) }
    ensures same { OnlyReads builder.old builder.new }
{
    let _line = at.line();
    let edge = builder.edge_above(at);
    builder
        .reader
        .read(picture.address(at), &edge, &builder.stored)
}

impl<'a> RowBuilder<'a> {
    /// What the unit above leaves to a unit; above the first row there is none.
    fn edge_above(&self, at: &UnitPlace) -> Edge
        ensures { (f : PlannedFlight) (k : ℕ) (p : PicturePlan) → IsInRange f → slice_get f.pictures k ≡ Some p
            → at.now.line.row < height_in_ctbs p.sps → at.now.unit < width_in_ctbs p.sps → 0 < at.now.line.row
            → IsAboveOf f k p (at.now.line.row - 1) at.now.unit (above_of self.now at.now.unit)
            → result
            ≡ bottom_of (unit_places (picture_shape p.sps p.pps))
            (ctu_of (picture_shape p.sps p.pps)
            (units_known p ((at.now.line.row - 1) * width_in_ctbs p.sps + at.now.unit))) }
    {
        if at.line().row == 0 {
            return Edge::none();
        }
        self.above(at.unit()).bottom()
    }
}
