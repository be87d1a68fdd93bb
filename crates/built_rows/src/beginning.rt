//! The beginning of a row.

ghost use Rattle.std.specs.Prelude.{◌≡◌, false, true};
ghost use Rattle.progress_words.specs.declared.waiting.Waited.TheVariants.{Ready, Stopped};
ghost use Rattle.progress_words.specs.Passes.{IsPassOf, Knows, view};
ghost use Rattle.progress_words.specs.Views.{HasEnded};
ghost use Rattle.border_words.specs.FlightFacts.{flight_meaning};
ghost use Rattle.border_words.specs.FlightFacts.{flight_in};
ghost use Rattle.done_units.specs.FlightWaits.{AreAllKnown, HoldsUnit};
ghost use Rattle.row_waits.specs.Pictures.{IsPictureOf, IsUnitOf, address_in};
ghost use Rattle.built_rows.specs.Beginning.{BeginsBelow};
ghost use Rattle.built_rows.specs.Stages.{GoesOn, IsReadyFor, StandsAt, shape_of};

use crate::row_builder::RowBuilder;
use border_words::FlightFacts;
use done_units::wait_to_read;
use hv_io::Gate;
use line_words::UnitPlace;
use picture_layout::{CodingTreeUnit, Layout as PictureLayout};
use progress_words::{Board, Pass, Waited};
use row_waits::{PictureView, read_carry, read_stored};
use std::sync::Wait;

/// Goes to the first unit of a row: what goes on from the row above is taken out of its words, once the units there are
/// seen; or waits until a fault is found before the row. Where it answers `Stopped` the job has ended.
pub(crate) fn begin_row<'a, R: Wait, G: Gate>(
    rt: &R,
    board: &Board<'_, FlightFacts>,
    pass: &mut Pass<FlightFacts>,
    picture: &PictureView<'a>,
    at: &UnitPlace,
    builder: &mut RowBuilder<'a>,
    gate: &G,
) -> Waited
    requires own { IsPassOf board.now pass.old }
    requires picture { IsPictureOf board.now.flight picture.now }
    requires unit { IsUnitOf picture.now at.now }
    requires first { at.now.unit ≡ 0 }
    requires holds { HoldsUnit (view pass.old) at.now }
    requires written { (view pass.old).written ≡ 0 }
    requires known { AreAllKnown board.now.flight (view pass.old) }
    requires ready { IsReadyFor picture.now (view pass.old) builder.old }
    ensures stands { result ≡ Ready → StandsAt board.now.flight picture.now at.now (view pass.new) builder.new }
    ensures ended { result ≡ Stopped → HasEnded (flight_meaning (flight_in board.now.flight)) (view pass.new) }
    ensures kept { GoesOn board.now picture.now pass.old pass.new builder.new }
{
    builder.begin(picture, at);
    if at.line().row == 0 {
        builder.reader.begin_row();
        return Waited::Ready;
    }
    match wait_to_read(rt, board, pass, picture.layout, picture.frame, at, gate) {
        Waited::Ready => {
            begin_below(board, pass, picture, at, builder);
            Waited::Ready
        }
        Waited::Stopped => Waited::Stopped,
    }
}

impl<'a> RowBuilder<'a> {
    /// Goes over to a row of a picture, to the unit there.
    fn begin(&mut self, picture: &PictureView<'a>, at: &UnitPlace)
        requires unit { IsUnitOf picture.now at.now }
        requires across { self.old.border.unit.layout.across ≡ (shape_of picture.now).across }
        ensures plan { self.new.reader.segments.plan ≡ picture.now.plan.now }
        ensures layout { self.new.border.unit.layout ≡ shape_of picture.now }
        ensures address { self.new.border.unit.address ≡ address_in picture.now.plan.now at.now }
        ensures format { self.new.format ≡ picture.now.format.now }
        ensures seen { self.new.seen ≡ self.old.seen }
    {
        self.reader.begin_picture(picture.plan);
        self.format = *picture.format;
        self.border.stand_at(CodingTreeUnit {
            layout: PictureLayout::new(picture.plan),
            slice: 0,
            address: picture.address(at),
        });
    }
}

/// Goes on from the row above, whose units that reading the first unit needs are seen.
fn begin_below<'a>(
    board: &Board<'_, FlightFacts>,
    pass: &mut Pass<FlightFacts>,
    picture: &PictureView<'a>,
    at: &UnitPlace,
    builder: &mut RowBuilder<'a>,
)
    requires begins { BeginsBelow board.now picture.now at.now pass.old builder.old }
    ensures stands { StandsAt board.now.flight picture.now at.now (view pass.new) builder.new }
    ensures pass { Knows pass.old pass.new (view pass.old) }
{
    let fields = picture.plan.pps.fields();
    if fields.prediction.entropy_coding_sync_enabled_flag {
        begin_with_stored(board, pass, picture, at, builder);
    } else {
        begin_with_carried(board, pass, picture, at, builder);
    }
}

/// The same where each row has a substream of its own.
fn begin_with_stored<'a>(
    board: &Board<'_, FlightFacts>,
    pass: &mut Pass<FlightFacts>,
    picture: &PictureView<'a>,
    at: &UnitPlace,
    builder: &mut RowBuilder<'a>,
)
    requires begins { BeginsBelow board.now picture.now at.now pass.old builder.old }
    requires sync { picture.now.plan.now.pps.prediction.entropy_coding_sync_enabled_flag ≡ true }
    ensures stands { StandsAt board.now.flight picture.now at.now (view pass.new) builder.new }
    ensures pass { Knows pass.old pass.new (view pass.old) }
{
    let row = at.line().row;
    builder.reader.begin_row();
    if 2 <= picture.layout.columns() {
        builder.stored = read_stored(board, pass, picture, row - 1);
    }
}

/// The same where no row has one.
fn begin_with_carried<'a>(
    board: &Board<'_, FlightFacts>,
    pass: &mut Pass<FlightFacts>,
    picture: &PictureView<'a>,
    at: &UnitPlace,
    builder: &mut RowBuilder<'a>,
)
    requires begins { BeginsBelow board.now picture.now at.now pass.old builder.old }
    requires sync { picture.now.plan.now.pps.prediction.entropy_coding_sync_enabled_flag ≡ false }
    ensures stands { StandsAt board.now.flight picture.now at.now (view pass.new) builder.new }
    ensures pass { Knows pass.old pass.new (view pass.old) }
{
    let row = at.line().row;
    let carry = read_carry(board, pass, picture, row - 1);
    builder.reader.resume_row(picture.address(at), &carry);
}
