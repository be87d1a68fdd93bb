//! A row of coding tree units as a job over a board.

ghost use Rattle.std.specs.Prelude.{◌≡◌, ◌+◌, ◌<◌};
ghost use Rattle.header_types.specs.SequenceParameterSets.{width_in_ctbs};
ghost use Rattle.hv_base.specs.declared.line.Phase.TheVariants.{B};
ghost use Rattle.board_core.specs.Places.{line_of};
ghost use Rattle.sample_words.specs.Words.{IsLine};
ghost use Rattle.progress_words.specs.declared.waiting.Waited.TheVariants.{Ready, Stopped};
ghost use Rattle.progress_words.specs.Passes.{IsPassOf, view};
ghost use Rattle.progress_words.specs.Views.{HasEnded};
ghost use Rattle.border_words.specs.FlightFacts.{flight_meaning};
ghost use Rattle.border_words.specs.FlightFacts.{flight_in};
ghost use Rattle.done_units.specs.FlightWaits.{AreAllKnown, HoldsUnit};
ghost use Rattle.row_waits.specs.FlightWindows.{bases_in};
ghost use Rattle.row_waits.specs.Pictures.{IsPictureOf};
ghost use Rattle.built_rows.specs.Stages.{GoesOn, HasDerived, HasReached, HasRead, IsReadyFor, IsWorking, StandsAt};
ghost use Rattle.built_rows.specs.Stages.{next_of, unit_in};

use crate::beginning::begin_row;
use crate::filling::fill_next;
use crate::finishing::finish_next;
use crate::reaching::reach_next;
use crate::reading::read_next;
use crate::row_builder::RowBuilder;
use crate::unit_motion::derive_next;
use border_words::FlightFacts;
use hv_base::{Line, Phase};
use hv_io::Gate;
use inter_pred::RefWindow;
use line_words::UnitPlace;
use progress_words::{Board, Pass, Waited};
use row_waits::PictureView;
use std::sync::Wait;

/// Works off a row of coding tree units of a picture, the line that the pass holds, of which no unit is counted: unit
/// by unit it waits for what reading it needs, reads it, derives its motion, waits for the final rows that its vectors
/// reach, builds its samples, writes its words and counts it. The job ends where all units are counted, or one breaks a
/// rule, which is told then, or a fault is found before the next one. The pictures from before the flight are these. It
/// takes no memory.
pub fn build_row<'a, R: Wait, G: Gate, W: RefWindow + Copy + Drop>(
    rt: &R,
    board: &Board<'_, FlightFacts>,
    start: Pass<FlightFacts>,
    picture: &PictureView<'a>,
    bases: W,
    row: u32,
    builder: &mut RowBuilder<'a>,
    gate: &G,
) -> Pass<FlightFacts>
    requires own { IsPassOf board.now start }
    requires picture { IsPictureOf board.now.flight picture.now }
    requires bases { W.reference_at bases ≡ bases_in picture.now.plan.now.sps.format board.now.flight }
    requires line { IsLine picture.now.layout.now (line_of B picture.now.place row) }
    requires holds { HoldsUnit (view start) (unit_in picture.now row 0) }
    requires written { (view start).written ≡ 0 }
    requires known { AreAllKnown board.now.flight (view start) }
    requires ready { IsReadyFor picture.now (view start) builder.old }
    ensures ended { HasEnded (flight_meaning (flight_in board.now.flight)) (view result) }
    ensures kept { GoesOn board.now picture.now start result builder.new }
{
    let line = Line {
        phase: Phase::B,
        picture: picture.place,
        row,
    };
    let mut pass = start;
    let first = UnitPlace::new(picture.layout, line, 0);
    match begin_row(rt, board, &mut pass, picture, &first, builder, gate) {
        Waited::Ready => build_units(rt, board, pass, picture, bases, line, builder, gate),
        Waited::Stopped => pass,
    }
}

/// The same where the builder stands at the first unit.
fn build_units<'a, R: Wait, G: Gate, W: RefWindow + Copy + Drop>(
    rt: &R,
    board: &Board<'_, FlightFacts>,
    start: Pass<FlightFacts>,
    picture: &PictureView<'a>,
    bases: W,
    line: Line,
    builder: &mut RowBuilder<'a>,
    gate: &G,
) -> Pass<FlightFacts>
    requires own { IsPassOf board.now start }
    requires picture { IsPictureOf board.now.flight picture.now }
    requires bases { W.reference_at bases ≡ bases_in picture.now.plan.now.sps.format board.now.flight }
    requires line { IsLine picture.now.layout.now line }
    requires row { line ≡ line_of B picture.now.place line.row }
    requires stands { StandsAt board.now.flight picture.now (unit_in picture.now line.row 0) (view start) builder.old }
    ensures ended { HasEnded (flight_meaning (flight_in board.now.flight)) (view result) }
    ensures kept { GoesOn board.now picture.now start result builder.new }
{
    let mut pass = start;
    let columns = picture.layout.columns() as u32;
    for x in 0..columns {
        let at = UnitPlace::new(picture.layout, line, x);
        let (next, step) = build_unit(rt, board, pass, picture, bases, &at, builder, gate);
        pass = next;
        match step {
            Waited::Ready => {}
            Waited::Stopped => return pass,
        }
    }
    pass
}

/// The next unit of a row. Where it answers `Stopped` the job has ended.
fn build_unit<'a, R: Wait, G: Gate, W: RefWindow + Copy + Drop>(
    rt: &R,
    board: &Board<'_, FlightFacts>,
    start: Pass<FlightFacts>,
    picture: &PictureView<'a>,
    bases: W,
    at: &UnitPlace,
    builder: &mut RowBuilder<'a>,
    gate: &G,
) -> (Pass<FlightFacts>, Waited)
    requires own { IsPassOf board.now start }
    requires picture { IsPictureOf board.now.flight picture.now }
    requires bases { W.reference_at bases ≡ bases_in picture.now.plan.now.sps.format board.now.flight }
    requires stands { StandsAt board.now.flight picture.now at.now (view start) builder.old }
    ensures next { result.1 ≡ Ready → at.now.unit + 1 < width_in_ctbs picture.now.plan.now.sps
        → StandsAt board.now.flight picture.now (next_of at.now) (view result.0) builder.new }
    ensures last { result.1 ≡ Ready → at.now.unit + 1 ≡ width_in_ctbs picture.now.plan.now.sps
        → HasEnded (flight_meaning (flight_in board.now.flight)) (view result.0) }
    ensures ended { result.1 ≡ Stopped → HasEnded (flight_meaning (flight_in board.now.flight)) (view result.0) }
    ensures kept { GoesOn board.now picture.now start result.0 builder.new }
{
    gate.turn(at.unit_number());
    let mut pass = start;
    match prepare_unit(rt, board, &mut pass, picture, at, builder, gate) {
        Waited::Ready => {
            pass = fill_next(board, pass, picture, bases, at, builder);
            finish_next(board, &mut pass, picture, at, builder);
            (pass, Waited::Ready)
        }
        Waited::Stopped => (pass, Waited::Stopped),
    }
}

/// The first three stages of a unit's work: it is read, its motion is derived, and what its samples are built from is
/// seen. Where it answers `Stopped` the job has ended.
fn prepare_unit<'a, R: Wait, G: Gate>(
    rt: &R,
    board: &Board<'_, FlightFacts>,
    pass: &mut Pass<FlightFacts>,
    picture: &PictureView<'a>,
    at: &UnitPlace,
    builder: &mut RowBuilder<'a>,
    gate: &G,
) -> Waited
    requires own { IsPassOf board.now pass.old }
    requires picture { IsPictureOf board.now.flight picture.now }
    requires stands { StandsAt board.now.flight picture.now at.now (view pass.old) builder.old }
    ensures working { result ≡ Ready → IsWorking board.now.flight picture.now at.now (view pass.new) builder.new }
    ensures read { result ≡ Ready → HasRead board.now.flight picture.now at.now (view pass.new) builder.new }
    ensures derived { result ≡ Ready → HasDerived board.now.flight picture.now at.now (view pass.new) builder.new }
    ensures reached { result ≡ Ready → HasReached board.now.flight picture.now at.now (view pass.new) builder.new }
    ensures ended { result ≡ Stopped → HasEnded (flight_meaning (flight_in board.now.flight)) (view pass.new) }
    ensures kept { GoesOn board.now picture.now pass.old pass.new builder.new }
{
    match read_next(rt, board, pass, picture, at, builder, gate) {
        Waited::Ready => {}
        Waited::Stopped => return Waited::Stopped,
    }
    match derive_next(rt, board, pass, picture, at, builder, gate) {
        Waited::Ready => reach_next(rt, board, pass, picture, at, builder, gate),
        Waited::Stopped => Waited::Stopped,
    }
}
