//! The third stage of a coding tree unit's work: the final rows that its vectors reach are seen (8.5.3.3).

ghost use Rattle.std.specs.Prelude.{◌≡◌, ◌≤◌, ◌/◌, ℕ, true};
ghost use Rattle.hv_base.specs.declared.line.Phase.TheVariants.{S};
ghost use Rattle.board_core.specs.Needs.{collocated_of, read_needs, row_needs, unit_needs};
ghost use Rattle.board_core.specs.Places.{line_of};
ghost use Rattle.board_core.specs.Reach.{IsLumaLines};
ghost use Rattle.board_core.specs.Uses.{UnitUses};
ghost use Rattle.sample_words.specs.Sizes.{ctb_size};
ghost use Rattle.progress_words.specs.declared.waiting.Waited.TheVariants.{Ready, Stopped};
ghost use Rattle.progress_words.specs.Passes.{IsPassOf, view};
ghost use Rattle.progress_words.specs.Views.{HasEnded};
ghost use Rattle.spec_flights.specs.Rows.{flight_rows, luma_lines};
ghost use Rattle.border_words.specs.FlightFacts.{FlightFacts};
ghost use Rattle.border_words.specs.FlightFacts.{flight_meaning};
ghost use Rattle.border_words.specs.FlightFacts.{flight_in};
ghost use Rattle.done_units.specs.FlightWaits.{AreSeen, HoldsUnit};
ghost use Rattle.row_waits.specs.FlightWindows.{is_seen};
ghost use Rattle.line_words.specs.Places.{IsUnit};
ghost use Rattle.spec_picture_trees.specs.Places.{first_row};
ghost use Rattle.row_waits.specs.Pictures.{IsPictureOf, IsUnitOf, address_in};
ghost use Rattle.row_waits.specs.Seen.{HasLookedAround, MayWait};
ghost use Rattle.built_rows.specs.Motion.{HasMotion};
ghost use Rattle.built_rows.specs.Stages.{GoesOn, HasDerived, HasReached, HasRead, IsWorking, shape_of};

use crate::row_builder::RowBuilder;
use board_core::LumaLines;
use border_words::{BuiltUnit, FlightFacts};
use hv_io::Gate;
use line_words::UnitPlace;
use progress_words::{Board, Pass, Waited};
use row_waits::{PictureView, ReachSource, RowReader, SeenRows, wait_for_reach};
use std::sync::Wait;

/// Waits for the final rows that the unit's vectors reach, where the pass hasn't seen them; or until a fault is found
/// before it. Where it answers `Stopped` the job has ended.
pub(crate) fn reach_next<'a, R: Wait, G: Gate>(
    rt: &R,
    board: &Board<'_, FlightFacts>,
    pass: &mut Pass<FlightFacts>,
    picture: &PictureView<'a>,
    at: &UnitPlace,
    builder: &mut RowBuilder<'a>,
    gate: &G,
) -> Waited
    requires own { IsPassOf board.now pass.old }
    requires picture { IsPictureOf board.now.flight picture.now }
    requires working { IsWorking board.now.flight picture.now at.now (view pass.old) builder.old }
    requires read { HasRead board.now.flight picture.now at.now (view pass.old) builder.old }
    requires derived { HasDerived board.now.flight picture.now at.now (view pass.old) builder.old }
    ensures working { result ≡ Ready → IsWorking board.now.flight picture.now at.now (view pass.new) builder.new }
    ensures read { result ≡ Ready → HasRead board.now.flight picture.now at.now (view pass.new) builder.new }
    ensures derived { result ≡ Ready → HasDerived board.now.flight picture.now at.now (view pass.new) builder.new }
    ensures reached { result ≡ Ready → HasReached board.now.flight picture.now at.now (view pass.new) builder.new }
    ensures ended { result ≡ Stopped → HasEnded (flight_meaning (flight_in board.now.flight)) (view pass.new) }
    ensures kept { GoesOn board.now picture.now pass.old pass.new builder.new }
{
    see_reached(
        rt,
        board,
        pass,
        picture,
        at,
        &builder.reader,
        &builder.built,
        &mut builder.seen,
        gate,
    )
}

/// The same by what was read of the unit and its motion.
fn see_reached<R: Wait, G: Gate>(
    rt: &R,
    board: &Board<'_, FlightFacts>,
    pass: &mut Pass<FlightFacts>,
    picture: &PictureView<'_>,
    at: &UnitPlace,
    reader: &RowReader<'_>,
    built: &BuiltUnit,
    seen: &mut SeenRows,
    gate: &G,
) -> Waited
    requires may { MayWait board.now picture.now at.now pass.old seen.old }
    requires motion { HasMotion board.now.flight picture.now at.now reader.now.records built.now }
    ensures needs { result ≡ Ready
        → AreSeen board.now.flight picture.now.layout.now (view pass.new)
        (read_needs (flight_rows (flight_in board.now.flight)) at.now.line at.now.unit)
        → AreSeen board.now.flight picture.now.layout.now (view pass.new)
        (row_needs (flight_rows (flight_in board.now.flight))
        (collocated_of (flight_rows (flight_in board.now.flight)) at.now.line at.now.unit) at.now.line.row)
        → AreSeen board.now.flight picture.now.layout.now (view pass.new)
        (unit_needs (flight_rows (flight_in board.now.flight)) at.now.line at.now.unit) }
    ensures rows { result ≡ Ready → (j row : ℕ)
        → UnitUses (flight_rows (flight_in board.now.flight)) at.now.line at.now.unit (line_of S j row) 0
        → is_seen seen.new j row ≡ true }
    ensures ended { result ≡ Stopped → HoldsUnit (view pass.old) at.now
        → HasEnded (flight_meaning (flight_in board.now.flight)) (view pass.new) }
    ensures may { MayWait board.now picture.now at.now pass.new seen.new }
    ensures looked { HasLookedAround at.now pass.old pass.new seen.old seen.new }
{
    let row = first_row(picture, at);
    let lines = luma_lines(picture);
    let source = ReachSource {
        names: picture.names,
        lines,
        row,
        slice: &built.slice,
        motion: &built.motion,
    };
    let items = reader.records().items();
    wait_for_reach(rt, board, pass, picture, at, &source, items, seen, gate)
}

/// The luma lines of the pictures of the flight.
fn luma_lines(picture: &PictureView<'_>) -> LumaLines
    ensures value { (facts : FlightFacts) → IsPictureOf facts picture.now → result ≡ luma_lines picture.now.plan.now }
    ensures in_range { IsLumaLines result }
{
    let sizes = picture.layout.sizes();
    LumaLines {
        height: sizes.height,
        ctb_log2: sizes.ctb_log2,
    }
}

/// The row of the unit's first place of 4x4 luma samples.
fn first_row(picture: &PictureView<'_>, at: &UnitPlace) -> u32
    requires { IsUnitOf picture.now at.now }
    ensures value { (facts : FlightFacts) → IsPictureOf facts picture.now
        → result ≡ first_row (shape_of picture.now) (address_in picture.now.plan.now at.now) }
    ensures there { IsUnit at.now }
{
    let _rows = picture.layout.rows();
    let side = side_in_places(picture);
    side * at.line().row
}

/// A coding tree unit's side in places.
fn side_in_places(picture: &PictureView<'_>) -> u32
    ensures value { result ≡ ctb_size picture.now.layout.now / 4 }
    ensures few { result ≤ 16 }
{
    (picture.layout.ctb_size() / 4) as u32
}
