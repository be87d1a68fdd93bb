//! What goes on from row to row, out of words (9.3.1, 9.3.2).

ghost use Rattle.std.specs.Prelude.{◌≡◌, ◌+◌, ◌-◌, ◌*◌, ◌<◌, ◌≤◌};
ghost use Rattle.header_types.specs.SequenceParameterSets.{width_in_ctbs};
ghost use Rattle.hv_base.specs.declared.line.Phase.TheVariants.{B};
ghost use Rattle.board_core.specs.Places.{line_of};
ghost use Rattle.sample_words.specs.Sizes.{columns};
ghost use Rattle.sample_words.specs.Words.{IsLine, line_number};
ghost use Rattle.spec_known_units.specs.Known.{contexts_behind, units_known};
ghost use Rattle.unit_reach.specs.SpecFlights.{carried_behind};
ghost use Rattle.progress_words.specs.Passes.{IsPassOf, Knows, view};
ghost use Rattle.progress_words.specs.Views.{seen_of};
ghost use Rattle.row_waits.specs.Pictures.{IsPictureOf};

use crate::picture_view::PictureView;
use cabac_contexts::Contexts;
use flight_waits::FlightFacts;
use hv_base::{Line, Phase};
use line_words::{UnitPlace, read_run};
use progress_words::{Board, Pass};
use row_trees::{unpack_carry, unpack_contexts};
use sample_words::{Carry, UnitContent};

/// The contexts behind the second unit of a row, which the pass has seen counted.
pub fn read_stored(
    board: &Board<'_, FlightFacts>,
    pass: &mut Pass<FlightFacts>,
    picture: &PictureView<'_>,
    row: u32,
) -> Contexts
    requires own { IsPassOf board.now pass.old }
    requires picture { IsPictureOf board.now.flight picture.now }
    requires line { IsLine picture.now.layout.now (line_of B picture.now.place row) }
    requires second { 2 ≤ columns picture.now.layout.now }
    requires seen { 1 < seen_of (view pass.old) (line_number picture.now.layout.now (line_of B picture.now.place row)) }
    ensures value { result
        ≡ contexts_behind (units_known picture.now.plan.now (row * width_in_ctbs picture.now.plan.now.sps + 1)) }
    ensures pass { Knows pass.old pass.new (view pass.old) }
{
    let line = Line {
        phase: Phase::B,
        picture: picture.place,
        row,
    };
    let at = UnitPlace::new(picture.layout, line, 1);
    let shape = picture.layout.unit_shape(line, 1);
    let first = picture.layout.index_of(shape, UnitContent::Contexts(0)) as usize;
    let mut words = [0; 20];
    read_run(board, pass, &at, first, &mut words);
    unpack_contexts(words)
}

/// What the last unit of a row carries on, which the pass has seen counted.
pub fn read_carry(
    board: &Board<'_, FlightFacts>,
    pass: &mut Pass<FlightFacts>,
    picture: &PictureView<'_>,
    row: u32,
) -> Carry
    requires own { IsPassOf board.now pass.old }
    requires picture { IsPictureOf board.now.flight picture.now }
    requires line { IsLine picture.now.layout.now (line_of B picture.now.place row) }
    requires seen { columns picture.now.layout.now
        ≤ seen_of (view pass.old) (line_number picture.now.layout.now (line_of B picture.now.place row)) }
    ensures value { result
        ≡ carried_behind (units_known picture.now.plan.now
        (row * width_in_ctbs picture.now.plan.now.sps + (width_in_ctbs picture.now.plan.now.sps - 1))) }
    ensures pass { Knows pass.old pass.new (view pass.old) }
{
    let line = Line {
        phase: Phase::B,
        picture: picture.place,
        row,
    };
    let last = picture.layout.columns() as u32 - 1;
    let at = UnitPlace::new(picture.layout, line, last);
    let shape = picture.layout.unit_shape(line, u64::from(last));
    let first = picture.layout.index_of(shape, UnitContent::Carried(0)) as usize;
    let mut words = [0; 24];
    read_run(board, pass, &at, first, &mut words);
    unpack_carry(&words)
}
