//! The motion of places of a coding tree unit, out of its words, beneath another unit.

ghost use Rattle.std.specs.Prelude.{◌≡◌, ◌≢◌, ℕ, ◌*◌, ◌<◌};
ghost use Rattle.border_words.specs.Beneath.{HasColumn, IsUnitBlocks, motion_in_unit};
ghost use Rattle.border_words.specs.Kept.{IsOfSegment};
ghost use Rattle.border_words.specs.Units.{IsTreeUnit};
ghost use Rattle.sample_lines.specs.FactsOfFlights.{FlightFacts};
ghost use Rattle.hv_base.specs.declared.line.Phase.TheVariants.{B};
ghost use Rattle.line_words.specs.Places.{number_at};
ghost use Rattle.progress_words.specs.Passes.{IsPassOf, Knows, view};
ghost use Rattle.progress_words.specs.Views.{seen_of};
ghost use Rattle.row_borders.specs.Borders.{block_beneath, with_beneath};
ghost use Rattle.spec_picture_trees.specs.Places.{unit_places};

use crate::kept_places::{SegmentMotion, keep_place};
use crate::laws::{places_outside_have_no_motion, words_are_of_kept_places};
use crate::place_words::PlaceWords;
use crate::reading::{read_place, read_segment};
use crate::tree_units::unit_of;
use line_words::UnitPlace;
use picture_buffer::PlaceMotion;
use picture_layout::{CodingTreeUnit, Layout as PictureLayout};
use plan_types::PicturePlan;
use progress_words::{Board, Pass};
use row_borders::RowBorder;
use sample_lines::FlightFacts;
use sample_words::Layout;

/// A unit of a picture of the flight, by its place there and in its picture, and where its words stand.
#[derive(Clone, Copy)]
pub(crate) struct UnitBlocks<'a> {
    pub plan: &'a PicturePlan,
    pub at: &'a UnitPlace,
    pub unit: CodingTreeUnit,
    pub words: PlaceWords,
}

impl<'a> UnitBlocks<'a> {
    /// Those of a unit.
    pub(crate) fn new(layout: &Layout, plan: &'a PicturePlan, at: &'a UnitPlace) -> UnitBlocks<'a>
        requires place { at.now.sizes ≡ layout.now }
        requires phase { at.now.line.phase ≡ B }
        ensures unit { (facts : FlightFacts) → IsTreeUnit facts at.now plan.now → IsUnitBlocks facts result }
        ensures plan { result.plan.now ≡ plan.now }
        ensures at { result.at.now ≡ at.now }
    {
        let picture = PictureLayout::new(plan);
        let unit = unit_of(layout, at, picture);
        let words = PlaceWords::new(layout, at);
        UnitBlocks {
            plan,
            at,
            unit,
            words,
        }
    }
}

/// The motion of a place of a unit, as its picture keeps it: none where the picture hasn't the place.
fn motion_of_place(
    board: &Board<'_, FlightFacts>,
    pass: &mut Pass<FlightFacts>,
    blocks: &UnitBlocks<'_>,
    segment: &mut SegmentMotion,
    i: usize,
    j: usize,
) -> Option<PlaceMotion>
    requires own { IsPassOf board.now pass.old }
    requires blocks { IsUnitBlocks board.now.flight blocks.now }
    requires seen { blocks.now.at.now.unit < seen_of (view pass.old) (number_at blocks.now.at.now) }
    requires slice { IsOfSegment blocks.now.plan.now blocks.now.unit.address segment.old }
    requires column { i < unit_places blocks.now.unit.layout }
    requires row { j < unit_places blocks.now.unit.layout }
    ensures value { result ≡ motion_in_unit board.now.flight blocks.now i j }
    ensures slice { IsOfSegment blocks.now.plan.now blocks.now.unit.address segment.new }
    ensures pass { Knows pass.old pass.new (view pass.old) }
{
    places_outside_have_no_motion();
    let (columns, rows) = (blocks.words.columns, blocks.words.rows);
    if columns <= i {
        return None;
    }
    if rows <= j {
        return None;
    }
    motion_inside(board, pass, blocks, segment, i, j)
}

/// The same of one that the picture has.
fn motion_inside(
    board: &Board<'_, FlightFacts>,
    pass: &mut Pass<FlightFacts>,
    blocks: &UnitBlocks<'_>,
    segment: &mut SegmentMotion,
    i: usize,
    j: usize,
) -> Option<PlaceMotion>
    requires own { IsPassOf board.now pass.old }
    requires blocks { IsUnitBlocks board.now.flight blocks.now }
    requires seen { blocks.now.at.now.unit < seen_of (view pass.old) (number_at blocks.now.at.now) }
    requires slice { IsOfSegment blocks.now.plan.now blocks.now.unit.address segment.old }
    requires column { i < blocks.now.words.columns }
    requires row { j < blocks.now.words.rows }
    ensures value { result ≡ motion_in_unit board.now.flight blocks.now i j }
    ensures slice { IsOfSegment blocks.now.plan.now blocks.now.unit.address segment.new }
    ensures pass { Knows pass.old pass.new (view pass.old) }
{
    words_are_of_kept_places();
    let words = read_place(board, pass, blocks.at, &blocks.words, i, j);
    let place = keep_place(&blocks.unit, blocks.plan, segment, words.0, words.1);
    place.motion
}

/// Lays the motion of a unit's places in one of its columns, by blocks of four rows, in a column of blocks beneath a
/// border's unit.
pub(crate) fn lay_block_column(
    board: &Board<'_, FlightFacts>,
    pass: &mut Pass<FlightFacts>,
    blocks: &UnitBlocks<'_>,
    segment: &mut SegmentMotion,
    i: usize,
    column: usize,
    border: &mut RowBorder,
)
    requires own { IsPassOf board.now pass.old }
    requires blocks { IsUnitBlocks board.now.flight blocks.now }
    requires seen { blocks.now.at.now.unit < seen_of (view pass.old) (number_at blocks.now.at.now) }
    requires slice { IsOfSegment blocks.now.plan.now blocks.now.unit.address segment.old }
    requires place { i < unit_places blocks.now.unit.layout }
    requires column { column < 5 }
    ensures column { HasColumn border.new (unit_places blocks.now.unit.layout) column
        (λ row. motion_in_unit board.now.flight blocks.now i (4 * row)) }
    ensures others { (c row : ℕ) → c ≢ column → block_beneath border.new c row ≡ block_beneath border.old c row }
    ensures same { border.new ≡ with_beneath border.old border.new.beneath }
    ensures slice { IsOfSegment blocks.now.plan.now blocks.now.unit.address segment.new }
    ensures pass { Knows pass.old pass.new (view pass.old) }
{
    let side = blocks.unit.layout.side();
    for row in 0..(side + 3) / 4 {
        let motion = motion_of_place(board, pass, blocks, segment, i, 4 * row);
        border.lay_beneath(column, row, motion);
    }
}

/// Lays the motion of all of a unit's columns of blocks.
pub(crate) fn lay_unit_blocks(
    board: &Board<'_, FlightFacts>,
    pass: &mut Pass<FlightFacts>,
    blocks: &UnitBlocks<'_>,
    border: &mut RowBorder,
)
    requires own { IsPassOf board.now pass.old }
    requires blocks { IsUnitBlocks board.now.flight blocks.now }
    requires seen { blocks.now.at.now.unit < seen_of (view pass.old) (number_at blocks.now.at.now) }
    ensures columns { (column : ℕ) → 4 * column < unit_places blocks.now.unit.layout
        → HasColumn border.new (unit_places blocks.now.unit.layout) column
        (λ row. motion_in_unit board.now.flight blocks.now (4 * column) (4 * row)) }
    ensures same { border.new ≡ with_beneath border.old border.new.beneath }
    ensures pass { Knows pass.old pass.new (view pass.old) }
{
    let number = read_segment(board, pass, blocks.at, &blocks.words);
    let mut segment = SegmentMotion::new(&blocks.unit, blocks.plan, number);
    let side = blocks.unit.layout.side();
    for column in 0..(side + 3) / 4 {
        lay_block_column(
            board,
            pass,
            blocks,
            &mut segment,
            4 * column,
            column,
            border,
        );
    }
}
