//! The rows that the vectors of a prediction unit reach.

ghost use Rattle.std.specs.Prelude.{◌≡◌, ◌+◌, ◌≤◌, slice_get};
ghost use Rattle.board_core.specs.Reach.{IsLumaLines, reach_of};
ghost use Rattle.ctu_motion.specs.Held.{held};
ghost use Rattle.spec_flights.specs.References.{block_by, block_from, blocks_by, item_blocks};
ghost use Rattle.spec_motion.specs.Units.{IsPlacedItem};
ghost use Rattle.spec_motion.specs.Vectors.{reference_in};
ghost use Rattle.unit_reach.specs.Ranges.{one, ranges_of};

use board_core::{LumaLines, PredictedBlock, reached_rows};
use ctu_motion::UnitMotion;
use ctu_records::{Item, Rectangle};
use flight_plan::{Reference, RowRange};
use motion_candidates::{MotionView, part_block};
use spec_motion::{Motion, SliceMotion, Vector};

/// What the rows that a coding tree unit reaches depend on, once its motion is derived.
#[derive(Clone, Copy)]
pub struct ReachSource<'a> {
    /// The pictures of the decoded picture buffer before the unit's picture, by name.
    pub names: &'a [Reference],
    /// The luma lines of the pictures.
    pub lines: LumaLines,
    /// The row of the unit's first place of 4x4 luma samples.
    pub row: u32,
    /// The pictures that vectors point to.
    pub slice: &'a SliceMotion,
    /// The motion of the unit.
    pub motion: &'a UnitMotion,
}

/// The rows that a prediction unit reaches.
#[derive(Clone, Copy, Debug, PartialEq, Eq)]
pub struct ItemReach {
    /// By its vector of list 0, where it has one.
    pub list_0: Option<RowRange>,
    /// By its vector of list 1, where it has one.
    pub list_1: Option<RowRange>,
}

/// Another item than a prediction unit reaches none.
const NOTHING: ItemReach = ItemReach {
    list_0: None,
    list_1: None,
};

/// The rows that an item of a unit reaches.
pub fn item_reach(source: &ReachSource<'_>, item: &Item) -> ItemReach
    requires lines { IsLumaLines source.now.lines }
    requires row { source.now.row ≤ 2032 }
    requires placed { IsPlacedItem item.now }
    ensures { ranges_of result
        ≡ reach_of source.now.lines
        (item_blocks source.now.names.now source.now.slice.now source.now.row (held source.now.motion.now) item.now) }
{
    match *item {
        Item::Prediction(unit) => {
            let block = part_block(&unit);
            let (column, row) = (usize::from(block.x) + 1, usize::from(block.y) + 1);
            block_reach(source, block, source.motion.motion(column, row))
        }
        _ => NOTHING,
    }
}

/// The rows that a block with this motion reaches.
fn block_reach(source: &ReachSource<'_>, block: Rectangle, motion: Option<Motion>) -> ItemReach
    requires lines { IsLumaLines source.now.lines }
    requires row { source.now.row ≤ 2032 }
    requires block { (block.y ≤ 16) × (block.height ≤ 16) }
    ensures { ranges_of result
        ≡ reach_of source.now.lines
        (blocks_by source.now.names.now source.now.slice.now source.now.row block motion) }
{
    match motion {
        None => NOTHING,
        Some(motion) => ItemReach {
            list_0: vector_reach(source, block, 0, motion.list_0),
            list_1: vector_reach(source, block, 1, motion.list_1),
        },
    }
}

/// The rows that it reaches by its vector of a list; `None` where it has none, or the list hasn't the picture.
fn vector_reach(
    source: &ReachSource<'_>,
    block: Rectangle,
    list: usize,
    vector: Option<Vector>,
) -> Option<RowRange>
    requires lines { IsLumaLines source.now.lines }
    requires row { source.now.row ≤ 2032 }
    requires block { (block.y ≤ 16) × (block.height ≤ 16) }
    ensures { one result
        ≡ reach_of source.now.lines
        (block_by source.now.names.now source.now.slice.now source.now.row block list vector) }
{
    match vector {
        None => None,
        Some(vector) => rows_from(source, block, vector, named(source, list, vector.ref_idx)),
    }
}

/// The rows that it reaches by a vector into a picture.
fn rows_from(
    source: &ReachSource<'_>,
    block: Rectangle,
    vector: Vector,
    reference: Option<Reference>,
) -> Option<RowRange>
    requires lines { IsLumaLines source.now.lines }
    requires row { source.now.row ≤ 2032 }
    requires block { (block.y ≤ 16) × (block.height ≤ 16) }
    ensures { one result ≡ reach_of source.now.lines (block_from source.now.row block vector reference) }
{
    match reference {
        None => None,
        Some(reference) => {
            let predicted = PredictedBlock {
                reference,
                first: 4 * (source.row + u32::from(block.y)),
                lines: 4 * u32::from(block.height),
                down: vector.mv.y,
            };
            Some(reached_rows(source.lines, predicted))
        }
    }
}

/// The picture that a list has at a reference index, by name.
#[tactic(auto, unfolding(spec_motion::specs::Vectors::reference_in))]
fn named(source: &ReachSource<'_>, list: usize, ref_idx: u8) -> Option<Reference>
    ensures { result
        ≡ slice_get source.now.names.now (reference_in source.now.slice.now list ref_idx).picture }
{
    let references = if list == 0 {
        &source.slice.references_0
    } else {
        &source.slice.references_1
    };
    let picture = match references.get(usize::from(ref_idx)) {
        Some(reference) => reference.picture,
        None => 0,
    };
    source.names.get(picture as usize).copied()
}
