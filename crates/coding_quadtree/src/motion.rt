//! prediction_unit (7.3.8.6), and the prediction units of a coding unit (7.3.8.5).

ghost use Rattle.std.specs.Prelude.{◌≡◌, ◌+◌, ◌<◌, ◌≤◌, length};
ghost use Rattle.ctu_records.specs.Prediction.{part_block};
ghost use Rattle.ctu_records.specs.Tree.{IsPlaced, room};
ghost use Rattle.spec_cabac.specs.Engine.{IsLive};
ghost use Rattle.spec_slice_data.specs.Inter.{is_merged, last_two, later_parts, merge_idx, merged, motion, part_count};
ghost use Rattle.spec_slice_data.specs.Inter.{prediction_unit, rqt_root_cbf, with_part};
ghost use Rattle.transform_tree.specs.CabacContexts.{Takes};
ghost use Rattle.transform_tree.specs.Leaves.{Fills, Grows};

use crate::bins::merge_idx;
use crate::vectors::vectors;
use ctu_records::{
    Item, MotionSyntax, PartMode, PredictionUnit, Records, Rectangle, Square, part_block,
};
use hv_base::Breach;
use spec_cabac::{MERGE_FLAG, RQT_ROOT_CBF};
use spec_slice_data::{InterSyntax, UnitStart};
use transform_tree::BinReader;

/// A merged prediction unit's index.
pub fn merged(reader: &mut BinReader<'_>, inter: &InterSyntax) -> Result<MotionSyntax, Breach>
    requires { IsLive reader.old.interval }
    ensures { Takes (λ x. x) result reader.old reader.new (merged inter.now) }
{
    let index = merge_idx(reader, inter.max_merge.saturating_sub(1))?;
    Ok(MotionSyntax::Merge(index))
}

/// What prediction_unit tells of a block.
#[tactic(auto, unfolding(spec_slice_data::specs::Inter::motion))]
pub fn motion(
    reader: &mut BinReader<'_>,
    inter: &InterSyntax,
    depth: u8,
    block: Rectangle,
) -> Result<MotionSyntax, Breach>
    requires live { IsLive reader.old.interval }
    requires depth { depth ≤ 3 }
    ensures { Takes (λ x. x) result reader.old reader.new (motion inter.now depth block) }
{
    if reader.decision(MERGE_FLAG)? {
        merged(reader, inter)
    } else {
        vectors(reader, inter, depth, block)
    }
}

/// A prediction unit that was read.
pub fn add_part(
    records: &mut Records,
    unit: Square,
    part_mode: PartMode,
    part: u8,
    motion: MotionSyntax,
)
    requires room { length records.old.items + 1 ≤ room }
    ensures value { records.new ≡ with_part unit part_mode part motion records.old }
    ensures room { length records.new.items ≡ length records.old.items + 1 }
{
    records.push(Item::Prediction(PredictionUnit {
        unit,
        part_mode,
        part,
        motion,
    }));
}

/// A prediction unit.
#[tactic(auto, unfolding(spec_slice_data::specs::Inter::prediction_unit))]
fn prediction_unit(
    reader: &mut BinReader<'_>,
    records: &mut Records,
    inter: &InterSyntax,
    start: &UnitStart,
    mode: PartMode,
    part: u8,
) -> Result<(), Breach>
    requires live { IsLive reader.old.interval }
    requires placed { IsPlaced start.now.square }
    requires depth { start.now.depth ≤ 3 }
    requires part { part < 4 }
    requires room { length records.old.items + 1 ≤ room }
    ensures value { Fills result records.new reader.old reader.new
        (prediction_unit inter.now start.now mode part records.old) }
    ensures room { Grows result records.old records.new 1 }
{
    let block = part_block(start.square, mode, part);
    let told = motion(reader, inter, start.depth, block)?;
    add_part(records, start.square, mode, part, told);
    Ok(())
}

/// How many prediction units a coding unit has.
#[tactic(auto, unfolding(spec_slice_data::specs::Inter::part_count))]
pub fn part_count(mode: PartMode) -> u8
    ensures { result ≡ part_count mode }
{
    match mode {
        PartMode::Whole => 1,
        PartMode::NxN => 4,
        _ => 2,
    }
}

/// The third and the fourth of four.
#[tactic(auto, unfolding(spec_slice_data::specs::Inter::last_two))]
fn last_two(
    reader: &mut BinReader<'_>,
    records: &mut Records,
    inter: &InterSyntax,
    start: &UnitStart,
    mode: PartMode,
) -> Result<(), Breach>
    requires live { IsLive reader.old.interval }
    requires placed { IsPlaced start.now.square }
    requires depth { start.now.depth ≤ 3 }
    requires room { length records.old.items + 2 ≤ room }
    ensures value { Fills result records.new reader.old reader.new (last_two inter.now start.now mode records.old) }
    ensures room { Grows result records.old records.new 2 }
{
    if part_count(mode) != 4 {
        return Ok(());
    }
    prediction_unit(reader, records, inter, start, mode, 2)?;
    prediction_unit(reader, records, inter, start, mode, 3)
}

/// The prediction units behind the first.
#[tactic(auto, unfolding(spec_slice_data::specs::Inter::later_parts))]
pub fn later_parts(
    reader: &mut BinReader<'_>,
    records: &mut Records,
    inter: &InterSyntax,
    start: &UnitStart,
    mode: PartMode,
) -> Result<(), Breach>
    requires live { IsLive reader.old.interval }
    requires placed { IsPlaced start.now.square }
    requires depth { start.now.depth ≤ 3 }
    requires room { length records.old.items + 3 ≤ room }
    ensures value { Fills result records.new reader.old reader.new (later_parts inter.now start.now mode records.old) }
    ensures room { Grows result records.old records.new 3 }
{
    if part_count(mode) == 1 {
        return Ok(());
    }
    prediction_unit(reader, records, inter, start, mode, 1)?;
    last_two(reader, records, inter, start, mode)
}

/// Whether a prediction unit is merged.
fn is_merged(motion: MotionSyntax) -> bool
    ensures { result ≡ is_merged motion }
{
    match motion {
        MotionSyntax::Merge(_) => true,
        MotionSyntax::Vectors(_, _) => false,
    }
}

/// rqt_root_cbf.
pub fn rqt_root_cbf(
    reader: &mut BinReader<'_>,
    mode: PartMode,
    first: MotionSyntax,
) -> Result<bool, Breach>
    requires { IsLive reader.old.interval }
    ensures { Takes (λ x. x) result reader.old reader.new (rqt_root_cbf mode first) }
{
    if part_count(mode) == 1 && is_merged(first) {
        Ok(true)
    } else {
        reader.decision(RQT_ROOT_CBF)
    }
}
