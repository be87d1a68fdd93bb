//! Reading a block.

ghost use Rattle.std.specs.Prelude.{◌≡◌, ◌+◌, ◌-◌, ◌*◌, ◌/◌, ◌^◌, ◌<◌, ◌≤◌, length, OnOk};
ghost use Rattle.spec_residuals.specs.BlockGeometry.{scan_index};
ghost use Rattle.spec_cabac.specs.Engine.{IsLive};
ghost use Rattle.spec_residuals.specs.Residual.{levels_behind, residual_coding, sub_blocks};
ghost use Rattle.cabac_contexts.specs.Takes.{Leaves};

use crate::last_position::{last_position, transform_skip_flag};
use crate::level_list::Levels;
use crate::sub_block::sub_block;
use cabac_contexts::BinReader;
use hv_base::Breach;
use spec_residuals::{Progress, ResidualBlock, scan_index};

/// Reads transform_skip_flag and the levels of a block into `levels`, in place of what they had: residual_coding of
/// H.265 7.3.8.11. Where bits lack or a level doesn't fit 16 bits, what `levels` have then is not told.
#[tactic(auto, unfolding(spec_residuals::specs::Residual::residual_coding))]
pub fn read_residual<'a>(
    reader: &mut BinReader<'a>,
    block: ResidualBlock,
    levels: &mut Levels,
) -> Result<(), Breach>
    requires live { IsLive reader.old.interval }
    requires least { 2 ≤ block.log2 }
    requires greatest { block.log2 ≤ 5 }
    ensures value { Leaves result levels.new reader.old reader.new (residual_coding block) }
    ensures few { OnOk result (length levels.new.levels ≤ 4 ^ block.log2) }
{
    let transform_skip = transform_skip_flag(reader, block)?;
    let (x, y) = last_position(reader, block)?;
    levels_behind(reader, block, x, y, transform_skip, levels)
}

/// Reads the levels of a block whose last one stands at this place.
fn levels_behind<'a>(
    reader: &mut BinReader<'a>,
    block: ResidualBlock,
    x: u32,
    y: u32,
    transform_skip: bool,
    levels: &mut Levels,
) -> Result<(), Breach>
    requires live { IsLive reader.old.interval }
    requires least { 2 ≤ block.log2 }
    requires greatest { block.log2 ≤ 5 }
    requires x { x < 2 ^ block.log2 }
    requires y { y < 2 ^ block.log2 }
    ensures value { Leaves result levels.new reader.old reader.new (levels_behind block (x, y) transform_skip) }
    ensures few { OnOk result (length levels.new.levels ≤ 4 ^ block.log2) }
{
    let last = last_sub_block(block, x, y);
    let position = scan_index(2, block.scan, x % 4, y % 4);
    sub_blocks(reader, block, last, position, transform_skip, levels)
}

/// The index of the sub-block that has a place of a block.
fn last_sub_block(block: ResidualBlock, x: u32, y: u32) -> u32
    requires least { 2 ≤ block.log2 }
    requires greatest { block.log2 ≤ 5 }
    requires x { x < 2 ^ block.log2 }
    requires y { y < 2 ^ block.log2 }
    ensures value { result ≡ scan_index (block.log2 - 2) block.scan (x / 4) (y / 4) }
    ensures inside { result < 2 ^ (block.log2 - 2) * 2 ^ (block.log2 - 2) }
    ensures few { result < 64 }
{
    let column = quarter(block.log2, x);
    let row = quarter(block.log2, y);
    scan_index(block.log2 - 2, block.scan, column, row)
}

/// Reads the sub-blocks from the last one back.
fn sub_blocks<'a>(
    reader: &mut BinReader<'a>,
    block: ResidualBlock,
    last: u32,
    position: u32,
    transform_skip: bool,
    levels: &mut Levels,
) -> Result<(), Breach>
    requires live { IsLive reader.old.interval }
    requires least { 2 ≤ block.log2 }
    requires greatest { block.log2 ≤ 5 }
    requires last { last < 2 ^ (block.log2 - 2) * 2 ^ (block.log2 - 2) }
    requires few { last < 64 }
    requires position { position < 16 }
    ensures value { Leaves result levels.new reader.old reader.new (sub_blocks block last position transform_skip) }
    ensures few { OnOk result (length levels.new.levels ≤ 4 ^ block.log2) }
{
    levels.restart(transform_skip);
    let mut progress = Progress {
        coded: [false; 81],
        raised: false,
    };
    for k in 0..last + 1 {
        sub_block(
            reader,
            block,
            last,
            position,
            last - k,
            &mut progress,
            levels,
        )?;
    }
    Ok(())
}

/// The column or row of the sub-block that has a column or row of a block.
#[inline(always)]
fn quarter(log2: u32, x: u32) -> u32
    requires least { 2 ≤ log2 }
    requires inside { x < 2 ^ log2 }
    ensures value { result ≡ x / 4 }
    ensures small { result < 2 ^ (log2 - 2) }
{
    x / 4
}
