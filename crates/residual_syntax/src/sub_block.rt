//! A sub-block of 4x4 coefficients.

ghost use Rattle.std.specs.Prelude.{◌≡◌, ◌+◌, ◌-◌, ◌*◌, ◌^◌, ◌<◌, ◌≤◌, length, OnOk};
ghost use Rattle.std.specs.List.{All};
ghost use Rattle.spec_cabac.specs.Engine.{IsLive};
ghost use Rattle.spec_residuals.specs.LastPosition.{by_component};
ghost use Rattle.spec_residuals.specs.Significance.{sub_block_at};
ghost use Rattle.spec_residuals.specs.Levels.{context_set, no_flags};
ghost use Rattle.spec_residuals.specs.Residual.{signs_of, coded_levels, coded_sub_block, sub_block};
ghost use Rattle.cabac_contexts.specs.Takes.{Leaves};

use crate::indices::Indices;
use crate::level_list::Levels;
use crate::remaining::{coded_signs, greater1_flags, greater2_flag, levels_from, sign_hidden};
use crate::significance::{coded_indices, coded_sub_block_flag};
use cabac_contexts::BinReader;
use hv_base::{Breach, FaultKind};
use spec_residuals::{Greater1Flags, Progress, ResidualBlock, Signs, SubBlock, scan};

const DATA_END: Breach = Breach::Fault(FaultKind::DataEnd);

/// Reads the sub-block at index `i` of the scan, behind those of the indices above it. The last level stands at index
/// `position` of the sub-block `last`.
#[tactic(auto, unfolding(spec_residuals::specs::Residual::sub_block))]
pub fn sub_block<'a>(
    reader: &mut BinReader<'a>,
    block: ResidualBlock,
    last: u32,
    position: u32,
    i: u32,
    progress: &mut Progress,
    levels: &mut Levels,
) -> Result<(), Breach>
    requires live { IsLive reader.old.interval }
    requires least { 2 ≤ block.log2 }
    requires greatest { block.log2 ≤ 5 }
    requires index { i < 2 ^ (block.log2 - 2) * 2 ^ (block.log2 - 2) }
    requires position { position < 16 }
    requires room { length levels.old.levels ≤ 1008 }
    ensures value { Leaves result (progress.new, levels.new) reader.old reader.new
        (sub_block block last position i (progress.old, levels.old)) }
    ensures count { OnOk result (length levels.new.levels ≤ length levels.old.levels + 16) }
{
    let sub = sub_block_at(block, progress, i);
    if !coded_sub_block_flag(reader, block, last, sub)? {
        return Ok(());
    }
    progress.coded[(9 * sub.y + sub.x) as usize] = true;
    coded_sub_block(reader, block, last, position, sub, progress, levels)
}

/// The sub-block at index `i` of the scan.
#[tactic(auto, unfolding(spec_residuals::specs::Significance::sub_block_at))]
fn sub_block_at(block: ResidualBlock, progress: &Progress, i: u32) -> SubBlock
    requires least { 2 ≤ block.log2 }
    requires greatest { block.log2 ≤ 5 }
    requires index { i < 2 ^ (block.log2 - 2) * 2 ^ (block.log2 - 2) }
    ensures value { result ≡ sub_block_at block progress.now.coded i }
    ensures x { result.x < 8 }
    ensures y { result.y < 8 }
{
    let (x, y) = scan(block.log2 - 2, block.scan, i);
    let at = (9 * y + x) as usize;
    SubBlock {
        index: i,
        x,
        y,
        right: progress.coded[at + 1],
        below: progress.coded[at + 9],
    }
}

/// Reads a sub-block that is coded.
#[tactic(auto, unfolding(spec_residuals::specs::Residual::coded_sub_block))]
fn coded_sub_block<'a>(
    reader: &mut BinReader<'a>,
    block: ResidualBlock,
    last: u32,
    position: u32,
    sub: SubBlock,
    progress: &mut Progress,
    levels: &mut Levels,
) -> Result<(), Breach>
    requires live { IsLive reader.old.interval }
    requires least { 2 ≤ block.log2 }
    requires greatest { block.log2 ≤ 5 }
    requires position { position < 16 }
    requires x { sub.x < 8 }
    requires y { sub.y < 8 }
    requires room { length levels.old.levels ≤ 1008 }
    ensures value { Leaves result (progress.new, levels.new) reader.old reader.new
        (coded_sub_block block last position sub (progress.old, levels.old)) }
    ensures count { OnOk result (length levels.new.levels ≤ length levels.old.levels + 16) }
{
    let mut indices = Indices::new();
    coded_indices(reader, block, sub, last, position, &mut indices).ok_or(DATA_END)?;
    if indices.len() == 0 {
        return Ok(());
    }
    coded_levels(reader, block, sub, &indices, progress, levels)
}

/// Reads the levels at these indices of a sub-block.
#[tactic(auto, unfolding(spec_residuals::specs::Residual::coded_levels))]
fn coded_levels<'a>(
    reader: &mut BinReader<'a>,
    block: ResidualBlock,
    sub: SubBlock,
    indices: &Indices,
    progress: &mut Progress,
    levels: &mut Levels,
) -> Result<(), Breach>
    requires live { IsLive reader.old.interval }
    requires x { sub.x < 8 }
    requires y { sub.y < 8 }
    requires some { 0 < length indices.now }
    requires few { length indices.now ≤ 16 }
    requires indices { All (λ n. n < 16) indices.now }
    requires room { length levels.old.levels + length indices.now ≤ 1024 }
    ensures value { Leaves result (progress.new, levels.new) reader.old reader.new
        (coded_levels block sub indices.now (progress.old, levels.old)) }
    ensures count { OnOk result (length levels.new.levels ≤ length levels.old.levels + length indices.now) }
{
    let set = context_set(block, sub, progress.raised);
    let mut signs = no_signs();
    signs_of(reader, block, set, indices, &mut signs)?;
    levels_from(reader, block, sub, indices, &signs, levels)?;
    progress.raised = signs.greater1.context == 0;
    Ok(())
}

/// ctxSet.
fn context_set(block: ResidualBlock, sub: SubBlock, raised: bool) -> u32
    ensures value { result ≡ context_set block sub raised }
    ensures small { result ≤ by_component block 3 1 }
{
    let inner = if block.c == 0 && sub.index > 0 { 2 } else { 0 };
    if raised { inner + 1 } else { inner }
}

/// No flags and no signs.
#[inline(always)]
fn no_signs() -> Signs
    ensures { result.greater1 ≡ no_flags }
{
    Signs {
        greater1: Greater1Flags {
            flags: [false; 16],
            context: 1,
            first: None,
        },
        greater2: false,
        hidden: false,
        signs: 0,
    }
}

/// The flags and the signs of the levels at these indices, where `signs` had no flags.
fn signs_of<'a>(
    reader: &mut BinReader<'a>,
    block: ResidualBlock,
    set: u32,
    indices: &Indices,
    signs: &mut Signs,
) -> Result<(), Breach>
    requires live { IsLive reader.old.interval }
    requires set { set ≤ by_component block 3 1 }
    requires some { 0 < length indices.now }
    requires few { length indices.now ≤ 16 }
    requires none { signs.old.greater1 ≡ no_flags }
    ensures { Leaves result signs.new reader.old reader.new (signs_of block set indices.now) }
{
    let count = indices.len() as u32;
    greater1_flags(reader, block, set, count, &mut signs.greater1)?;
    signs.greater2 = greater2_flag(reader, block, set, signs.greater1.first)?;
    signs.hidden = sign_hidden(block, indices);
    signs.signs = reader.fixed(coded_signs(count, signs.hidden))?;
    Ok(())
}
