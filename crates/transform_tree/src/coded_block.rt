//! Coded transform blocks (7.3.8.10, 7.3.8.11).

ghost use Rattle.std.specs.Prelude.{◌≡◌, ◌+◌, ◌*◌, ◌^◌, ◌≤◌, length};
ghost use Rattle.ctu_records.specs.Tree.{room};
ghost use Rattle.residual_syntax.specs.SpecCabac.{IsLive};
ghost use Rattle.spec_slice_data.specs.Residual.{coded_block, residual_block, scan_of, scan_of_mode, with_level};
ghost use Rattle.spec_slice_data.specs.Residual.{with_residual};
ghost use Rattle.spec_slice_data.specs.Transform.{block_where};
ghost use Rattle.transform_tree.specs.Leaves.{Fills, Grows};

use crate::node::UnitContext;
use ctu_records::{CodedBlock, Item, Records};
use hv_base::Breach;
use residual_syntax::{BinReader, Level, Levels, ResidualBlock, Scan, read_residual};
use spec_slice_data::{TransformBlock, UnitSyntax};

/// scanIdx by an intra mode.
#[tactic(auto, unfolding(spec_slice_data::specs::Residual::scan_of_mode))]
fn scan_of_mode(mode: u8) -> Scan
    ensures { result ≡ scan_of_mode mode }
{
    if 6 <= mode && mode <= 14 {
        Scan::Vertical
    } else if 22 <= mode && mode <= 30 {
        Scan::Horizontal
    } else {
        Scan::Diagonal
    }
}

/// scanIdx.
#[tactic(auto, unfolding(spec_slice_data::specs::Residual::scan_of))]
fn scan_of(unit: &UnitSyntax, block: TransformBlock) -> Scan
    ensures { result ≡ scan_of unit.now block }
{
    if unit.intra && (block.log2_size == 2 || (block.log2_size == 3 && block.component == 0)) {
        scan_of_mode(block.mode)
    } else {
        Scan::Diagonal
    }
}

/// What residual_coding of a block depends on.
#[tactic(auto, unfolding(spec_slice_data::specs::Residual::residual_block))]
fn residual_block(of: &UnitContext, block: TransformBlock) -> ResidualBlock
    ensures value { result ≡ residual_block of.now.syntax of.now.unit block }
    ensures side { result.log2 ≡ block.log2_size }
{
    let samples = if block.component == 0 { 4 } else { 2 };
    ResidualBlock {
        c: block.component,
        x: samples * u32::from(block.x),
        y: samples * u32::from(block.y),
        log2: u32::from(block.log2_size),
        scan: scan_of(&of.unit, block),
        bypass: of.unit.transquant_bypass,
        skip_enabled: of.syntax.transform_skip_enabled,
        sign_hiding: of.syntax.sign_data_hiding_enabled,
    }
}

/// The side of a block.
#[tactic(auto, using(crate::proofs::Powers::few_samples))]
fn samples(log2: u8) -> u16
    requires { log2 ≤ 5 }
    ensures value { result ≡ 2 ^ log2 }
    ensures few { result ≤ 32 }
{
    1 << log2
}

/// A level of a block with a side of so many samples.
fn add_level(records: &mut Records, log2: u8, level: Level)
    requires greatest { log2 ≤ 5 }
    requires room { length records.old.items + 1 ≤ room }
    ensures value { records.new ≡ with_level log2 records.old level }
    ensures room { length records.new.items ≡ length records.old.items + 1 }
{
    let place = u16::from(level.y) * samples(log2) + u16::from(level.x);
    records.push(Item::Level(place, level.value));
}

/// A block, and its levels from the last one back.
#[tactic(auto, unfolding(spec_slice_data::specs::Residual::with_residual))]
fn add_residual(records: &mut Records, block: TransformBlock, levels: &Levels)
    requires greatest { block.log2_size ≤ 5 }
    requires room { length records.old.items + (1 + length levels.now.levels) ≤ room }
    ensures value { records.new ≡ with_residual block levels.now records.old }
    ensures room { length records.new.items ≡ length records.old.items + (1 + length levels.now.levels) }
{
    records.push(Item::Block(CodedBlock {
        x: block.x,
        y: block.y,
        log2_size: block.log2_size,
        component: block.component,
        transform_skip: levels.transform_skip(),
    }));
    for level in levels.as_slice() {
        add_level(records, block.log2_size, *level);
    }
}

/// A block whose coded block flag is 1.
#[tactic(auto, unfolding(spec_slice_data::specs::Residual::coded_block))]
fn coded_block(
    reader: &mut BinReader<'_>,
    records: &mut Records,
    levels: &mut Levels,
    of: &UnitContext,
    block: TransformBlock,
) -> Result<(), Breach>
    requires live { IsLive reader.old.interval }
    requires least { 2 ≤ block.log2_size }
    requires greatest { block.log2_size ≤ 5 }
    requires room { length records.old.items + (1 + 4 ^ block.log2_size) ≤ room }
    ensures value { Fills result records.new reader.old reader.new
        (coded_block of.now.syntax of.now.unit block records.old) }
    ensures room { Grows result records.old records.new (1 + 4 ^ block.log2_size) }
{
    read_residual(reader, residual_block(of, block), levels)?;
    add_residual(records, block, levels);
    Ok(())
}

/// A block by its coded block flag.
pub fn block_where(
    reader: &mut BinReader<'_>,
    records: &mut Records,
    levels: &mut Levels,
    of: &UnitContext,
    coded: bool,
    block: TransformBlock,
) -> Result<(), Breach>
    requires live { IsLive reader.old.interval }
    requires least { 2 ≤ block.log2_size }
    requires greatest { block.log2_size ≤ 5 }
    requires room { length records.old.items + (1 + 4 ^ block.log2_size) ≤ room }
    ensures value { Fills result records.new reader.old reader.new
        (block_where of.now.syntax of.now.unit coded block records.old) }
    ensures room { Grows result records.old records.new (1 + 4 ^ block.log2_size) }
{
    if coded {
        coded_block(reader, records, levels, of, block)
    } else {
        Ok(())
    }
}
