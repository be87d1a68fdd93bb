//! transform_unit (7.3.8.10).

ghost use Rattle.std.specs.Prelude.{◌≡◌, ◌+◌, ◌*◌, ◌^◌, ◌≤◌, length};
ghost use Rattle.ctu_records.specs.Tree.{IsPlaced, room};
ghost use Rattle.residual_syntax.specs.SpecCabac.{IsLive};
ghost use Rattle.spec_slice_data.specs.Syntax.{IsSyntax};
ghost use Rattle.spec_slice_data.specs.Transform.{cbf_luma, cbf_luma_at, chroma_blocks, chroma_of, luma_of};
ghost use Rattle.spec_slice_data.specs.Transform.{transform_blocks, transform_unit};
ghost use Rattle.residual_syntax.specs.CabacContexts.{Takes};
ghost use Rattle.transform_tree.specs.Leaves.{Fills, Grows};

use crate::coded_block::block_where;
use crate::node::{TransformNode, UnitContext};
use crate::quantization::delta_where;
use ctu_records::{Item, Records, Square, TransformUnit};
use hv_base::Breach;
use residual_syntax::{BinReader, CBF_LUMA, Levels};
use spec_slice_data::{ChromaFlags, TransformBlock, UnitSyntax};

/// The two chroma blocks of a square of at least 8x8 luma samples.
#[tactic(auto, unfolding(spec_slice_data::specs::Transform::chroma_blocks), using(crate::proofs::Powers::chroma_area))]
fn chroma_blocks(
    reader: &mut BinReader<'_>,
    records: &mut Records,
    levels: &mut Levels,
    of: &UnitContext,
    node: TransformNode,
) -> Result<(), Breach>
    requires live { IsLive reader.old.interval }
    requires least { 1 ≤ node.square.log2_size }
    requires greatest { node.square.log2_size ≤ 3 }
    requires room { length records.old.items + (2 + 8 * 4 ^ node.square.log2_size) ≤ room }
    ensures value { Fills result records.new reader.old reader.new
        (chroma_blocks of.now.syntax of.now.unit node.flags node.square records.old) }
    ensures room { Grows result records.old records.new (2 + 8 * 4 ^ node.square.log2_size) }
{
    let cb = TransformBlock {
        component: 1,
        x: node.square.x,
        y: node.square.y,
        log2_size: node.square.log2_size + 1,
        mode: of.unit.chroma_mode,
    };
    let cr = TransformBlock { component: 2, ..cb };
    block_where(reader, records, levels, of, node.flags.cb, cb)?;
    block_where(reader, records, levels, of, node.flags.cr, cr)
}

/// The chroma blocks that belong to a transform unit.
#[tactic(auto, unfolding(spec_slice_data::specs::Transform::chroma_of), using(crate::proofs::Powers::some_area))]
fn chroma_of(
    reader: &mut BinReader<'_>,
    records: &mut Records,
    levels: &mut Levels,
    of: &UnitContext,
    node: TransformNode,
) -> Result<(), Breach>
    requires live { IsLive reader.old.interval }
    requires placed { IsPlaced node.square }
    requires greatest { node.square.log2_size ≤ 3 }
    requires room { length records.old.items + (26 + 8 * 4 ^ node.square.log2_size) ≤ room }
    ensures value { Fills result records.new reader.old reader.new
        (chroma_of of.now.syntax of.now.unit node.flags node.square records.old) }
    ensures room { Grows result records.old records.new (26 + 8 * 4 ^ node.square.log2_size) }
{
    let square = node.square;
    if square.log2_size != 0 {
        return chroma_blocks(reader, records, levels, of, node);
    }
    if square.x % 2 == 1 && square.y % 2 == 1 {
        let whole = Square {
            x: square.x - 1,
            y: square.y - 1,
            log2_size: 1,
        };
        chroma_blocks(reader, records, levels, of, node.over(whole))
    } else {
        Ok(())
    }
}

/// The luma block of a transform unit.
#[tactic(auto, using(crate::proofs::Powers::some_places, crate::proofs::Powers::luma_area))]
fn luma_of(
    reader: &mut BinReader<'_>,
    records: &mut Records,
    levels: &mut Levels,
    of: &UnitContext,
    coded: bool,
    square: Square,
) -> Result<(), Breach>
    requires live { IsLive reader.old.interval }
    requires placed { IsPlaced square }
    requires greatest { square.log2_size ≤ 3 }
    requires room { length records.old.items + (1 + 16 * 4 ^ square.log2_size) ≤ room }
    ensures value { Fills result records.new reader.old reader.new
        (luma_of of.now.syntax of.now.unit coded square records.old) }
    ensures room { Grows result records.old records.new (1 + 16 * 4 ^ square.log2_size) }
{
    let block = TransformBlock {
        component: 0,
        x: square.x,
        y: square.y,
        log2_size: square.log2_size + 2,
        mode: records.luma_mode(usize::from(square.x), usize::from(square.y)),
    };
    block_where(reader, records, levels, of, coded, block)
}

/// What stands in a transform unit behind its coded block flags.
#[tactic(auto, unfolding(spec_slice_data::specs::Transform::transform_blocks))]
fn transform_blocks(
    reader: &mut BinReader<'_>,
    records: &mut Records,
    levels: &mut Levels,
    of: &UnitContext,
    cbf_luma: bool,
    node: TransformNode,
) -> Result<(), Breach>
    requires live { IsLive reader.old.interval }
    requires syntax { IsSyntax of.now.syntax }
    requires unit { IsPlaced of.now.unit.square }
    requires placed { IsPlaced node.square }
    requires greatest { node.square.log2_size ≤ 3 }
    requires room { length records.old.items + (28 + 24 * 4 ^ node.square.log2_size) ≤ room }
    ensures value { Fills result records.new reader.old reader.new
        (transform_blocks of.now.syntax of.now.unit cbf_luma node.flags node.square records.old) }
    ensures room { Grows result records.old records.new (28 + 24 * 4 ^ node.square.log2_size) }
{
    let coded = cbf_luma || (node.flags.cb || node.flags.cr);
    let there = coded && (of.syntax.cu_qp_delta_enabled && !records.quantization().coded);
    delta_where(reader, records, &of.syntax, of.unit.square, there)?;
    luma_of(reader, records, levels, of, cbf_luma, node.square)?;
    chroma_of(reader, records, levels, of, node)
}

/// cbf_luma where it stands.
#[tactic(auto, unfolding(spec_slice_data::specs::Transform::cbf_luma_at))]
fn cbf_luma_at(
    reader: &mut BinReader<'_>,
    unit: &UnitSyntax,
    flags: ChromaFlags,
    depth: u8,
) -> Result<bool, Breach>
    requires { IsLive reader.old.interval }
    ensures { Takes (λ x. x) result reader.old reader.new (cbf_luma_at unit.now flags depth) }
{
    if unit.intra || (0 < depth || (flags.cb || flags.cr)) {
        cbf_luma(reader, depth)
    } else {
        Ok(true)
    }
}

/// cbf_luma.
fn cbf_luma(reader: &mut BinReader<'_>, depth: u8) -> Result<bool, Breach>
    requires { IsLive reader.old.interval }
    ensures { Takes (λ x. x) result reader.old reader.new (cbf_luma depth) }
{
    if depth == 0 {
        reader.decision(CBF_LUMA + 1)
    } else {
        reader.decision(CBF_LUMA)
    }
}

/// A node that isn't split.
#[tactic(auto, unfolding(spec_slice_data::specs::Transform::transform_unit))]
pub fn transform_unit(
    reader: &mut BinReader<'_>,
    records: &mut Records,
    levels: &mut Levels,
    of: &UnitContext,
    node: TransformNode,
) -> Result<(), Breach>
    requires live { IsLive reader.old.interval }
    requires syntax { IsSyntax of.now.syntax }
    requires unit { IsPlaced of.now.unit.square }
    requires placed { IsPlaced node.square }
    requires greatest { node.square.log2_size ≤ 3 }
    requires room { length records.old.items + (29 + 24 * 4 ^ node.square.log2_size) ≤ room }
    ensures value { Fills result records.new reader.old reader.new
        (transform_unit of.now.syntax of.now.unit node.flags node.depth node.square records.old) }
    ensures room { Grows result records.old records.new (29 + 24 * 4 ^ node.square.log2_size) }
{
    let cbf_luma = cbf_luma_at(reader, &of.unit, node.flags, node.depth)?;
    records.push(Item::Transform(TransformUnit {
        square: node.square,
        depth: node.depth,
        cbf_luma,
        cbf_cb: node.flags.cb,
        cbf_cr: node.flags.cr,
    }));
    transform_blocks(reader, records, levels, of, cbf_luma, node)
}
