//! transform_tree (7.3.8.8).

ghost use Rattle.std.specs.Prelude.{◌≡◌, ◌+◌, ◌-◌, ◌*◌, ◌^◌, ◌<◌, ◌≤◌, false, length, IfOk};
ghost use Rattle.ctu_records.specs.Tree.{IsPlaced, room};
ghost use Rattle.residual_syntax.specs.SpecCabac.{IsLive};
ghost use Rattle.spec_slice_data.specs.Syntax.{IsSyntax};
ghost use Rattle.spec_slice_data.specs.Transform.{cbf_chroma, chroma_flags, max_depth, split_transform_flag};
ghost use Rattle.spec_slice_data.specs.Transform.{transform_tree};
ghost use Rattle.spec_slice_data.specs.Tree.{unit_tree};
ghost use Rattle.residual_syntax.specs.CabacContexts.{Takes};
ghost use Rattle.transform_tree.specs.Leaves.{Fills, Grows};
ghost use Rattle.transform_tree.specs.Quarters.{in_quarters};

use crate::node::{TransformNode, UnitContext};
use crate::quarters::{lower_left, lower_right, upper_left, upper_right};
use crate::transform_unit::transform_unit;
use ctu_records::Records;
use hv_base::Breach;
use residual_syntax::{BinReader, CBF_CHROMA, Levels, SPLIT_TRANSFORM_FLAG};
use spec_slice_data::{ChromaFlags, CtuSyntax, UnitSyntax};

/// MaxTrafoDepth.
fn max_depth(syntax: &CtuSyntax, unit: &UnitSyntax) -> u8
    requires { IsSyntax syntax.now }
    ensures { result ≡ max_depth syntax.now unit.now }
{
    if unit.intra {
        syntax.max_depth_intra + if unit.split { 1 } else { 0 }
    } else {
        syntax.inter.max_depth_inter
    }
}

/// split_transform_flag, or what it is taken to be.
#[tactic(auto, unfolding(spec_slice_data::specs::Transform::split_transform_flag))]
fn split_transform_flag(
    reader: &mut BinReader<'_>,
    of: &UnitContext,
    n: u8,
    depth: u8,
) -> Result<bool, Breach>
    requires live { IsLive reader.old.interval }
    requires syntax { IsSyntax of.now.syntax }
    ensures value { Takes (λ x. x) result reader.old reader.new
        (split_transform_flag of.now.syntax of.now.unit n depth) }
    ensures small { IfOk result (λ split. split ≡ false → n ≤ 3) }
{
    let (syntax, unit) = (&of.syntax, &of.unit);
    let splits_first = unit.split && depth == 0;
    let max_depth = max_depth(syntax, unit);
    let sized = n <= syntax.log2_max_transform && syntax.log2_min_transform < n;
    if sized && (depth < max_depth && !splits_first) {
        reader.decision(SPLIT_TRANSFORM_FLAG + (3 - usize::from(n)))
    } else {
        Ok(syntax.log2_max_transform < n || splits_first)
    }
}

/// cbf_cb or cbf_cr.
fn cbf_chroma(reader: &mut BinReader<'_>, above: bool, depth: u8) -> Result<bool, Breach>
    requires live { IsLive reader.old.interval }
    requires depth { depth ≤ 4 }
    ensures { Takes (λ x. x) result reader.old reader.new (cbf_chroma above depth) }
{
    if above {
        reader.decision(CBF_CHROMA + usize::from(depth))
    } else {
        Ok(false)
    }
}

/// The chroma flags of a node.
#[tactic(auto, unfolding(spec_slice_data::specs::Transform::chroma_flags))]
fn chroma_flags(
    reader: &mut BinReader<'_>,
    above: ChromaFlags,
    depth: u8,
) -> Result<ChromaFlags, Breach>
    requires live { IsLive reader.old.interval }
    requires depth { depth ≤ 4 }
    ensures { Takes (λ x. x) result reader.old reader.new (chroma_flags above depth) }
{
    let cb = cbf_chroma(reader, above.cb, depth)?;
    let cr = cbf_chroma(reader, above.cr, depth)?;
    Ok(ChromaFlags { cb, cr })
}

/// The transform tree of a square under a node with these chroma flags.
#[cycle(trees)]
fn transform_tree(
    reader: &mut BinReader<'_>,
    records: &mut Records,
    levels: &mut Levels,
    of: &UnitContext,
    node: TransformNode,
) -> Result<(), Breach>
    requires live { IsLive reader.old.interval }
    requires syntax { IsSyntax of.now.syntax }
    requires unit { IsPlaced of.now.unit.square }
    requires placed { IsPlaced node.square }
    requires depth { node.depth + node.square.log2_size ≤ 4 }
    requires room { length records.old.items + 56 * 4 ^ node.square.log2_size ≤ room }
    ensures value { Fills result records.new reader.old reader.new
        (transform_tree of.now.syntax of.now.unit node.flags node.square.log2_size node.depth node.square records.old) }
    ensures room { Grows result records.old records.new (56 * 4 ^ node.square.log2_size) }
{
    let square = node.square;
    if square.log2_size == 0 {
        return transform_unit(reader, records, levels, of, node);
    }
    let split = split_transform_flag(reader, of, square.log2_size, node.depth)?;
    let flags = chroma_flags(reader, node.flags, node.depth)?;
    if !split {
        return transform_unit(reader, records, levels, of, TransformNode { flags, ..node });
    }
    let below = TransformNode {
        flags,
        square,
        depth: node.depth + 1,
    };
    transform_quarters(reader, records, levels, of, below)
}

/// The transform trees of the quarters of a square, whose flags and depth are those of its quarters' nodes.
#[cycle(trees)]
fn transform_quarters(
    reader: &mut BinReader<'_>,
    records: &mut Records,
    levels: &mut Levels,
    of: &UnitContext,
    below: TransformNode,
) -> Result<(), Breach>
    requires live { IsLive reader.old.interval }
    requires syntax { IsSyntax of.now.syntax }
    requires unit { IsPlaced of.now.unit.square }
    requires some { 0 < below.square.log2_size }
    requires placed { IsPlaced below.square }
    requires depth { below.depth + below.square.log2_size ≤ 5 }
    requires room { length records.old.items + 4 * (56 * 4 ^ (below.square.log2_size - 1)) ≤ room }
    ensures value { Fills result records.new reader.old reader.new
        (in_quarters (transform_tree of.now.syntax of.now.unit below.flags (below.square.log2_size - 1) below.depth)
        below.square records.old) }
    ensures room { Grows result records.old records.new (4 * (56 * 4 ^ (below.square.log2_size - 1))) }
{
    let square = below.square;
    transform_tree(reader, records, levels, of, below.over(upper_left(square)))?;
    transform_tree(reader, records, levels, of, below.over(upper_right(square)))?;
    transform_tree(reader, records, levels, of, below.over(lower_left(square)))?;
    transform_tree(reader, records, levels, of, below.over(lower_right(square)))
}

/// The transform tree of a coding unit with its coded blocks (7.3.8.8, 7.3.8.10, 7.3.8.11), behind what stands in the
/// records already. Levels are read into the list that is lent. The error is the first rule broken in reading order;
/// then the records and the reader are of no use.
#[tactic(auto, using(crate::proofs::Powers::some_places))]
pub fn unit_tree(
    reader: &mut BinReader<'_>,
    records: &mut Records,
    levels: &mut Levels,
    syntax: &CtuSyntax,
    unit: UnitSyntax,
) -> Result<(), Breach>
    requires live { IsLive reader.old.interval }
    requires syntax { IsSyntax syntax.now }
    requires placed { IsPlaced unit.square }
    requires room { length records.old.items + 56 * 4 ^ unit.square.log2_size ≤ room }
    ensures value { Fills result records.new reader.old reader.new (unit_tree syntax.now unit records.old) }
    ensures room { Grows result records.old records.new (56 * 4 ^ unit.square.log2_size) }
{
    let of = UnitContext {
        syntax: *syntax,
        unit,
    };
    let root = TransformNode {
        flags: ChromaFlags { cb: true, cr: true },
        square: unit.square,
        depth: 0,
    };
    transform_tree(reader, records, levels, &of, root)
}
