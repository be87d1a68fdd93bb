//! coding_quadtree (7.3.8.4) and coding_tree_unit (7.3.8.2).

ghost use Rattle.std.specs.Prelude.{◌≡◌, ℕ, ◌+◌, ◌-◌, ◌*◌, ◌^◌, ◌<◌, ◌≤◌, [], true, length, IfOk};
ghost use Rattle.ctu_records.specs.Tree.{IsPlaced, room};
ghost use Rattle.spec_cabac.specs.Engine.{IsLive};
ghost use Rattle.spec_slice_data.specs.Syntax.{IsSyntax};
ghost use Rattle.spec_slice_data.specs.Tree.{coding_quadtree, coding_tree_unit, deeper, split_cu_flag};
ghost use Rattle.transform_tree.specs.CabacContexts.{Takes};
ghost use Rattle.transform_tree.specs.Leaves.{Fills, Grows};
ghost use Rattle.transform_tree.specs.Quarters.{in_quarters};

use crate::offset::sao;
use crate::squares::side;
use crate::unit::coding_unit;
use ctu_records::{Records, Sao, Square};
use hv_base::Breach;
use spec_cabac::SPLIT_CU_FLAG;
use spec_slice_data::CtuSyntax;
use transform_tree::{
    BinReader, Levels, begin_group, lower_left, lower_right, upper_left, upper_right,
};

/// How many of the places on the left and above are deeper.
#[tactic(auto, unfolding(spec_slice_data::specs::Tree::deeper))]
fn deeper(records: &Records, depth: u8, x: u8, y: u8) -> usize
    requires x { x < 16 }
    requires y { y < 16 }
    ensures value { result ≡ deeper records.now depth x y }
    ensures few { result ≤ 2 }
{
    let left = records.depth_left(usize::from(x), usize::from(y));
    let above = records.depth_above(usize::from(x), usize::from(y));
    usize::from(depth < left) + usize::from(depth < above)
}

/// split_cu_flag, or what it is taken to be.
#[tactic(auto, unfolding(spec_slice_data::specs::Tree::split_cu_flag), using(transform_tree::proofs::Powers::some_places))]
fn split_cu_flag(
    reader: &mut BinReader<'_>,
    records: &Records,
    syntax: &CtuSyntax,
    square: Square,
    depth: u8,
) -> Result<bool, Breach>
    requires live { IsLive reader.old.interval }
    requires placed { IsPlaced square }
    ensures value { Takes (λ x. x) result reader.old reader.new (split_cu_flag syntax.now depth square records.now) }
    ensures least { IfOk result (λ split. split ≡ true → syntax.now.log2_min_coding < square.log2_size) }
{
    if square.log2_size <= syntax.log2_min_coding {
        return Ok(false);
    }
    let side = side(square.log2_size);
    let (x, y) = (u32::from(square.x), u32::from(square.y));
    if x + side <= syntax.right && y + side <= syntax.lower {
        reader.decision(SPLIT_CU_FLAG + deeper(records, depth, square.x, square.y))
    } else {
        Ok(true)
    }
}

/// A block of the coding quadtree.
#[cycle(blocks)]
#[tactic(auto, using(transform_tree::proofs::Powers::some_places))]
pub fn coding_quadtree(
    reader: &mut BinReader<'_>,
    records: &mut Records,
    levels: &mut Levels,
    syntax: &CtuSyntax,
    square: Square,
    depth: u8,
) -> Result<(), Breach>
    requires live { IsLive reader.old.interval }
    requires syntax { IsSyntax syntax.now }
    requires placed { IsPlaced square }
    requires least { syntax.now.log2_min_coding ≤ square.log2_size }
    requires depth { depth + square.log2_size ≤ 4 }
    requires room { length records.old.items + 64 * 4 ^ square.log2_size ≤ room }
    ensures value { Fills result records.new reader.old reader.new
        (coding_quadtree syntax.now square.log2_size depth square records.old) }
    ensures room { Grows result records.old records.new (64 * 4 ^ square.log2_size) }
{
    if u32::from(square.x) >= syntax.right || u32::from(square.y) >= syntax.lower {
        return Ok(());
    }
    begin_group(records, syntax, square);
    let split = split_cu_flag(reader, records, syntax, square, depth)?;
    if split {
        coding_quarters(reader, records, levels, syntax, square, depth + 1)
    } else {
        coding_unit(reader, records, levels, syntax, square, depth)
    }
}

/// The quarters of a block of the coding quadtree, by their depth.
#[cycle(blocks)]
fn coding_quarters(
    reader: &mut BinReader<'_>,
    records: &mut Records,
    levels: &mut Levels,
    syntax: &CtuSyntax,
    square: Square,
    depth: u8,
) -> Result<(), Breach>
    requires live { IsLive reader.old.interval }
    requires syntax { IsSyntax syntax.now }
    requires placed { IsPlaced square }
    requires least { syntax.now.log2_min_coding < square.log2_size }
    requires depth { depth + square.log2_size ≤ 5 }
    requires room { length records.old.items + 4 * (64 * 4 ^ (square.log2_size - 1)) ≤ room }
    ensures value { Fills result records.new reader.old reader.new
        (in_quarters (coding_quadtree syntax.now (square.log2_size - 1) depth) square records.old) }
    ensures room { Grows result records.old records.new (4 * (64 * 4 ^ (square.log2_size - 1))) }
{
    coding_quadtree(reader, records, levels, syntax, upper_left(square), depth)?;
    coding_quadtree(reader, records, levels, syntax, upper_right(square), depth)?;
    coding_quadtree(reader, records, levels, syntax, lower_left(square), depth)?;
    coding_quadtree(reader, records, levels, syntax, lower_right(square), depth)
}

/// A coding tree unit, by the sample adaptive offset of the units on the left and above.
#[tactic(auto, unfolding(spec_slice_data::specs::Tree::coding_tree_unit), using(crate::proofs::Powers::few_items, crate::proofs::Powers::few_sides))]
pub fn coding_tree_unit(
    reader: &mut BinReader<'_>,
    records: &mut Records,
    levels: &mut Levels,
    syntax: &CtuSyntax,
    left: Sao,
    above: Sao,
) -> Result<(), Breach>
    requires live { IsLive reader.old.interval }
    requires syntax { IsSyntax syntax.now }
    requires least { syntax.now.log2_min_coding ≤ records.old.size }
    requires empty { records.old.items ≡ [] }
    ensures value { Fills result records.new reader.old reader.new
        (coding_tree_unit syntax.now left above records.old) }
{
    let offsets = sao(reader, syntax, left, above)?;
    records.set_sao(offsets);
    let square = Square {
        x: 0,
        y: 0,
        log2_size: records.size(),
    };
    coding_quadtree(reader, records, levels, syntax, square, 0)
}
