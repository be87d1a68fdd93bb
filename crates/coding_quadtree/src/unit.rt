//! coding_unit (7.3.8.5) and pcm_sample (7.3.8.7).

ghost use Rattle.std.specs.Prelude.{◌≡◌, ℕ, ◌+◌, ◌-◌, ◌*◌, ◌^◌, ◌<◌, ◌≤◌, false, length, IfOk};
ghost use Rattle.ctu_records.specs.Tree.{IsPlaced, room};
ghost use Rattle.spec_cabac.specs.Engine.{IsLive};
ghost use Rattle.spec_slice_data.specs.Syntax.{IsSyntax};
ghost use Rattle.spec_slice_data.specs.Tree.{begun_unit, coding_unit, inter_syntax, inter_unit, intra_body};
ghost use Rattle.spec_slice_data.specs.Tree.{intra_syntax, intra_unit, is_split, parts_and_tree, pcm_flag, pcm_sample};
ghost use Rattle.spec_slice_data.specs.Tree.{pcm_samples, pcm_unit, skipped_unit, unit_body, unit_tree};
ghost use Rattle.transform_tree.specs.CabacContexts.{Reaches, Takes, state_of};
ghost use Rattle.spec_cabac.specs.Bins.{read};
ghost use Rattle.transform_tree.specs.Leaves.{Fills, Grows, Leaves};

use crate::modes::{chroma_modes, luma_modes};
use crate::motion::{add_part, later_parts, merged, motion, part_count, rqt_root_cbf};
use crate::part_mode::part_mode;
use crate::squares::area;
use crate::unit_start::unit_start;
use ctu_records::{CodingUnit, Item, PartMode, Quantization, Records, Square, part_block};
use hv_base::Breach;
use spec_cabac::PART_MODE;
use spec_slice_data::{CtuSyntax, PcmSyntax, UnitStart, UnitSyntax};
use transform_tree::{BinReader, Levels, unit_tree};

/// A sample of pulse code modulation.
#[tactic(auto, using(crate::proofs::Powers::few_bits))]
fn pcm_sample(reader: &mut BinReader<'_>, records: &mut Records, bits: u8) -> Result<(), Breach>
    requires bits { bits ≤ 16 }
    requires room { length records.old.items + 1 ≤ room }
    ensures value { (i : ℕ)
        → Leaves result records.new (state_of reader.new) (read (pcm_sample bits i records.old) (state_of reader.old)) }
    ensures room { Grows result records.old records.new 1 }
{
    let value = reader.sample(u32::from(bits))?;
    records.push(Item::Sample(value as u16));
    Ok(())
}

/// So many samples.
fn pcm_samples(
    reader: &mut BinReader<'_>,
    records: &mut Records,
    bits: u8,
    count: u32,
) -> Result<(), Breach>
    requires bits { bits ≤ 16 }
    requires room { length records.old.items + count ≤ room }
    ensures value { Leaves result records.new (state_of reader.new)
        (read (pcm_samples bits count records.old) (state_of reader.old)) }
    ensures room { Grows result records.old records.new count }
{
    for i in 0..count {
        pcm_sample(reader, records, bits)?;
    }
    Ok(())
}

/// The samples of a coding unit.
#[tactic(auto, unfolding(spec_slice_data::specs::Tree::pcm_unit))]
fn pcm_unit(
    reader: &mut BinReader<'_>,
    records: &mut Records,
    pcm: &PcmSyntax,
    square: Square,
) -> Result<(), Breach>
    requires luma { pcm.now.luma_bits ≤ 16 }
    requires chroma { pcm.now.chroma_bits ≤ 16 }
    requires placed { IsPlaced square }
    requires room { length records.old.items + (1 + 24 * 4 ^ square.log2_size) ≤ room }
    ensures value { Fills result records.new reader.old reader.new (pcm_unit pcm.now square records.old) }
    ensures room { Grows result records.old records.new (1 + 24 * 4 ^ square.log2_size) }
{
    let area = area(square.log2_size);
    reader.pcm_start()?;
    records.push(Item::Pcm(square));
    pcm_samples(reader, records, pcm.luma_bits, 16 * area)?;
    pcm_samples(reader, records, pcm.chroma_bits, 8 * area)?;
    reader.pcm_end()
}

/// Whether an intra coding unit has four prediction blocks.
fn is_split(reader: &mut BinReader<'_>, syntax: &CtuSyntax, n: u8) -> Result<bool, Breach>
    requires { IsLive reader.old.interval }
    ensures { Takes (λ x. x) result reader.old reader.new (is_split syntax.now n) }
{
    if n == syntax.log2_min_coding {
        let whole = reader.decision(PART_MODE)?;
        Ok(!whole)
    } else {
        Ok(false)
    }
}

/// pcm_flag. After a 1 samples follow.
fn pcm_flag(reader: &mut BinReader<'_>, pcm: &PcmSyntax, split: bool, n: u8) -> Result<bool, Breach>
    requires { IsLive reader.old.interval }
    ensures value { Reaches (λ x. x) result reader.old reader.new (pcm_flag pcm.now split n) }
    ensures live { IfOk result (λ coded. coded ≡ false → IsLive reader.new.interval) }
{
    let sized = pcm.log2_least <= n && n <= pcm.log2_greatest;
    if (pcm.enabled && !split) && sized {
        reader.terminate()
    } else {
        Ok(false)
    }
}

/// A coding unit begins.
#[tactic(auto, unfolding(spec_slice_data::specs::Tree::begun_unit))]
fn begin_unit(records: &mut Records, start: &UnitStart)
    requires placed { IsPlaced start.now.square }
    requires room { length records.old.items + 1 ≤ room }
    ensures value { records.new ≡ begun_unit start.now records.old }
    ensures room { length records.new.items ≡ length records.old.items + 1 }
{
    let group = records.quantization();
    records.set_quantization(Quantization {
        last: group.qp,
        predicted: group.predicted,
        qp: group.qp,
        coded: group.coded,
    });
    records.begin(CodingUnit {
        square: start.square,
        depth: start.depth,
        transquant_bypass: start.transquant_bypass,
        skipped: start.skipped,
        intra: start.intra,
        qp_predicted: group.predicted,
        qp: group.qp,
    });
}

/// The modes and the transform tree of an intra coding unit.
#[tactic(auto, unfolding(spec_slice_data::specs::Tree::intra_unit), using(transform_tree::proofs::Powers::some_places))]
fn intra_unit(
    reader: &mut BinReader<'_>,
    records: &mut Records,
    levels: &mut Levels,
    syntax: &CtuSyntax,
    start: &UnitStart,
    split: bool,
) -> Result<(), Breach>
    requires live { IsLive reader.old.interval }
    requires syntax { IsSyntax syntax.now }
    requires some { 0 < start.now.square.log2_size }
    requires placed { IsPlaced start.now.square }
    requires room { length records.old.items + (5 + 56 * 4 ^ start.now.square.log2_size) ≤ room }
    ensures value { Fills result records.new reader.old reader.new (intra_unit syntax.now start.now split records.old) }
    ensures room { Grows result records.old records.new (5 + 56 * 4 ^ start.now.square.log2_size) }
{
    let square = start.square;
    luma_modes(reader, records, square, split)?;
    let chroma_mode = chroma_modes(reader, records, square.x, square.y)?;
    records.push(Item::Chroma(chroma_mode));
    let unit = UnitSyntax {
        square,
        transquant_bypass: start.transquant_bypass,
        intra: true,
        split,
        chroma_mode,
    };
    unit_tree(reader, records, levels, syntax, unit)
}

/// An intra coding unit.
#[tactic(auto, unfolding(spec_slice_data::specs::Tree::intra_body), using(transform_tree::proofs::Powers::some_area))]
fn intra_body(
    reader: &mut BinReader<'_>,
    records: &mut Records,
    levels: &mut Levels,
    syntax: &CtuSyntax,
    start: &UnitStart,
) -> Result<(), Breach>
    requires live { IsLive reader.old.interval }
    requires syntax { IsSyntax syntax.now }
    requires some { 0 < start.now.square.log2_size }
    requires placed { IsPlaced start.now.square }
    requires room { length records.old.items + (5 + 56 * 4 ^ start.now.square.log2_size) ≤ room }
    ensures value { Fills result records.new reader.old reader.new (intra_body syntax.now start.now records.old) }
    ensures room { Grows result records.old records.new (5 + 56 * 4 ^ start.now.square.log2_size) }
{
    let n = start.square.log2_size;
    let split = is_split(reader, syntax, n)?;
    let coded = pcm_flag(reader, &syntax.pcm, split, n)?;
    if coded {
        pcm_unit(reader, records, &syntax.pcm, start.square)
    } else {
        intra_unit(reader, records, levels, syntax, start, split)
    }
}

/// A skipped coding unit.
#[tactic(auto, unfolding(spec_slice_data::specs::Tree::skipped_unit))]
fn skipped_unit(
    reader: &mut BinReader<'_>,
    records: &mut Records,
    syntax: &CtuSyntax,
    start: &UnitStart,
) -> Result<(), Breach>
    requires live { IsLive reader.old.interval }
    requires room { length records.old.items + 1 ≤ room }
    ensures value { Fills result records.new reader.old reader.new (skipped_unit syntax.now start.now records.old) }
    ensures room { Grows result records.old records.new 1 }
{
    let told = merged(reader, &syntax.inter)?;
    add_part(records, start.square, PartMode::Whole, 0, told);
    Ok(())
}

/// What the transform tree of an inter coding unit depends on.
fn inter_syntax(syntax: &CtuSyntax, start: &UnitStart, mode: PartMode) -> UnitSyntax
    ensures { result ≡ inter_syntax syntax.now start.now mode }
{
    UnitSyntax {
        square: start.square,
        transquant_bypass: start.transquant_bypass,
        intra: false,
        split: syntax.inter.max_depth_inter == 0 && part_count(mode) != 1,
        chroma_mode: 1,
    }
}

/// The prediction units and the transform tree of an inter coding unit.
#[tactic(auto, unfolding(spec_slice_data::specs::Tree::parts_and_tree))]
fn parts_and_tree(
    reader: &mut BinReader<'_>,
    records: &mut Records,
    levels: &mut Levels,
    syntax: &CtuSyntax,
    start: &UnitStart,
    mode: PartMode,
) -> Result<(), Breach>
    requires live { IsLive reader.old.interval }
    requires syntax { IsSyntax syntax.now }
    requires placed { IsPlaced start.now.square }
    requires depth { start.now.depth ≤ 3 }
    requires room { length records.old.items + (4 + 56 * 4 ^ start.now.square.log2_size) ≤ room }
    ensures value { Fills result records.new reader.old reader.new
        (parts_and_tree syntax.now start.now mode records.old) }
    ensures room { Grows result records.old records.new (4 + 56 * 4 ^ start.now.square.log2_size) }
{
    let inter = &syntax.inter;
    let first = motion(
        reader,
        inter,
        start.depth,
        part_block(start.square, mode, 0),
    )?;
    add_part(records, start.square, mode, 0, first);
    later_parts(reader, records, inter, start, mode)?;
    if rqt_root_cbf(reader, mode, first)? {
        unit_tree(
            reader,
            records,
            levels,
            syntax,
            inter_syntax(syntax, start, mode),
        )
    } else {
        Ok(())
    }
}

/// An inter coding unit that isn't skipped.
#[tactic(auto, unfolding(spec_slice_data::specs::Tree::inter_unit))]
fn inter_unit(
    reader: &mut BinReader<'_>,
    records: &mut Records,
    levels: &mut Levels,
    syntax: &CtuSyntax,
    start: &UnitStart,
) -> Result<(), Breach>
    requires live { IsLive reader.old.interval }
    requires syntax { IsSyntax syntax.now }
    requires placed { IsPlaced start.now.square }
    requires depth { start.now.depth ≤ 3 }
    requires room { length records.old.items + (4 + 56 * 4 ^ start.now.square.log2_size) ≤ room }
    ensures value { Fills result records.new reader.old reader.new (inter_unit syntax.now start.now records.old) }
    ensures room { Grows result records.old records.new (4 + 56 * 4 ^ start.now.square.log2_size) }
{
    let n = start.square.log2_size;
    let mode = part_mode(reader, &syntax.inter, n == syntax.log2_min_coding, n)?;
    parts_and_tree(reader, records, levels, syntax, start, mode)
}

/// A coding unit behind pred_mode_flag.
#[tactic(auto, using(transform_tree::proofs::Powers::some_area))]
fn unit_body(
    reader: &mut BinReader<'_>,
    records: &mut Records,
    levels: &mut Levels,
    syntax: &CtuSyntax,
    start: &UnitStart,
) -> Result<(), Breach>
    requires live { IsLive reader.old.interval }
    requires syntax { IsSyntax syntax.now }
    requires some { 0 < start.now.square.log2_size }
    requires placed { IsPlaced start.now.square }
    requires depth { start.now.depth ≤ 3 }
    requires room { length records.old.items + (5 + 56 * 4 ^ start.now.square.log2_size) ≤ room }
    ensures value { Fills result records.new reader.old reader.new (unit_body syntax.now start.now records.old) }
    ensures room { Grows result records.old records.new (5 + 56 * 4 ^ start.now.square.log2_size) }
{
    if start.intra {
        intra_body(reader, records, levels, syntax, start)
    } else if start.skipped {
        skipped_unit(reader, records, syntax, start)
    } else {
        inter_unit(reader, records, levels, syntax, start)
    }
}

/// A coding unit.
#[tactic(auto, unfolding(spec_slice_data::specs::Tree::coding_unit), using(transform_tree::proofs::Powers::some_area))]
pub fn coding_unit(
    reader: &mut BinReader<'_>,
    records: &mut Records,
    levels: &mut Levels,
    syntax: &CtuSyntax,
    square: Square,
    depth: u8,
) -> Result<(), Breach>
    requires live { IsLive reader.old.interval }
    requires syntax { IsSyntax syntax.now }
    requires some { 0 < square.log2_size }
    requires placed { IsPlaced square }
    requires depth { depth ≤ 3 }
    requires room { length records.old.items + 64 * 4 ^ square.log2_size ≤ room }
    ensures value { Fills result records.new reader.old reader.new (coding_unit syntax.now depth square records.old) }
    ensures room { Grows result records.old records.new (64 * 4 ^ square.log2_size) }
{
    let start = unit_start(reader, records, syntax, square, depth)?;
    begin_unit(records, &start);
    unit_body(reader, records, levels, syntax, &start)
}
