//! Intra prediction modes (7.3.8.5, 8.4.2, 8.4.3).

ghost use Rattle.std.specs.Prelude.{◌≡◌, ◌+◌, ◌-◌, ◌*◌, ◌^◌, ◌<◌, ◌≤◌, length, IfOk};
ghost use Rattle.ctu_records.specs.Tree.{IsPlaced, luma_mode_at, room};
ghost use Rattle.spec_cabac.specs.Engine.{IsLive};
ghost use Rattle.spec_slice_data.specs.Modes.{candidate, candidates, chroma_mode, chroma_modes, intra_chroma_pred_mode};
ghost use Rattle.spec_slice_data.specs.Modes.{listed_mode, luma_block, luma_blocks, luma_mode, luma_modes};
ghost use Rattle.spec_slice_data.specs.Modes.{luma_quarters, luma_whole, prev_intra_luma_pred_flag, passed, remaining};
ghost use Rattle.spec_slice_data.specs.Modes.{third_candidate};
ghost use Rattle.transform_tree.specs.CabacContexts.{Takes};
ghost use Rattle.transform_tree.specs.Leaves.{Fills, Grows};

use ctu_records::{LumaMode, Records, Square};
use hv_base::Breach;
use spec_cabac::{INTRA_CHROMA_PRED_MODE, PREV_INTRA_LUMA_PRED_FLAG};
use spec_slice_data::Candidates;
use transform_tree::{BinReader, lower_left, lower_right, upper_left, upper_right};

/// The first of planar, DC and vertical that is neither of two others.
#[tactic(auto, unfolding(spec_slice_data::specs::Modes::third_candidate))]
fn third_candidate(a: u8, b: u8) -> u8
    ensures { result ≡ third_candidate a b }
{
    if a != 0 && b != 0 {
        0
    } else if a != 1 && b != 1 {
        1
    } else {
        26
    }
}

/// candModeList, by the modes on the left and above.
#[tactic(auto, unfolding(spec_slice_data::specs::Modes::candidates))]
fn candidates(a: u8, b: u8) -> Candidates
    ensures { result ≡ candidates a b }
{
    if a != b {
        return Candidates {
            first: a,
            second: b,
            third: third_candidate(a, b),
        };
    }
    if a < 2 {
        return Candidates {
            first: 0,
            second: 1,
            third: 26,
        };
    }
    let mode = u32::from(a);
    Candidates {
        first: a,
        second: (2 + (mode + 29) % 32) as u8,
        third: (2 + (mode - 1) % 32) as u8,
    }
}

fn candidate(c: Candidates, index: u32) -> u8
    ensures { result ≡ candidate c index }
{
    match index {
        0 => c.first,
        1 => c.second,
        _ => c.third,
    }
}

/// The mode with this number among those that are no candidates.
#[tactic(auto, unfolding(spec_slice_data::specs::Modes::remaining))]
fn remaining(c: Candidates, rem: u32) -> u8
    requires { rem < 32 }
    ensures { result ≡ remaining c rem }
{
    let low = c.first.min(c.second);
    let high = c.first.max(c.second);
    let between = low.max(c.third);
    let first = passed(low.min(c.third), rem as u8);
    let second = passed(high.min(between), first);
    passed(high.max(between), second)
}

/// One higher where it has reached a candidate.
fn passed(candidate: u8, mode: u8) -> u8
    requires { mode < 100 }
    ensures value { result ≡ passed candidate mode }
    ensures small { result ≤ mode + 1 }
{
    if candidate <= mode { mode + 1 } else { mode }
}

/// mpm_idx or rem_intra_luma_pred_mode, and the mode that it tells.
#[tactic(auto, unfolding(spec_slice_data::specs::Modes::luma_mode))]
fn luma_mode(reader: &mut BinReader<'_>, most_probable: bool, c: Candidates) -> Result<u8, Breach>
    requires { IsLive reader.old.interval }
    ensures { Takes (λ x. x) result reader.old reader.new (luma_mode most_probable c) }
{
    if most_probable {
        let index = reader.truncated(2)?;
        Ok(candidate(c, index))
    } else {
        let rem = reader.fixed(5)?;
        Ok(remaining(c, rem))
    }
}

/// A prediction block.
#[tactic(auto, unfolding(spec_slice_data::specs::Modes::luma_block), using(transform_tree::proofs::Powers::some_places))]
fn luma_block(
    reader: &mut BinReader<'_>,
    records: &mut Records,
    square: Square,
    most_probable: bool,
) -> Result<(), Breach>
    requires live { IsLive reader.old.interval }
    requires placed { IsPlaced square }
    requires room { length records.old.items + 1 ≤ room }
    ensures value { Fills result records.new reader.old reader.new (luma_block square most_probable records.old) }
    ensures room { Grows result records.old records.new 1 }
{
    let x = usize::from(square.x);
    let y = usize::from(square.y);
    let candidates = candidates(records.mode_left(x, y), records.mode_above(x, y));
    let mode = luma_mode(reader, most_probable, candidates)?;
    records.set_luma(LumaMode { square, mode });
    Ok(())
}

/// prev_intra_luma_pred_flag.
fn prev_intra_luma_pred_flag(reader: &mut BinReader<'_>) -> Result<bool, Breach>
    requires { IsLive reader.old.interval }
    ensures { Takes (λ x. x) result reader.old reader.new prev_intra_luma_pred_flag }
{
    reader.decision(PREV_INTRA_LUMA_PRED_FLAG)
}

/// Four blocks by their flags.
#[tactic(auto, unfolding(spec_slice_data::specs::Modes::luma_blocks))]
fn luma_blocks(
    reader: &mut BinReader<'_>,
    records: &mut Records,
    square: Square,
    flag_0: bool,
    flag_1: bool,
    flag_2: bool,
    flag_3: bool,
) -> Result<(), Breach>
    requires live { IsLive reader.old.interval }
    requires some { 0 < square.log2_size }
    requires placed { IsPlaced square }
    requires room { length records.old.items + 4 ≤ room }
    ensures value { Fills result records.new reader.old reader.new
        (luma_blocks square flag_0 flag_1 flag_2 flag_3 records.old) }
    ensures room { Grows result records.old records.new 4 }
{
    luma_block(reader, records, upper_left(square), flag_0)?;
    luma_block(reader, records, upper_right(square), flag_1)?;
    luma_block(reader, records, lower_left(square), flag_2)?;
    luma_block(reader, records, lower_right(square), flag_3)
}

/// The four blocks of a coding unit.
#[tactic(auto, unfolding(spec_slice_data::specs::Modes::luma_quarters))]
fn luma_quarters(
    reader: &mut BinReader<'_>,
    records: &mut Records,
    square: Square,
) -> Result<(), Breach>
    requires live { IsLive reader.old.interval }
    requires some { 0 < square.log2_size }
    requires placed { IsPlaced square }
    requires room { length records.old.items + 4 ≤ room }
    ensures value { Fills result records.new reader.old reader.new (luma_quarters square records.old) }
    ensures room { Grows result records.old records.new 4 }
{
    let flag_0 = prev_intra_luma_pred_flag(reader)?;
    let flag_1 = prev_intra_luma_pred_flag(reader)?;
    let flag_2 = prev_intra_luma_pred_flag(reader)?;
    let flag_3 = prev_intra_luma_pred_flag(reader)?;
    luma_blocks(reader, records, square, flag_0, flag_1, flag_2, flag_3)
}

/// The luma modes of a coding unit.
pub fn luma_modes(
    reader: &mut BinReader<'_>,
    records: &mut Records,
    square: Square,
    split: bool,
) -> Result<(), Breach>
    requires live { IsLive reader.old.interval }
    requires some { 0 < square.log2_size }
    requires placed { IsPlaced square }
    requires room { length records.old.items + 4 ≤ room }
    ensures value { Fills result records.new reader.old reader.new (luma_modes split square records.old) }
    ensures room { Grows result records.old records.new 4 }
{
    if split {
        luma_quarters(reader, records, square)
    } else {
        let most_probable = prev_intra_luma_pred_flag(reader)?;
        luma_block(reader, records, square, most_probable)
    }
}

/// intra_chroma_pred_mode.
#[tactic(auto, unfolding(spec_slice_data::specs::Modes::intra_chroma_pred_mode))]
fn intra_chroma_pred_mode(reader: &mut BinReader<'_>) -> Result<u32, Breach>
    requires { IsLive reader.old.interval }
    ensures { Takes (λ x. x) result reader.old reader.new intra_chroma_pred_mode }
{
    if reader.decision(INTRA_CHROMA_PRED_MODE)? {
        reader.fixed(2)
    } else {
        Ok(4)
    }
}

/// Planar, vertical, horizontal, DC.
#[tactic(auto, unfolding(spec_slice_data::specs::Modes::listed_mode))]
fn listed_mode(choice: u32) -> u8
    ensures { result ≡ listed_mode choice }
{
    match choice {
        0 => 0,
        1 => 26,
        2 => 10,
        _ => 1,
    }
}

/// IntraPredModeC by intra_chroma_pred_mode and the luma mode of the first block.
#[tactic(auto, unfolding(spec_slice_data::specs::Modes::chroma_mode))]
fn chroma_mode(choice: u32, luma: u8) -> u8
    ensures { result ≡ chroma_mode choice luma }
{
    if choice == 4 {
        return luma;
    }
    let listed = listed_mode(choice);
    if listed == luma { 34 } else { listed }
}

/// The chroma mode of a coding unit at a place.
#[tactic(auto, unfolding(spec_slice_data::specs::Modes::chroma_modes))]
pub fn chroma_modes(
    reader: &mut BinReader<'_>,
    records: &Records,
    x: u8,
    y: u8,
) -> Result<u8, Breach>
    requires live { IsLive reader.old.interval }
    requires x { x < 16 }
    requires y { y < 16 }
    ensures { Takes (λ m. m) result reader.old reader.new (chroma_modes x y records.now) }
{
    let choice = intra_chroma_pred_mode(reader)?;
    let luma = records.luma_mode(usize::from(x), usize::from(y));
    Ok(chroma_mode(choice, luma))
}
