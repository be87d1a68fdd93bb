//! Vectors of prediction units as they are coded (7.3.8.6, 7.3.8.9).

ghost use Rattle.std.specs.Prelude.{◌≡◌, ◌+◌, ◌<◌, ◌≤◌, true, false};
ghost use Rattle.spec_cabac.specs.Engine.{IsLive};
ghost use Rattle.spec_slice_data.specs.Inter.{abs_mvd_greater1_flag, difference, difference_size, difference_where};
ghost use Rattle.spec_slice_data.specs.Inter.{inter_pred_idc, is_difference, mvd_coding, one_list, one_or_both};
ghost use Rattle.spec_slice_data.specs.Inter.{some_difference, vector_in, vector_where, vectors};
ghost use Rattle.spec_slice_data.specs.Offset.{signed};
ghost use Rattle.transform_tree.specs.CabacContexts.{Takes};

use crate::bins::ref_idx;
use ctu_records::{MotionSyntax, Mv, Rectangle, VectorSyntax};
use hv_base::{Breach, FaultKind};
use spec_cabac::{ABS_MVD_GREATER0_FLAG, ABS_MVD_GREATER1_FLAG, INTER_PRED_IDC, MVP_FLAG};
use spec_slice_data::InterSyntax;
use transform_tree::BinReader;

const OUT_OF_RANGE: Breach = Breach::Fault(FaultKind::MvdRange);

/// PRED_L0 or PRED_L1.
fn one_list(reader: &mut BinReader<'_>) -> Result<u8, Breach>
    requires { IsLive reader.old.interval }
    ensures { Takes (λ x. x) result reader.old reader.new one_list }
{
    let second = reader.decision(INTER_PRED_IDC + 4)?;
    Ok(u8::from(second))
}

/// One of them, or PRED_BI.
fn one_or_both(reader: &mut BinReader<'_>, depth: u8) -> Result<u8, Breach>
    requires live { IsLive reader.old.interval }
    requires depth { depth ≤ 3 }
    ensures { Takes (λ x. x) result reader.old reader.new (one_or_both depth) }
{
    if reader.decision(INTER_PRED_IDC + usize::from(depth))? {
        Ok(2)
    } else {
        one_list(reader)
    }
}

/// inter_pred_idc.
#[tactic(auto, unfolding(spec_slice_data::specs::Inter::inter_pred_idc))]
fn inter_pred_idc(
    reader: &mut BinReader<'_>,
    inter: &InterSyntax,
    depth: u8,
    block: Rectangle,
) -> Result<u8, Breach>
    requires live { IsLive reader.old.interval }
    requires depth { depth ≤ 3 }
    ensures { Takes (λ x. x) result reader.old reader.new (inter_pred_idc inter.now depth block) }
{
    if !inter.is_b {
        return Ok(0);
    }
    if u32::from(block.width) + u32::from(block.height) == 3 {
        one_list(reader)
    } else {
        one_or_both(reader, depth)
    }
}

/// The size of a component that isn't 0.
#[tactic(auto, unfolding(spec_slice_data::specs::Inter::difference_size))]
fn difference_size(reader: &mut BinReader<'_>, more: bool) -> Result<u64, Breach>
    requires { IsLive reader.old.interval }
    ensures { Takes (λ x. x) result reader.old reader.new (difference_size more) }
{
    if more {
        let rest = reader.exp_golomb(OUT_OF_RANGE, 1)?;
        Ok(rest + 2)
    } else {
        Ok(1)
    }
}

/// Whether a difference fits 16 bits.
#[tactic(auto, unfolding(spec_slice_data::specs::Inter::is_difference))]
fn is_difference(size: u64, negative: bool) -> bool
    ensures value { result ≡ is_difference size negative }
    ensures small { result ≡ true → size ≤ 32768 }
    ensures positive { result ≡ true → negative ≡ false → size < 32768 }
{
    if negative {
        size <= 32768
    } else {
        size < 32768
    }
}

/// A number by its size and whether it is negative.
#[tactic(auto, unfolding(spec_slice_data::specs::Offset::signed))]
fn signed(size: u32, negative: bool) -> i16
    requires few { size ≤ 32768 }
    requires positive { negative ≡ false → size < 32768 }
    ensures { result ≡ signed size negative }
{
    if negative {
        (-(size as i32)) as i16
    } else {
        size as i16
    }
}

/// A component that isn't 0.
#[tactic(auto, unfolding(spec_slice_data::specs::Inter::some_difference))]
fn some_difference(reader: &mut BinReader<'_>, more: bool) -> Result<i16, Breach>
    requires { IsLive reader.old.interval }
    ensures { Takes (λ x. x) result reader.old reader.new (some_difference more) }
{
    let size = difference_size(reader, more)?;
    let negative = reader.bypass()?;
    if !is_difference(size, negative) {
        return Err(OUT_OF_RANGE);
    }
    Ok(signed(size as u32, negative))
}

/// A component.
fn difference(reader: &mut BinReader<'_>, some: bool, more: bool) -> Result<i16, Breach>
    requires { IsLive reader.old.interval }
    ensures { Takes (λ x. x) result reader.old reader.new (difference some more) }
{
    if some {
        some_difference(reader, more)
    } else {
        Ok(0)
    }
}

/// abs_mvd_greater1_flag.
fn abs_mvd_greater1_flag(reader: &mut BinReader<'_>, some: bool) -> Result<bool, Breach>
    requires { IsLive reader.old.interval }
    ensures { Takes (λ x. x) result reader.old reader.new (abs_mvd_greater1_flag some) }
{
    if some {
        reader.decision(ABS_MVD_GREATER1_FLAG)
    } else {
        Ok(false)
    }
}

/// mvd_coding.
#[tactic(auto, unfolding(spec_slice_data::specs::Inter::mvd_coding))]
fn mvd_coding(reader: &mut BinReader<'_>) -> Result<Mv, Breach>
    requires { IsLive reader.old.interval }
    ensures { Takes (λ x. x) result reader.old reader.new mvd_coding }
{
    let some_x = reader.decision(ABS_MVD_GREATER0_FLAG)?;
    let some_y = reader.decision(ABS_MVD_GREATER0_FLAG)?;
    let more_x = abs_mvd_greater1_flag(reader, some_x)?;
    let more_y = abs_mvd_greater1_flag(reader, some_y)?;
    let x = difference(reader, some_x, more_x)?;
    let y = difference(reader, some_y, more_y)?;
    Ok(Mv { x, y })
}

/// mvd_coding where it stands.
fn difference_where(reader: &mut BinReader<'_>, coded: bool) -> Result<Mv, Breach>
    requires { IsLive reader.old.interval }
    ensures { Takes (λ x. x) result reader.old reader.new (difference_where coded) }
{
    if coded {
        mvd_coding(reader)
    } else {
        Ok(Mv { x: 0, y: 0 })
    }
}

/// The vector in a list of so many active references.
#[tactic(auto, unfolding(spec_slice_data::specs::Inter::vector_in))]
fn vector_in(reader: &mut BinReader<'_>, active: u8, coded: bool) -> Result<VectorSyntax, Breach>
    requires { IsLive reader.old.interval }
    ensures { Takes (λ x. x) result reader.old reader.new (vector_in active coded) }
{
    let ref_idx = ref_idx(reader, active.saturating_sub(1))?;
    let mvd = difference_where(reader, coded)?;
    let mvp = reader.decision(MVP_FLAG)?;
    Ok(VectorSyntax { ref_idx, mvd, mvp })
}

/// The vector in a list that is used.
#[tactic(auto, unfolding(spec_slice_data::specs::Inter::vector_where))]
fn vector_where(
    reader: &mut BinReader<'_>,
    there: bool,
    active: u8,
    coded: bool,
) -> Result<Option<VectorSyntax>, Breach>
    requires { IsLive reader.old.interval }
    ensures { Takes (λ x. x) result reader.old reader.new (vector_where there active coded) }
{
    if there {
        let vector = vector_in(reader, active, coded)?;
        Ok(Some(vector))
    } else {
        Ok(None)
    }
}

/// inter_pred_idc, and the vectors in the lists that it names.
#[tactic(auto, unfolding(spec_slice_data::specs::Inter::vectors))]
pub fn vectors(
    reader: &mut BinReader<'_>,
    inter: &InterSyntax,
    depth: u8,
    block: Rectangle,
) -> Result<MotionSyntax, Breach>
    requires live { IsLive reader.old.interval }
    requires depth { depth ≤ 3 }
    ensures { Takes (λ x. x) result reader.old reader.new (vectors inter.now depth block) }
{
    let lists = inter_pred_idc(reader, inter, depth, block)?;
    let first = vector_where(reader, lists != 1, inter.active_0, true)?;
    let coded = !(inter.mvd_l1_zero && lists == 2);
    let second = vector_where(reader, lists != 0, inter.active_1, coded)?;
    Ok(MotionSyntax::Vectors(first, second))
}
