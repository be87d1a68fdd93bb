//! Quantization groups and cu_qp_delta (7.3.8.4, 7.3.8.10, 8.6.1).

ghost use Rattle.std.specs.Prelude.{◌≡◌, ℕ, ◌+◌, ◌-◌, ◌*◌, ◌/◌, ◌^◌, ◌<◌, ◌≤◌, true, length, IfOk};
ghost use Rattle.ctu_records.specs.Tree.{IsPlaced, room};
ghost use Rattle.residual_syntax.specs.SpecCabac.{IsLive};
ghost use Rattle.residual_syntax.specs.SpecCabac.{truncated};
ghost use Rattle.spec_slice_data.specs.Quantization.{cu_qp_delta, cu_qp_delta_abs, delta_bin, delta_where, group_at};
ghost use Rattle.spec_slice_data.specs.Quantization.{grouped, is_delta, qp_of};
ghost use Rattle.residual_syntax.specs.CabacContexts.{Takes};
ghost use Rattle.transform_tree.specs.Leaves.{Fills, Grows};

use crate::sign::signed;
use ctu_records::{QpDelta, Quantization, Records, Square};
use hv_base::{Breach, FaultKind};
use residual_syntax::{BinReader, CU_QP_DELTA_ABS};
use spec_slice_data::CtuSyntax;

const OUT_OF_RANGE: Breach = Breach::Fault(FaultKind::QpRange);

/// A group that begins at a place.
#[tactic(auto, unfolding(spec_slice_data::specs::Quantization::group_at))]
fn group_at(records: &Records, x: u8, y: u8) -> Quantization
    requires x { x < 16 }
    requires y { y < 16 }
    ensures { result ≡ group_at records.now x y }
{
    let left = u32::from(records.qp_left(usize::from(x), usize::from(y)));
    let above = u32::from(records.qp_above(usize::from(x), usize::from(y)));
    let predicted = ((left + above + 1) / 2) as u8;
    Quantization {
        last: records.quantization().last,
        predicted,
        qp: predicted,
        coded: false,
    }
}

/// A block of the coding quadtree that is no smaller than a quantization group begins one (7.3.8.4, 8.6.1): with it
/// its parameter is predicted.
#[tactic(auto, unfolding(spec_slice_data::specs::Quantization::grouped))]
pub fn begin_group(records: &mut Records, syntax: &CtuSyntax, square: Square)
    requires x { square.x < 16 }
    requires y { square.y < 16 }
    ensures value { records.new ≡ grouped syntax.now square records.old }
    ensures same { records.new.items ≡ records.old.items }
{
    if syntax.log2_group <= square.log2_size {
        let group = group_at(records, square.x, square.y);
        records.set_quantization(group);
    }
}

/// A bin of the prefix of cu_qp_delta_abs.
fn delta_bin(reader: &mut BinReader<'_>, i: u32) -> Result<bool, Breach>
    requires { IsLive reader.old.interval }
    ensures { Takes (λ x. x) result reader.old reader.new (delta_bin i) }
{
    if i == 0 {
        reader.decision(CU_QP_DELTA_ABS)
    } else {
        reader.decision(CU_QP_DELTA_ABS + 1)
    }
}

/// The prefix of cu_qp_delta_abs, whose first bin has a context of its own.
fn delta_prefix(reader: &mut BinReader<'_>) -> Result<u32, Breach>
    requires { IsLive reader.old.interval }
    ensures value { Takes (λ x. x) result reader.old reader.new (truncated delta_bin 5) }
    ensures small { IfOk result (λ n. n ≤ 5) }
{
    for i in 0..5u32 {
        if !delta_bin(reader, i)? {
            return Ok(i);
        }
    }
    Ok(5)
}

/// cu_qp_delta_abs.
#[tactic(auto, unfolding(spec_slice_data::specs::Quantization::cu_qp_delta_abs))]
fn cu_qp_delta_abs(reader: &mut BinReader<'_>) -> Result<u64, Breach>
    requires { IsLive reader.old.interval }
    ensures { Takes (λ x. x) result reader.old reader.new cu_qp_delta_abs }
{
    let prefix = delta_prefix(reader)?;
    if prefix == 5 {
        let suffix = reader.exp_golomb(OUT_OF_RANGE, 0)?;
        Ok(5 + suffix)
    } else {
        Ok(u64::from(prefix))
    }
}

/// Whether CuQpDeltaVal is in range.
#[tactic(auto, unfolding(spec_slice_data::specs::Quantization::is_delta))]
fn is_delta(offset: u8, size: u64, negative: bool) -> bool
    ensures value { result ≡ is_delta offset size negative }
    ensures small { result ≡ true → size ≤ 26 + offset / 2 }
{
    let bound = u64::from(26 + u32::from(offset) / 2);
    if negative {
        size <= bound
    } else {
        size < bound
    }
}

/// cu_qp_delta_abs and cu_qp_delta_sign_flag.
#[tactic(auto, unfolding(spec_slice_data::specs::Quantization::cu_qp_delta))]
fn cu_qp_delta(reader: &mut BinReader<'_>, offset: u8) -> Result<(u32, bool), Breach>
    requires { IsLive reader.old.interval }
    ensures value { Takes (λ x. x) result reader.old reader.new (cu_qp_delta offset) }
    ensures small { IfOk result (λ delta. delta.0 ≤ 26 + offset / 2) }
{
    let size = cu_qp_delta_abs(reader)?;
    let negative = if size == 0 { false } else { reader.bypass()? };
    if !is_delta(offset, size, negative) {
        return Err(OUT_OF_RANGE);
    }
    Ok((size as u32, negative))
}

/// Qp'Y by the group's prediction and CuQpDeltaVal.
#[tactic(auto, unfolding(spec_slice_data::specs::Quantization::qp_of))]
fn qp_of(offset: u8, predicted: u8, size: u32, negative: bool) -> u8
    requires offset { offset ≤ 48 }
    requires small { size ≤ 26 + offset / 2 }
    ensures { result ≡ qp_of offset predicted size negative }
{
    let count = 52 + u32::from(offset);
    let predicted = u32::from(predicted);
    let sum = if negative {
        predicted + count - size
    } else {
        predicted + size
    };
    (sum % count) as u8
}

/// cu_qp_delta of a coding unit, where it stands.
#[tactic(auto, unfolding(spec_slice_data::specs::Quantization::delta_where))]
pub fn delta_where(
    reader: &mut BinReader<'_>,
    records: &mut Records,
    syntax: &CtuSyntax,
    square: Square,
    there: bool,
) -> Result<(), Breach>
    requires live { IsLive reader.old.interval }
    requires offset { syntax.now.qp_offset ≤ 48 }
    requires placed { IsPlaced square }
    requires room { length records.old.items + 1 ≤ room }
    ensures value { Fills result records.new reader.old reader.new (delta_where syntax.now square there records.old) }
    ensures room { Grows result records.old records.new 1 }
{
    if !there {
        return Ok(());
    }
    let (size, negative) = cu_qp_delta(reader, syntax.qp_offset)?;
    let predicted = records.quantization().predicted;
    let qp = qp_of(syntax.qp_offset, predicted, size, negative);
    records.set_quantization(Quantization {
        last: qp,
        predicted,
        qp,
        coded: true,
    });
    records.set_delta(QpDelta {
        square,
        delta: signed(size, negative),
        qp,
    });
    Ok(())
}
