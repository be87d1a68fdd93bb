//! Bit depths, quantization parameters and scaling factors of blocks.

ghost use Rattle.std.specs.Prelude.{◌≡◌, ℕ, ◌+◌, ◌-◌, ◌*◌, ◌^◌, ◌<◌, ◌≤◌, pos, negsuc, ◌-ℤ◌, ◌+ℤ◌, ◌≤ℤ◌, length};
ghost use Rattle.std.specs.Prelude.{slice_index};
ghost use Rattle.ctu_build.specs.Offsets.{near_offset};
ghost use Rattle.spec_reconstruction.specs.Factors.{factor, first_factor};
ghost use Rattle.spec_reconstruction.specs.Parameters.{depth_of, depth_offset, chroma_offset, chroma_parameter};
ghost use Rattle.spec_reconstruction.specs.Parameters.{offset_parameter, parameter_of};
ghost use Rattle.spec_reconstruction.specs.Residuals.{factors_of};
ghost use Rattle.spec_transforms.specs.Scaling.{IsDepth, IsParameter};
ghost use Rattle.spec_reconstruction.specs.Sound.{IsFormat};

use spec_reconstruction::{ScalingFactors, UnitFormat, UnitMode, chroma_qp_of_index};

/// The bit depth of a component.
pub(crate) fn depth_of(format: &UnitFormat, c: u8) -> u32
    requires { IsFormat format.now }
    ensures value { result ≡ depth_of format.now c }
    ensures depth { IsDepth result }
{
    if c == 0 {
        u32::from(format.luma_depth)
    } else {
        u32::from(format.chroma_depth)
    }
}

/// qP of a block of a component in a coding unit of this Qp'Y.
#[tactic(auto, unfolding(spec_reconstruction::specs::Parameters::parameter_of))]
pub(crate) fn parameter_of(format: &UnitFormat, c: u8, qp: u8) -> u32
    requires format { IsFormat format.now }
    requires qp { IsParameter format.now.luma_depth qp }
    ensures value { result ≡ parameter_of format.now c qp }
    ensures range { IsParameter (depth_of format.now c) result }
{
    if c == 0 {
        u32::from(qp)
    } else {
        let index = chroma_index(
            qp,
            depth_offset(format.luma_depth),
            chroma_offset(format, c),
        );
        chroma_parameter(depth_offset(format.chroma_depth), index)
    }
}

/// What qPi is held from, by Qp'Y, QpBdOffsetY and the offset of a component.
fn chroma_index(qp: u8, luma: u32, offset: i64) -> i32
    requires { luma ≤ 36 }
    ensures { result ≡ pos qp -ℤ pos luma +ℤ near_offset offset }
{
    i32::from(qp) - luma as i32 + near_offset(offset)
}

/// An offset, or where it is so far from 0 that qPi is held anyway, one that is far enough.
#[tactic(auto, unfolding(crate::specs::Offsets::near_offset))]
fn near_offset(offset: i64) -> i32
    ensures value { result ≡ near_offset offset }
    ensures least { negsuc 511 ≤ℤ result }
    ensures greatest { result ≤ℤ pos 511 }
{
    offset.clamp(-512, 511) as i32
}

/// QpBdOffset.
fn depth_offset(depth: u8) -> u32
    requires { IsDepth depth }
    ensures value { result ≡ depth_offset depth }
    ensures few { result ≤ 36 }
{
    6 * (u32::from(depth) - 8)
}

/// The offset of Cb or Cr.
fn chroma_offset(format: &UnitFormat, c: u8) -> i64
    ensures { result ≡ chroma_offset format.now c }
{
    if c == 1 {
        format.cb_qp_offset
    } else {
        format.cr_qp_offset
    }
}

/// Qp'Cb or Qp'Cr by QpBdOffsetC and what qPi is held from.
#[tactic(auto, unfolding(spec_reconstruction::specs::Parameters::chroma_parameter))]
fn chroma_parameter(offset: u32, index: i32) -> u32
    requires { offset ≤ 36 }
    ensures value { result ≡ chroma_parameter offset index }
    ensures range { result ≤ 51 + offset }
{
    offset_parameter(offset, index.clamp(-(offset as i32), 57))
}

/// QpC and QpBdOffsetC by qPi.
fn offset_parameter(offset: u32, index: i32) -> u32
    requires offset { offset ≤ 36 }
    requires least { negsuc offset ≤ℤ index }
    requires greatest { index ≤ℤ pos 57 }
    ensures value { result ≡ offset_parameter offset index }
    ensures range { result ≤ 51 + offset }
{
    let size = index.unsigned_abs();
    if index < 0 {
        offset.saturating_sub(size)
    } else {
        chroma_qp_of_index(size) + offset
    }
}

/// The scaling factors of the blocks of a coding unit.
fn unit_factors<'a>(format: &'a UnitFormat, mode: UnitMode) -> &'a ScalingFactors
    ensures { result.now ≡ factors_of format.now mode }
{
    if mode.intra {
        &format.intra_factors
    } else {
        &format.inter_factors
    }
}

/// Those of its blocks of a component and a size.
#[tactic(auto, using(crate::proofs::Sizes::small))]
pub(crate) fn factors_of<'a>(format: &'a UnitFormat, mode: UnitMode, log2: u32, c: u8) -> &'a [u8]
    requires some { 2 ≤ log2 }
    requires few { log2 ≤ 5 }
    requires c { c < 3 }
    ensures count { length result.now ≡ 2 ^ log2 * 2 ^ log2 }
    ensures value { (k : ℕ) → k < 2 ^ log2 * 2 ^ log2
        → slice_index result.now k ≡ factor (factors_of format.now mode) log2 c k }
{
    let n = 1 << log2;
    let first = first_factor(log2, usize::from(c));
    &unit_factors(format, mode).by_place[first..first + n * n]
}

/// Where they begin.
#[tactic(auto, unfolding(spec_reconstruction::specs::Factors::first_factor))]
fn first_factor(log2: u32, c: usize) -> usize
    requires some { 2 ≤ log2 }
    requires few { log2 ≤ 5 }
    requires c { c < 3 }
    ensures value { result ≡ first_factor log2 c }
    ensures inside { result + 2 ^ log2 * 2 ^ log2 ≤ 2032 }
{
    match log2 {
        2 => 16 * c,
        3 => 48 + 64 * c,
        4 => 240 + 256 * c,
        _ => 1008,
    }
}
