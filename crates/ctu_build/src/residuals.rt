//! The residuals of a coded block.

ghost use Rattle.std.specs.Prelude.{◌≡◌, ℕ, ◌*◌, ◌^◌, ◌<◌, ◌≤◌, ◌-◌, false, length};
ghost use Rattle.std.specs.List.{All};
ghost use Rattle.spec_reconstruction.specs.Parameters.{depth_of};
ghost use Rattle.spec_reconstruction.specs.Residuals.{has_sines, levels_behind, residuals, scaled_block};
ghost use Rattle.spec_transforms.specs.Scaling.{Is16, IsParameter};
ghost use Rattle.spec_transforms.specs.Transforms.{IsResidual, block_in, skipped, transformed};
ghost use Rattle.spec_reconstruction.specs.Sound.{IsCoded, IsFormat};

use crate::levels::read_scaled;
use crate::parameters::{depth_of, factors_of};
use ctu_records::{CodedBlock, Item};
use residual_transform::{inverse, scaling_of, skip};
use spec_reconstruction::{UnitFormat, UnitMode};

/// A coded block, how its coding unit is coded, and its qP.
#[derive(Clone, Copy)]
pub(crate) struct Quantized {
    /// The block.
    pub(crate) block: CodedBlock,
    /// How its coding unit is coded.
    pub(crate) mode: UnitMode,
    /// qP: at most 51, and 6 more for each bit of depth above 8.
    pub(crate) qp: u32,
}

/// The scaled coefficients of a block's levels, by the items behind it.
fn read_coefficients(format: &UnitFormat, coded: Quantized, items: &[Item], scaled: &mut [i32])
    requires format { IsFormat format.now }
    requires block { IsCoded coded.block }
    requires qp { IsParameter (depth_of format.now coded.block.component) coded.qp }
    requires count { length scaled.old ≡ 2 ^ coded.block.log2_size * 2 ^ coded.block.log2_size }
    ensures value { (x y : ℕ) → x < 2 ^ coded.block.log2_size → y < 2 ^ coded.block.log2_size
        → block_in (2 ^ coded.block.log2_size) scaled.new x y
        ≡ scaled_block format.now coded.mode coded.block.component coded.block.log2_size coded.qp
        (levels_behind (length scaled.old) items.now) x y }
    ensures small { All Is16 scaled.new }
    ensures count { length scaled.new ≡ length scaled.old }
{
    let block = coded.block;
    let log2 = u32::from(block.log2_size);
    let depth = depth_of(format, block.component);
    let factors = factors_of(format, coded.mode, log2, block.component);
    let scaling = scaling_of(log2, coded.qp, depth);
    read_scaled(items, scaling, factors, scaled);
}

/// Whether a block has the transform of sines.
fn has_sines(mode: UnitMode, block: CodedBlock) -> bool
    ensures { result ≡ has_sines mode block.component block.log2_size }
{
    mode.intra && (block.component == 0 && block.log2_size == 2)
}

/// The residuals of scaled coefficients by the block's transform.
fn transform(
    format: &UnitFormat,
    mode: UnitMode,
    block: CodedBlock,
    scaled: &[i32],
    out: &mut [i32],
)
    requires format { IsFormat format.now }
    requires block { IsCoded block }
    requires scaled { All Is16 scaled.now }
    requires count { length scaled.now ≡ 2 ^ block.log2_size * 2 ^ block.log2_size }
    requires room { length out.old ≡ length scaled.now }
    ensures value { (x y : ℕ) → x < 2 ^ block.log2_size → y < 2 ^ block.log2_size
        → block_in (2 ^ block.log2_size) out.new x y
        ≡ transformed (depth_of format.now block.component) (has_sines mode block.component block.log2_size)
        (2 ^ block.log2_size) (block_in (2 ^ block.log2_size) scaled.now) x y }
    ensures small { All IsResidual out.new }
{
    let depth = depth_of(format, block.component);
    let log2 = u32::from(block.log2_size);
    inverse(scaled, log2, has_sines(mode, block), depth, out);
}

/// The residuals of scaled coefficients whose transform is skipped.
#[tactic(auto, using(crate::proofs::Squares::below_square))]
fn skip_transform(format: &UnitFormat, block: CodedBlock, scaled: &[i32], out: &mut [i32])
    requires format { IsFormat format.now }
    requires block { IsCoded block }
    requires scaled { All Is16 scaled.now }
    requires count { length scaled.now ≡ 2 ^ block.log2_size * 2 ^ block.log2_size }
    requires room { length out.old ≡ length scaled.now }
    ensures value { (x y : ℕ) → x < 2 ^ block.log2_size → y < 2 ^ block.log2_size
        → block_in (2 ^ block.log2_size) out.new x y
        ≡ skipped (depth_of format.now block.component) (block_in (2 ^ block.log2_size) scaled.now x y) }
    ensures small { All IsResidual out.new }
{
    let depth = depth_of(format, block.component);
    skip(scaled, u32::from(block.log2_size), depth, out);
}

/// The residuals of a block's levels, which are the next items, where cu_transquant_bypass_flag is 0.
pub(crate) fn residuals_of(
    format: &UnitFormat,
    coded: Quantized,
    items: &[Item],
    scaled: &mut [i32],
    out: &mut [i32],
)
    requires format { IsFormat format.now }
    requires block { IsCoded coded.block }
    requires bypass { coded.mode.transquant_bypass ≡ false }
    requires qp { IsParameter (depth_of format.now coded.block.component) coded.qp }
    requires scaled { length scaled.old ≡ 2 ^ coded.block.log2_size * 2 ^ coded.block.log2_size }
    requires room { length out.old ≡ length scaled.old }
    ensures value { (x y : ℕ) → x < 2 ^ coded.block.log2_size → y < 2 ^ coded.block.log2_size
        → block_in (2 ^ coded.block.log2_size) out.new x y
        ≡ residuals format.now coded.mode coded.block coded.qp (levels_behind (length scaled.old) items.now) x y }
    ensures small { All IsResidual out.new }
{
    let block = coded.block;
    read_coefficients(format, coded, items, scaled);
    if block.transform_skip {
        skip_transform(format, block, scaled, out);
    } else {
        transform(format, coded.mode, block, scaled, out);
    }
}
