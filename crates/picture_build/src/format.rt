//! What the samples of a slice's coding tree units depend on (7.4.3.2, 7.4.3.3, 7.4.7.1).

ghost use Rattle.std.specs.Prelude.{◌≡◌, ◌+◌, ◌+ℤ◌, ◌≤◌, true, false, IfOk};
ghost use Rattle.picture_build.specs.Formats.{IsCommon, of_slice};
ghost use Rattle.param_sets.specs.SpecParameterSets.{picture_scaling_lists};
ghost use Rattle.picture_trees.specs.SpecPictureTrees.{pcm_syntax};
ghost use Rattle.spec_reconstruction.specs.Factors.{scaling_factors};
ghost use Rattle.spec_reconstruction.specs.Sound.{IsFormat};

use crate::factors::picture_factors;
use header_types::{Pps, Sps};
use plan_types::PicturePlan;
use slice_types::SliceFields;
use spec_reconstruction::{ScalingFactors, UnitFormat};
use std::alloc::{AllocError, Global};

/// What all units of a picture depend on, with no offsets of a slice.
pub fn common_format(alloc: Global, plan: &PicturePlan) -> Result<UnitFormat, AllocError>
    ensures value { IfOk result (λ f. IsCommon plan.now.sps plan.now.pps f) }
    ensures format { IfOk result (λ f. IsFormat f) }
{
    let intra = picture_factors(alloc, &plan.sps, &plan.pps, true)?;
    let inter = picture_factors(alloc, &plan.sps, &plan.pps, false)?;
    Ok(format_by(&plan.sps, &plan.pps, intra, inter))
}

/// The same by the picture's scaling factors.
#[tactic(auto, unfolding(spec_picture_build::specs::Format::unit_format))]
fn format_by(sps: &Sps, pps: &Pps, intra: ScalingFactors, inter: ScalingFactors) -> UnitFormat
    ensures value { intra ≡ scaling_factors (picture_scaling_lists sps.now pps.now) true
        → inter ≡ scaling_factors (picture_scaling_lists sps.now pps.now) false → IsCommon sps.now pps.now result }
    ensures format { IsFormat result }
{
    let bits = pcm_bits(sps);
    let fields = sps.fields();
    UnitFormat {
        luma_depth: 8 + fields.format.bit_depth_luma_minus8 as u8,
        chroma_depth: 8 + fields.format.bit_depth_chroma_minus8 as u8,
        pcm_luma_bits: bits.luma,
        pcm_chroma_bits: bits.chroma,
        cb_qp_offset: 0,
        cr_qp_offset: 0,
        strong_intra_smoothing: fields.strong_intra_smoothing_enabled_flag,
        constrained_intra: pps.fields().quantization.constrained_intra_pred_flag,
        intra_factors: intra,
        inter_factors: inter,
    }
}

/// PcmBitDepthY and PcmBitDepthC.
#[derive(Clone, Copy)]
struct PcmBits {
    luma: u8,
    chroma: u8,
}

/// Those of a picture, 0 where no block is by pulse code modulation.
fn pcm_bits(sps: &Sps) -> PcmBits
    ensures luma { result.luma ≡ (pcm_syntax sps.now.tools.pcm).luma_bits }
    ensures chroma { result.chroma ≡ (pcm_syntax sps.now.tools.pcm).chroma_bits }
    ensures few_luma { result.luma ≤ 8 + sps.now.format.bit_depth_luma_minus8 }
    ensures few_chroma { result.chroma ≤ 8 + sps.now.format.bit_depth_chroma_minus8 }
{
    match sps.fields().tools.pcm {
        None => PcmBits { luma: 0, chroma: 0 },
        Some(pcm) => PcmBits {
            luma: (pcm.pcm_sample_bit_depth_luma_minus1 + 1) as u8,
            chroma: (pcm.pcm_sample_bit_depth_chroma_minus1 + 1) as u8,
        },
    }
}

/// The units of this slice come.
pub fn set_slice(format: &mut UnitFormat, pps: &Pps, slice: &SliceFields)
    requires { IsFormat format.old }
    ensures value { format.new ≡ of_slice pps.now slice.now format.old }
    ensures format { IsFormat format.new }
{
    let pps = pps.fields();
    format.cb_qp_offset = sum_of(pps.quantization.pps_cb_qp_offset, slice.slice_cb_qp_offset);
    format.cr_qp_offset = sum_of(pps.quantization.pps_cr_qp_offset, slice.slice_cr_qp_offset);
}

/// The offset of a picture and that of a slice.
fn sum_of(picture: i32, slice: i32) -> i64
    ensures { result ≡ picture +ℤ slice }
{
    i64::from(picture) + i64::from(slice)
}
