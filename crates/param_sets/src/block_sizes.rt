//! The sizes of blocks in a sequence parameter set (7.3.2.2, 7.4.3.2).

ghost use Rattle.std.specs.Prelude.{◌≡◌, ◌+◌, ◌^◌, ◌%◌, ◌<◌, ◌≤◌, ◌==◌, min, IfOk, IfSome};
ghost use Rattle.header_fields.specs.Takes.{Takes};
ghost use Rattle.header_types.specs.SequenceParameterSets.{min_cb_log2, ctb_log2, IsBlockSizes, IsPcmFormat};
ghost use Rattle.spec_formats.specs.Fields.{optional};
ghost use Rattle.spec_parameter_sets.specs.SequenceParameterSet.{block_sizes, pcm_bit_depth, pcm_format};

use header_fields::FieldReader;
use header_types::{BlockSizes, PcmFormat, PictureFormat};
use hv_base::{FaultKind, Refusal};

/// Whether blocks of 2^`log2` samples fill a side.
fn is_whole(side: u32, log2: u32) -> bool
    requires { log2 ≤ 6 }
    ensures { result ≡ (side % 2 ^ log2 == 0) }
{
    side % (1 << log2) == 0
}

#[tactic(auto, unfolding(spec_parameter_sets::specs::SequenceParameterSet::block_sizes))]
pub(crate) fn read_block_sizes<'a>(
    reader: &mut FieldReader<'a>,
    width: u32,
    height: u32,
) -> Result<BlockSizes, Refusal>
    ensures value { Takes (λ x. x) result reader.old reader.new (block_sizes width height) }
    ensures in_range { IfOk result (IsBlockSizes width height) }
{
    let coding_minus3 = reader.ue_to(3)?;
    let min_cb_log2 = coding_minus3 + 3;
    reader.ranged(is_whole(width, min_cb_log2) && is_whole(height, min_cb_log2))?;
    let coding_diff = reader.ue()?;
    let ctb_log2 = u64::from(min_cb_log2) + u64::from(coding_diff);
    if ctb_log2 < 4 || ctb_log2 > 6 {
        return Err(Refusal::Fault(FaultKind::Profile));
    }
    let transform_minus2 = reader.ue()?;
    let min_tb_log2 = u64::from(transform_minus2) + 2;
    reader.ranged(min_tb_log2 < u64::from(min_cb_log2))?;
    let transform_diff = reader.ue()?;
    reader.ranged(min_tb_log2 + u64::from(transform_diff) <= ctb_log2.min(5))?;
    let deepest = (ctb_log2 - min_tb_log2) as u32;
    let max_transform_hierarchy_depth_inter = reader.ue_to(deepest)?;
    let max_transform_hierarchy_depth_intra = reader.ue_to(deepest)?;
    Ok(BlockSizes {
        log2_min_luma_coding_block_size_minus3: coding_minus3,
        log2_diff_max_min_luma_coding_block_size: coding_diff,
        log2_min_luma_transform_block_size_minus2: transform_minus2,
        log2_diff_max_min_luma_transform_block_size: transform_diff,
        max_transform_hierarchy_depth_inter,
        max_transform_hierarchy_depth_intra,
    })
}

#[tactic(auto, unfolding(spec_parameter_sets::specs::SequenceParameterSet::pcm_bit_depth))]
fn read_pcm_bit_depth<'a>(
    reader: &mut FieldReader<'a>,
    bit_depth_minus8: u32,
) -> Result<u32, Refusal>
    ensures value { Takes (λ x. x) result reader.old reader.new (pcm_bit_depth bit_depth_minus8) }
    ensures in_range { IfOk result (λ x. x ≤ 7 + bit_depth_minus8) }
{
    let minus1 = reader.u(4)?;
    reader.ranged(u64::from(minus1) <= 7 + u64::from(bit_depth_minus8))?;
    Ok(minus1)
}

#[tactic(auto, unfolding(spec_parameter_sets::specs::SequenceParameterSet::pcm_format))]
pub(crate) fn read_pcm_format<'a>(
    reader: &mut FieldReader<'a>,
    enabled: bool,
    format: &PictureFormat,
    blocks: &BlockSizes,
) -> Result<Option<PcmFormat>, Refusal>
    requires min_cb { min_cb_log2 blocks.now ≤ 6 }
    requires ctb { ctb_log2 blocks.now ≤ 6 }
    ensures value { Takes (λ x. x) result reader.old reader.new (optional enabled (pcm_format format.now blocks.now)) }
    ensures in_range { IfOk result (λ pcm. IfSome pcm (IsPcmFormat format.now blocks.now)) }
{
    if !enabled {
        return Ok(None);
    }
    let min_cb_log2 = blocks.log2_min_luma_coding_block_size_minus3 + 3;
    let ctb_log2 = min_cb_log2 + blocks.log2_diff_max_min_luma_coding_block_size;
    let pcm_sample_bit_depth_luma_minus1 = read_pcm_bit_depth(
        reader,
        format.bit_depth_luma_minus8,
    )?;
    let pcm_sample_bit_depth_chroma_minus1 = read_pcm_bit_depth(
        reader,
        format.bit_depth_chroma_minus8,
    )?;
    let minus3 = reader.ue()?;
    let min_pcm_log2 = u64::from(minus3) + 3;
    let greatest = u64::from(ctb_log2.min(5));
    reader.ranged(min_pcm_log2 >= u64::from(min_cb_log2.min(5)) && min_pcm_log2 <= greatest)?;
    let diff = reader.ue()?;
    reader.ranged(min_pcm_log2 + u64::from(diff) <= greatest)?;
    let pcm_loop_filter_disabled_flag = reader.flag()?;
    Ok(Some(PcmFormat {
        pcm_sample_bit_depth_luma_minus1,
        pcm_sample_bit_depth_chroma_minus1,
        log2_min_pcm_luma_coding_block_size_minus3: minus3,
        log2_diff_max_min_pcm_luma_coding_block_size: diff,
        pcm_loop_filter_disabled_flag,
    }))
}
