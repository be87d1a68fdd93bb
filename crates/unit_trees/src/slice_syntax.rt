//! What the elements of all units of a slice depend on (7.4.3.2, 7.4.3.3, 7.4.7.1).

ghost use Rattle.std.specs.Prelude.{◌≡◌, ◌≤◌, ◌<◌, ◌+◌, ◌-◌, Some, unwrap_or};
ghost use Rattle.header_types.specs.SequenceParameterSets.{ctb_log2, max_pcm_log2};
ghost use Rattle.spec_slice_data.specs.Syntax.{IsSyntax};
ghost use Rattle.spec_picture_trees.specs.Shapes.{active, in_places, init_type, init_type_of, inter_syntax, pcm_syntax};
ghost use Rattle.spec_picture_trees.specs.Shapes.{segment_syntax};
ghost use Rattle.spec_picture_trees.specs.SpecSliceHeaders.{is_b};

use header_types::{PcmFormat, Sps};
use spec_picture_trees::{InterFields, PicturePlan, SegmentPlan, SliceFields, SliceType};
use spec_slice_data::{CtuSyntax, InterSyntax, PcmSyntax};

/// What the elements of all units of a segment depend on.
#[tactic(auto, unfolding(spec_picture_trees::specs::Shapes::slice_syntax))]
pub(crate) fn segment_syntax(picture: &PicturePlan, segment: &SegmentPlan) -> CtuSyntax
    ensures value { result ≡ segment_syntax picture.now segment.now }
    ensures syntax { IsSyntax result }
    ensures least { result.log2_min_coding + 2 ≤ ctb_log2 picture.now.sps.blocks }
{
    let (sps, pps) = (&picture.sps, picture.pps.fields());
    let slice = &segment.header.fields().slice;
    let fields = sps.fields();
    CtuSyntax {
        log2_min_coding: (sps.min_cb_log2() - 2) as u8,
        log2_min_transform: (sps.min_tb_log2() - 2) as u8,
        log2_max_transform: (sps.max_tb_log2() - 2) as u8,
        max_depth_intra: fields.blocks.max_transform_hierarchy_depth_intra as u8,
        log2_group: log2_group(sps.ctb_log2(), pps.quantization.diff_cu_qp_delta_depth),
        luma_depth: (8 + fields.format.bit_depth_luma_minus8) as u8,
        chroma_depth: (8 + fields.format.bit_depth_chroma_minus8) as u8,
        qp_offset: (6 * fields.format.bit_depth_luma_minus8) as u8,
        cu_qp_delta_enabled: pps.quantization.diff_cu_qp_delta_depth.is_some(),
        transquant_bypass_enabled: pps.prediction.transquant_bypass_enabled_flag,
        transform_skip_enabled: pps.quantization.transform_skip_enabled_flag,
        sign_data_hiding_enabled: pps.slice_defaults.sign_data_hiding_enabled_flag,
        pcm: pcm_syntax(sps),
        inter: inter_syntax(sps, slice),
        sao_luma: slice.slice_sao_luma_flag,
        sao_chroma: slice.slice_sao_chroma_flag,
        has_left: false,
        has_above: false,
        right: 0,
        lower: 0,
    }
}

/// Whether slices of this type are B slices.
fn is_b(kind: SliceType) -> bool
    ensures { result ≡ is_b kind }
{
    match kind {
        SliceType::B => true,
        SliceType::P => false,
        SliceType::I => false,
    }
}

/// num_ref_idx_lX_active.
fn active(minus1: u32) -> u8
    ensures { result ≡ active minus1 }
{
    (minus1.min(15) + 1) as u8
}

/// What inter coding units of a slice depend on.
#[tactic(auto, unfolding(spec_picture_trees::specs::Shapes::inter_syntax))]
fn inter_syntax(sps: &Sps, slice: &SliceFields) -> InterSyntax
    ensures { result ≡ inter_syntax sps.now slice.now.slice_type slice.now.inter }
{
    let sets = sps.fields();
    let none = InterSyntax {
        is_inter: false,
        is_b: false,
        max_merge: 1,
        active_0: 1,
        active_1: 1,
        mvd_l1_zero: false,
        amp_enabled: sets.tools.amp_enabled_flag,
        max_depth_inter: sets.blocks.max_transform_hierarchy_depth_inter as u8,
    };
    match &slice.inter {
        None => none,
        Some(inter) => InterSyntax {
            is_inter: true,
            is_b: is_b(slice.slice_type),
            max_merge: 5u32.saturating_sub(inter.five_minus_max_num_merge_cand) as u8,
            active_0: active(inter.num_ref_idx_l0_active_minus1),
            active_1: active(inter.num_ref_idx_l1_active_minus1.unwrap_or(0)),
            mvd_l1_zero: inter.mvd_l1_zero_flag,
            ..none
        },
    }
}

/// initType of a slice (9.3.2.2).
#[tactic(auto, unfolding(spec_picture_trees::specs::Shapes::init_type))]
pub(crate) fn init_type(slice: &SliceFields) -> u32
    ensures value { result ≡ init_type slice.now.slice_type slice.now.inter }
    ensures few { result < 3 }
{
    match &slice.inter {
        None => 0,
        Some(inter) => init_type_of(is_b(slice.slice_type), inter.cabac_init_flag),
    }
}

/// initType of a P or B slice.
fn init_type_of(of_b: bool, cabac_init: bool) -> u32
    ensures value { result ≡ init_type_of of_b cabac_init }
    ensures few { result < 3 }
{
    if of_b == cabac_init { 1 } else { 2 }
}

/// Log2MinCuQpDeltaSize in places, from CtbLog2SizeY and diff_cu_qp_delta_depth.
fn log2_group(ctb_log2: u32, depth: Option<u32>) -> u8
    requires { ctb_log2 ≤ 6 }
    ensures { result ≡ in_places (ctb_log2 - unwrap_or depth 0) }
{
    ctb_log2
        .saturating_sub(depth.unwrap_or(0))
        .saturating_sub(2) as u8
}

/// The blocks that pulse code modulation takes.
fn pcm_syntax(sps: &Sps) -> PcmSyntax
    ensures value { result ≡ pcm_syntax sps.now.tools.pcm }
    ensures luma { result.luma_bits ≤ 16 }
    ensures chroma { result.chroma_bits ≤ 16 }
{
    match sps.fields().tools.pcm {
        None => PcmSyntax {
            enabled: false,
            log2_least: 0,
            log2_greatest: 0,
            luma_bits: 0,
            chroma_bits: 0,
        },
        Some(pcm) => blocks_of(pcm),
    }
}

fn blocks_of(pcm: PcmFormat) -> PcmSyntax
    requires luma { pcm.pcm_sample_bit_depth_luma_minus1 ≤ 9 }
    requires chroma { pcm.pcm_sample_bit_depth_chroma_minus1 ≤ 9 }
    requires greatest { max_pcm_log2 pcm ≤ 6 }
    ensures value { result ≡ pcm_syntax (Some pcm) }
    ensures luma { result.luma_bits ≤ 16 }
    ensures chroma { result.chroma_bits ≤ 16 }
{
    let least = pcm.log2_min_pcm_luma_coding_block_size_minus3 + 1;
    PcmSyntax {
        enabled: true,
        log2_least: least as u8,
        log2_greatest: (least + pcm.log2_diff_max_min_pcm_luma_coding_block_size) as u8,
        luma_bits: (pcm.pcm_sample_bit_depth_luma_minus1 + 1) as u8,
        chroma_bits: (pcm.pcm_sample_bit_depth_chroma_minus1 + 1) as u8,
    }
}
