//! The fields of a sequence parameter set as lines (7.3.2.2).

use crate::lines::{Lines, fields};
use crate::set_lists::{coded_scaling_lists, short_term_sets};
use header_types::{
    BlockSizes, ConformanceWindow, FieldList, LongTermCandidate, PcmFormat, PictureFormat, Profile,
    ProfileTierLevel, SpsFields, SpsIdentity, SpsOrder, SpsReferences, SpsTools, SubLayerOrdering,
    SubLayerProfile,
};
use std::io::{self, Write};

/// Prints the fields of a sequence parameter set in the order of the grammar. An error is one of the writer.
pub fn print_sps<W: Write>(sps: &SpsFields, out: &mut W) -> io::Result<()> {
    let mut lines = Lines::new(out);
    identity(&mut lines, &sps.identity);
    format(&mut lines, &sps.format);
    order(&mut lines, &sps.order);
    blocks(&mut lines, &sps.blocks);
    tools(&mut lines, &sps.tools);
    references(&mut lines, &sps.references);
    fields!(lines, sps; strong_intra_smoothing_enabled_flag, vui_parameters_present_flag);
    lines.finish()
}

fn identity<W: Write>(lines: &mut Lines<'_, W>, set: &SpsIdentity) {
    fields!(
        lines, set;
        sps_video_parameter_set_id,
        sps_max_sub_layers_minus1,
        sps_temporal_id_nesting_flag,
    );
    profile_tier_level(lines, &set.profile_tier_level);
    lines.number("sps_seq_parameter_set_id", set.sps_seq_parameter_set_id);
}

fn profile_tier_level<W: Write>(lines: &mut Lines<'_, W>, levels: &ProfileTierLevel) {
    lines.text("general:\n");
    profile(lines, levels.general);
    lines.number("level_idc", levels.general_level_idc);
    lines.number("reserved_zero_2bits", levels.reserved_zero_2bits);
    for sub_layer in levels.sub_layers.as_slice() {
        sub_layer_profile(lines, *sub_layer);
    }
}

fn sub_layer_profile<W: Write>(lines: &mut Lines<'_, W>, sub_layer: SubLayerProfile) {
    lines.text("sub_layer:\n");
    lines.flag("profile_present_flag", sub_layer.profile.is_some());
    lines.flag("level_present_flag", sub_layer.level_idc.is_some());
    if let Some(fields) = sub_layer.profile {
        profile(lines, fields);
    }
    if let Some(level_idc) = sub_layer.level_idc {
        lines.number("level_idc", level_idc);
    }
}

fn profile<W: Write>(lines: &mut Lines<'_, W>, profile: Profile) {
    fields!(
        lines, profile;
        profile_space,
        tier_flag,
        profile_idc,
        profile_compatibility_flags,
        progressive_source_flag,
        interlaced_source_flag,
        non_packed_constraint_flag,
        frame_only_constraint_flag,
    );
    lines.number("reserved_zero_44bits", profile.reserved_zero_44bits);
}

fn format<W: Write>(lines: &mut Lines<'_, W>, format: &PictureFormat) {
    fields!(
        lines, format;
        chroma_format_idc,
        pic_width_in_luma_samples,
        pic_height_in_luma_samples,
    );
    conformance_window(lines, format.conformance_window);
    fields!(lines, format; bit_depth_luma_minus8, bit_depth_chroma_minus8);
}

fn conformance_window<W: Write>(lines: &mut Lines<'_, W>, window: Option<ConformanceWindow>) {
    lines.flag("conformance_window_flag", window.is_some());
    if let Some(window) = window {
        fields!(
            lines, window;
            conf_win_left_offset,
            conf_win_right_offset,
            conf_win_top_offset,
            conf_win_bottom_offset,
        );
    }
}

fn order<W: Write>(lines: &mut Lines<'_, W>, order: &SpsOrder) {
    fields!(
        lines, order;
        log2_max_pic_order_cnt_lsb_minus4,
        sps_sub_layer_ordering_info_present_flag,
    );
    for (i, ordering) in order.sub_layer_ordering.as_slice().iter().enumerate() {
        sub_layer_ordering(lines, i, *ordering);
    }
}

fn sub_layer_ordering<W: Write>(
    lines: &mut Lines<'_, W>,
    index: usize,
    ordering: SubLayerOrdering,
) {
    lines.item(
        "sps_max_dec_pic_buffering_minus1",
        index,
        ordering.max_dec_pic_buffering_minus1,
    );
    lines.item(
        "sps_max_num_reorder_pics",
        index,
        ordering.max_num_reorder_pics,
    );
    lines.item(
        "sps_max_latency_increase_plus1",
        index,
        ordering.max_latency_increase_plus1,
    );
}

fn blocks<W: Write>(lines: &mut Lines<'_, W>, blocks: &BlockSizes) {
    fields!(
        lines, blocks;
        log2_min_luma_coding_block_size_minus3,
        log2_diff_max_min_luma_coding_block_size,
        log2_min_luma_transform_block_size_minus2,
        log2_diff_max_min_luma_transform_block_size,
        max_transform_hierarchy_depth_inter,
        max_transform_hierarchy_depth_intra,
    );
}

fn tools<W: Write>(lines: &mut Lines<'_, W>, tools: &SpsTools) {
    lines.flag("scaling_list_enabled_flag", tools.scaling_list_enabled_flag);
    if tools.scaling_list_enabled_flag {
        coded_scaling_lists(
            lines,
            "sps_scaling_list_data_present_flag",
            &tools.scaling_lists,
        );
    }
    fields!(lines, tools; amp_enabled_flag, sample_adaptive_offset_enabled_flag);
    pcm(lines, tools.pcm);
}

fn pcm<W: Write>(lines: &mut Lines<'_, W>, format: Option<PcmFormat>) {
    lines.flag("pcm_enabled_flag", format.is_some());
    if let Some(pcm) = format {
        fields!(
            lines, pcm;
            pcm_sample_bit_depth_luma_minus1,
            pcm_sample_bit_depth_chroma_minus1,
            log2_min_pcm_luma_coding_block_size_minus3,
            log2_diff_max_min_pcm_luma_coding_block_size,
            pcm_loop_filter_disabled_flag,
        );
    }
}

fn references<W: Write>(lines: &mut Lines<'_, W>, references: &SpsReferences) {
    let sets = references.short_term_ref_pic_sets.as_slice();
    lines.number("num_short_term_ref_pic_sets", sets.len());
    short_term_sets(lines, sets);
    long_term(lines, &references.long_term_ref_pics);
    lines.flag(
        "sps_temporal_mvp_enabled_flag",
        references.sps_temporal_mvp_enabled_flag,
    );
}

fn long_term<W: Write>(
    lines: &mut Lines<'_, W>,
    candidates: &Option<FieldList<LongTermCandidate>>,
) {
    lines.flag("long_term_ref_pics_present_flag", candidates.is_some());
    if let Some(candidates) = candidates {
        long_term_candidates(lines, candidates.as_slice());
    }
}

fn long_term_candidates<W: Write>(lines: &mut Lines<'_, W>, candidates: &[LongTermCandidate]) {
    lines.number("num_long_term_ref_pics_sps", candidates.len());
    for (i, candidate) in candidates.iter().enumerate() {
        let is_used = u32::from(candidate.used_by_curr_pic_lt_sps_flag);
        lines.item(
            "lt_ref_pic_poc_lsb_sps",
            i,
            candidate.lt_ref_pic_poc_lsb_sps,
        );
        lines.item("used_by_curr_pic_lt_sps_flag", i, is_used);
    }
}
