//! The fields of a picture parameter set as lines (7.3.2.3).

use crate::lines::{Lines, fields};
use crate::set_lists::coded_scaling_lists;
use header_types::{
    DeblockingControl, PpsFields, PpsFilters, PpsIdentity, PpsPrediction, PpsQuantization,
    PpsSliceDefaults,
};
use std::io::{self, Write};

/// Prints the fields of a picture parameter set in the order of the grammar. An error is one of the writer.
pub fn print_pps<W: Write>(pps: &PpsFields, out: &mut W) -> io::Result<()> {
    let mut lines = Lines::new(out);
    identity(&mut lines, pps.identity);
    slice_defaults(&mut lines, pps.slice_defaults);
    quantization(&mut lines, pps.quantization);
    prediction(&mut lines, pps.prediction);
    filters(&mut lines, pps.filters);
    coded_scaling_lists(
        &mut lines,
        "pps_scaling_list_data_present_flag",
        &pps.scaling_lists,
    );
    fields!(
        lines, pps;
        lists_modification_present_flag,
        log2_parallel_merge_level_minus2,
        slice_segment_header_extension_present_flag,
    );
    lines.finish()
}

fn identity<W: Write>(lines: &mut Lines<'_, W>, set: PpsIdentity) {
    fields!(lines, set; pps_pic_parameter_set_id, pps_seq_parameter_set_id);
}

fn slice_defaults<W: Write>(lines: &mut Lines<'_, W>, defaults: PpsSliceDefaults) {
    fields!(
        lines, defaults;
        dependent_slice_segments_enabled_flag,
        output_flag_present_flag,
        num_extra_slice_header_bits,
        sign_data_hiding_enabled_flag,
        cabac_init_present_flag,
        num_ref_idx_l0_default_active_minus1,
        num_ref_idx_l1_default_active_minus1,
    );
}

fn quantization<W: Write>(lines: &mut Lines<'_, W>, quantization: PpsQuantization) {
    fields!(
        lines, quantization;
        init_qp_minus26,
        constrained_intra_pred_flag,
        transform_skip_enabled_flag,
    );
    qp_delta_depth(lines, quantization.diff_cu_qp_delta_depth);
    fields!(
        lines, quantization;
        pps_cb_qp_offset,
        pps_cr_qp_offset,
        pps_slice_chroma_qp_offsets_present_flag,
    );
}

fn qp_delta_depth<W: Write>(lines: &mut Lines<'_, W>, depth: Option<u32>) {
    lines.flag("cu_qp_delta_enabled_flag", depth.is_some());
    if let Some(depth) = depth {
        lines.number("diff_cu_qp_delta_depth", depth);
    }
}

fn prediction<W: Write>(lines: &mut Lines<'_, W>, prediction: PpsPrediction) {
    fields!(
        lines, prediction;
        weighted_pred_flag,
        weighted_bipred_flag,
        transquant_bypass_enabled_flag,
    );
    lines.flag("tiles_enabled_flag", false);
    lines.flag(
        "entropy_coding_sync_enabled_flag",
        prediction.entropy_coding_sync_enabled_flag,
    );
}

fn filters<W: Write>(lines: &mut Lines<'_, W>, filters: PpsFilters) {
    lines.flag(
        "pps_loop_filter_across_slices_enabled_flag",
        filters.pps_loop_filter_across_slices_enabled_flag,
    );
    deblocking(lines, filters.deblocking_control);
}

fn deblocking<W: Write>(lines: &mut Lines<'_, W>, control: Option<DeblockingControl>) {
    lines.flag("deblocking_filter_control_present_flag", control.is_some());
    if let Some(control) = control {
        deblocking_control(lines, control);
    }
}

fn deblocking_control<W: Write>(lines: &mut Lines<'_, W>, control: DeblockingControl) {
    fields!(
        lines, control;
        deblocking_filter_override_enabled_flag,
        pps_deblocking_filter_disabled_flag,
    );
    if !control.pps_deblocking_filter_disabled_flag {
        fields!(lines, control; pps_beta_offset_div2, pps_tc_offset_div2);
    }
}
