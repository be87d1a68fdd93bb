//! The fields of a slice segment header as lines (7.3.6.1).

use crate::inter_lines::inter_lines;
use crate::lines::{Lines, fields};
use crate::reference_lines::reference_lines;
use header_types::{PpsFields, SpsFields};
use hv_base::{IDR_N_LP, IDR_W_RADL};
use slice_types::{SegmentFields, SliceDeblocking, SliceFields, SliceHeaderFields, SliceType};
use std::io::{self, Write};

/// Prints the number of a slice segment's unit, and the fields of its header in the order of the grammar: those of its
/// slice where it isn't a dependent one. slice_reserved_flag and offset_len_minus1 aren't among them. An error is one
/// of the writer.
pub fn print_slice_segment<W: Write>(
    header: &SliceHeaderFields,
    sps: &SpsFields,
    pps: &PpsFields,
    out: &mut W,
) -> io::Result<()> {
    let mut lines = Lines::new(out);
    lines.text("slice segment ");
    lines.part(header.nal, "\n");
    segment_start(&mut lines, header.segment, pps);
    if !header.segment.dependent_slice_segment_flag {
        slice_lines(&mut lines, header, sps, pps);
    }
    if pps.prediction.entropy_coding_sync_enabled_flag {
        entry_points(&mut lines, header.entry_points.as_slice());
    }
    if let Some(bytes) = &header.extension {
        extension(&mut lines, bytes.as_slice());
    }
    lines.finish()
}

/// Whether slices of this nal_unit_type are of an instantaneous decoding refresh picture (7.4.2.2).
fn is_idr(nal_type: u8) -> bool {
    nal_type == IDR_W_RADL || nal_type == IDR_N_LP
}

fn segment_start<W: Write>(lines: &mut Lines<'_, W>, segment: SegmentFields, pps: &PpsFields) {
    let is_first = segment.first_slice_segment_in_pic_flag;
    lines.flag("first_slice_segment_in_pic_flag", is_first);
    if let Some(value) = segment.no_output_of_prior_pics_flag {
        lines.flag("no_output_of_prior_pics_flag", value);
    }
    lines.number(
        "slice_pic_parameter_set_id",
        segment.slice_pic_parameter_set_id,
    );
    if !is_first {
        if pps.slice_defaults.dependent_slice_segments_enabled_flag {
            lines.flag(
                "dependent_slice_segment_flag",
                segment.dependent_slice_segment_flag,
            );
        }
        lines.number("slice_segment_address", segment.slice_segment_address);
    }
}

/// The fields of a slice, which stand in its first segment's header.
fn slice_lines<W: Write>(
    lines: &mut Lines<'_, W>,
    header: &SliceHeaderFields,
    sps: &SpsFields,
    pps: &PpsFields,
) {
    slice_start(lines, &header.slice, pps);
    if !is_idr(header.kind.nal_type) {
        references(lines, &header.slice, sps);
    }
    slice_rest(lines, &header.slice, sps, pps);
}

fn slice_start<W: Write>(lines: &mut Lines<'_, W>, slice: &SliceFields, pps: &PpsFields) {
    let slice_type: u32 = match slice.slice_type {
        SliceType::B => 0,
        SliceType::P => 1,
        SliceType::I => 2,
    };
    lines.number("slice_type", slice_type);
    if pps.slice_defaults.output_flag_present_flag {
        lines.flag("pic_output_flag", slice.pic_output_flag);
    }
}

fn references<W: Write>(lines: &mut Lines<'_, W>, slice: &SliceFields, sps: &SpsFields) {
    reference_lines(lines, &slice.references, sps);
    if sps.references.sps_temporal_mvp_enabled_flag {
        lines.flag(
            "slice_temporal_mvp_enabled_flag",
            slice.slice_temporal_mvp_enabled_flag,
        );
    }
}

fn slice_rest<W: Write>(
    lines: &mut Lines<'_, W>,
    slice: &SliceFields,
    sps: &SpsFields,
    pps: &PpsFields,
) {
    if sps.tools.sample_adaptive_offset_enabled_flag {
        fields!(lines, slice; slice_sao_luma_flag, slice_sao_chroma_flag);
    }
    if let Some(inter) = &slice.inter {
        inter_lines(lines, inter, &slice.references, pps);
    }
    quantization(lines, slice, pps);
    deblocking(lines, slice.deblocking, pps);
    if pps.filters.pps_loop_filter_across_slices_enabled_flag && is_filtered(slice) {
        lines.flag(
            "slice_loop_filter_across_slices_enabled_flag",
            slice.slice_loop_filter_across_slices_enabled_flag,
        );
    }
}

/// Whether some filter may pass the slice's edges.
fn is_filtered(slice: &SliceFields) -> bool {
    slice.slice_sao_luma_flag
        || slice.slice_sao_chroma_flag
        || !slice.deblocking.slice_deblocking_filter_disabled_flag
}

fn quantization<W: Write>(lines: &mut Lines<'_, W>, slice: &SliceFields, pps: &PpsFields) {
    lines.number("slice_qp_delta", slice.slice_qp_delta);
    if pps.quantization.pps_slice_chroma_qp_offsets_present_flag {
        fields!(lines, slice; slice_cb_qp_offset, slice_cr_qp_offset);
    }
}

fn deblocking<W: Write>(lines: &mut Lines<'_, W>, deblocking: SliceDeblocking, pps: &PpsFields) {
    if let Some(control) = pps.filters.deblocking_control {
        if control.deblocking_filter_override_enabled_flag {
            let is_overridden = deblocking.deblocking_filter_override_flag;
            lines.flag("deblocking_filter_override_flag", is_overridden);
            if is_overridden {
                overridden_deblocking(lines, deblocking);
            }
        }
    }
}

fn overridden_deblocking<W: Write>(lines: &mut Lines<'_, W>, deblocking: SliceDeblocking) {
    let is_disabled = deblocking.slice_deblocking_filter_disabled_flag;
    lines.flag("slice_deblocking_filter_disabled_flag", is_disabled);
    if !is_disabled {
        fields!(lines, deblocking; slice_beta_offset_div2, slice_tc_offset_div2);
    }
}

fn entry_points<W: Write>(lines: &mut Lines<'_, W>, offsets: &[u64]) {
    lines.number("num_entry_point_offsets", offsets.len());
    for (i, offset) in offsets.iter().enumerate() {
        let minus1 = offset.saturating_sub(1);
        lines.item("entry_point_offset_minus1", i, minus1);
    }
}

fn extension<W: Write>(lines: &mut Lines<'_, W>, bytes: &[u8]) {
    lines.number("slice_segment_header_extension_length", bytes.len());
    for (i, byte) in bytes.iter().enumerate() {
        lines.item("slice_segment_header_extension_data_byte", i, *byte);
    }
}
