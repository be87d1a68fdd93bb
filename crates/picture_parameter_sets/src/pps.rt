//! Picture parameter sets (7.3.2.3, 7.4.3.3).

ghost use Rattle.std.specs.Prelude.{◌≡◌, ℕ, pos, neg_ℤ, ◌≤ℤ◌, List, IfOk, IfSome};
ghost use Rattle.param_sets.specs.HeaderFields.{Takes};
ghost use Rattle.header_types.specs.PictureParameterSet.{IsWithin, IsDeblockingControl, IsPps, IsPpsIdentity};
ghost use Rattle.header_types.specs.PictureParameterSet.{IsPpsSliceDefaults, IsPpsQuantization, IsPpsFilters};
ghost use Rattle.spec_formats.specs.Fields.{Parses, optional, ue};
ghost use Rattle.spec_parameter_sets.specs.PictureParameterSet.{deblocking_offset, deblocking_control};
ghost use Rattle.spec_parameter_sets.specs.PictureParameterSet.{pps_identity, pps_slice_defaults, pps_quantization};
ghost use Rattle.spec_parameter_sets.specs.PictureParameterSet.{pps_prediction, pps_filters, picture_parameter_set};
ghost use Rattle.spec_parameter_sets.specs.PictureParameterSet.{picture_parameter_set_of};

use header_types::{
    DeblockingControl, Pps, PpsFields, PpsFilters, PpsIdentity, PpsPrediction, PpsQuantization,
    PpsSliceDefaults,
};
use hv_base::{LimitKind, PARAMETER_SET_RULES, Refusal};
use param_sets::{FieldReader, read_scaling_lists};
use std::alloc::Global;

#[tactic(auto, unfolding(spec_parameter_sets::specs::PictureParameterSet::pps_identity))]
fn read_identity<'a>(reader: &mut FieldReader<'a>) -> Result<PpsIdentity, Refusal>
    ensures in_range { IfOk result IsPpsIdentity }
    ensures value { Takes (λ x. x) result reader.old reader.new pps_identity }
{
    let pps_pic_parameter_set_id = reader.ue_to(63)?;
    let pps_seq_parameter_set_id = reader.ue_to(15)?;
    Ok(PpsIdentity {
        pps_pic_parameter_set_id,
        pps_seq_parameter_set_id,
    })
}

#[tactic(auto, unfolding(spec_parameter_sets::specs::PictureParameterSet::pps_slice_defaults))]
fn read_slice_defaults<'a>(reader: &mut FieldReader<'a>) -> Result<PpsSliceDefaults, Refusal>
    ensures in_range { IfOk result IsPpsSliceDefaults }
    ensures value { Takes (λ x. x) result reader.old reader.new pps_slice_defaults }
{
    let dependent_slice_segments_enabled_flag = reader.flag()?;
    let output_flag_present_flag = reader.flag()?;
    let num_extra_slice_header_bits = reader.u(3)?;
    let sign_data_hiding_enabled_flag = reader.flag()?;
    let cabac_init_present_flag = reader.flag()?;
    let num_ref_idx_l0_default_active_minus1 = reader.ue_to(14)?;
    let num_ref_idx_l1_default_active_minus1 = reader.ue_to(14)?;
    Ok(PpsSliceDefaults {
        dependent_slice_segments_enabled_flag,
        output_flag_present_flag,
        num_extra_slice_header_bits,
        sign_data_hiding_enabled_flag,
        cabac_init_present_flag,
        num_ref_idx_l0_default_active_minus1,
        num_ref_idx_l1_default_active_minus1,
    })
}

fn read_diff_cu_qp_delta_depth<'a>(
    reader: &mut FieldReader<'a>,
    enabled: bool,
) -> Result<Option<u32>, Refusal>
    ensures { Takes (λ x. x) result reader.old reader.new (optional enabled ue) }
{
    if !enabled {
        return Ok(None);
    }
    Ok(Some(reader.ue()?))
}

#[tactic(auto, unfolding(spec_parameter_sets::specs::PictureParameterSet::pps_quantization))]
fn read_quantization<'a>(reader: &mut FieldReader<'a>) -> Result<PpsQuantization, Refusal>
    ensures in_range { IfOk result IsPpsQuantization }
    ensures value { Takes (λ x. x) result reader.old reader.new pps_quantization }
{
    let init_qp_minus26 = reader.se_within(38, 25)?;
    let constrained_intra_pred_flag = reader.flag()?;
    let transform_skip_enabled_flag = reader.flag()?;
    let cu_qp_delta_enabled_flag = reader.flag()?;
    let diff_cu_qp_delta_depth = read_diff_cu_qp_delta_depth(reader, cu_qp_delta_enabled_flag)?;
    let pps_cb_qp_offset = reader.se_within(12, 12)?;
    let pps_cr_qp_offset = reader.se_within(12, 12)?;
    let pps_slice_chroma_qp_offsets_present_flag = reader.flag()?;
    Ok(PpsQuantization {
        init_qp_minus26,
        constrained_intra_pred_flag,
        transform_skip_enabled_flag,
        diff_cu_qp_delta_depth,
        pps_cb_qp_offset,
        pps_cr_qp_offset,
        pps_slice_chroma_qp_offsets_present_flag,
    })
}

#[tactic(auto, unfolding(spec_parameter_sets::specs::PictureParameterSet::pps_prediction))]
fn read_prediction<'a>(reader: &mut FieldReader<'a>) -> Result<PpsPrediction, Refusal>
    ensures value { Takes (λ x. x) result reader.old reader.new pps_prediction }
{
    let weighted_pred_flag = reader.flag()?;
    let weighted_bipred_flag = reader.flag()?;
    let transquant_bypass_enabled_flag = reader.flag()?;
    let tiles_enabled_flag = reader.flag()?;
    if tiles_enabled_flag {
        return Err(Refusal::Limit(LimitKind::Tiles));
    }
    let entropy_coding_sync_enabled_flag = reader.flag()?;
    Ok(PpsPrediction {
        weighted_pred_flag,
        weighted_bipred_flag,
        transquant_bypass_enabled_flag,
        entropy_coding_sync_enabled_flag,
    })
}

#[tactic(auto, unfolding(spec_parameter_sets::specs::PictureParameterSet::deblocking_offset))]
fn read_deblocking_offset<'a>(reader: &mut FieldReader<'a>, disabled: bool) -> Result<i32, Refusal>
    ensures in_range { IfOk result (IsWithin 6 6) }
    ensures value { Takes (λ x. x) result reader.old reader.new (deblocking_offset disabled) }
{
    if disabled {
        return Ok(0);
    }
    reader.se_within(6, 6)
}

#[tactic(auto, unfolding(spec_parameter_sets::specs::PictureParameterSet::deblocking_control))]
fn read_deblocking_control<'a>(
    reader: &mut FieldReader<'a>,
    present: bool,
) -> Result<Option<DeblockingControl>, Refusal>
    ensures in_range { IfOk result (λ d. IfSome d IsDeblockingControl) }
    ensures value { Takes (λ x. x) result reader.old reader.new (optional present deblocking_control) }
{
    if !present {
        return Ok(None);
    }
    let deblocking_filter_override_enabled_flag = reader.flag()?;
    let pps_deblocking_filter_disabled_flag = reader.flag()?;
    let pps_beta_offset_div2 = read_deblocking_offset(reader, pps_deblocking_filter_disabled_flag)?;
    let pps_tc_offset_div2 = read_deblocking_offset(reader, pps_deblocking_filter_disabled_flag)?;
    Ok(Some(DeblockingControl {
        deblocking_filter_override_enabled_flag,
        pps_deblocking_filter_disabled_flag,
        pps_beta_offset_div2,
        pps_tc_offset_div2,
    }))
}

#[tactic(auto, unfolding(spec_parameter_sets::specs::PictureParameterSet::pps_filters))]
fn read_filters<'a>(reader: &mut FieldReader<'a>) -> Result<PpsFilters, Refusal>
    ensures in_range { IfOk result IsPpsFilters }
    ensures value { Takes (λ x. x) result reader.old reader.new pps_filters }
{
    let pps_loop_filter_across_slices_enabled_flag = reader.flag()?;
    let deblocking_filter_control_present_flag = reader.flag()?;
    let deblocking_control = read_deblocking_control(
        reader,
        deblocking_filter_control_present_flag,
    )?;
    Ok(PpsFilters {
        pps_loop_filter_across_slices_enabled_flag,
        deblocking_control,
    })
}

#[tactic(auto, unfolding(spec_parameter_sets::specs::PictureParameterSet::picture_parameter_set))]
fn read_fields<'a>(alloc: Global, reader: &mut FieldReader<'a>) -> Result<PpsFields, Refusal>
    ensures in_range { IfOk result IsPps }
    ensures value { Takes (λ x. x) result reader.old reader.new picture_parameter_set }
{
    let identity = read_identity(reader)?;
    let slice_defaults = read_slice_defaults(reader)?;
    let quantization = read_quantization(reader)?;
    let prediction = read_prediction(reader)?;
    let filters = read_filters(reader)?;
    let pps_scaling_list_data_present_flag = reader.flag()?;
    let scaling_lists = read_scaling_lists(alloc, reader, pps_scaling_list_data_present_flag)?;
    let lists_modification_present_flag = reader.flag()?;
    let log2_parallel_merge_level_minus2 = reader.ue()?;
    let slice_segment_header_extension_present_flag = reader.flag()?;
    Ok(PpsFields {
        identity,
        slice_defaults,
        quantization,
        prediction,
        filters,
        scaling_lists,
        lists_modification_present_flag,
        log2_parallel_merge_level_minus2,
        slice_segment_header_extension_present_flag,
    })
}

/// The picture parameter set whose payload, behind the unit's header, this is (7.3.2.3), up to
/// slice_segment_header_extension_present_flag; what follows isn't looked at.
///
/// # Errors
///
/// The first rule that it breaks: `ParamSyntax` where it ends inside a field or has a prefix of over 31 zeros,
/// `ParamRange` where a field is out of range; the limit `Tiles` where tiles_enabled_flag is 1.
#[tactic(auto, unfolding(spec_parameter_sets::specs::PictureParameterSet::picture_parameter_set_of))]
pub fn read_pps(alloc: Global, rbsp: &[u8]) -> Result<Pps, Refusal>
    ensures { Parses (λ p. p) result (picture_parameter_set_of rbsp.now) }
{
    let mut reader = FieldReader::new(rbsp, PARAMETER_SET_RULES);
    let fields = read_fields(alloc, &mut reader)?;
    Ok(Pps::new(fields))
}
