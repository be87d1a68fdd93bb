//! Sequence parameter sets (7.3.2.2, 7.4.3.2).

ghost use Rattle.std.specs.Prelude.{◌≡◌, ◌≤◌, IfOk, IfSome};
ghost use Rattle.header_fields.specs.Takes.{Takes};
ghost use Rattle.header_types.specs.Scaling.{IsScalingLists};
ghost use Rattle.header_types.specs.SequenceParameterSets.{IsSps, IsSpsIdentity, IsSpsOrder, IsSpsReferences};
ghost use Rattle.header_types.specs.SequenceParameterSets.{IsSpsTools, ctb_log2, max_lsb_of, min_cb_log2};
ghost use Rattle.spec_formats.specs.Fields.{Parses};
ghost use Rattle.spec_parameter_sets.specs.SequenceParameterSet.{present_scaling_lists, scaling_lists, sps_identity};
ghost use Rattle.spec_parameter_sets.specs.SequenceParameterSet.{sps_order, sps_references, sps_tools};
ghost use Rattle.spec_parameter_sets.specs.SequenceParameterSet.{sequence_parameter_set, sequence_parameter_set_of};

use crate::block_sizes::{read_block_sizes, read_pcm_format};
use crate::level::judge_level;
use crate::picture_format::read_picture_format;
use crate::profile::read_profile_tier_level;
use crate::reference_sets::{read_long_term_candidates, read_short_term_sets};
use crate::scaling::read_scaling_lists;
use crate::sub_layers::{
    greatest_buffering, ordered_sub_layers, read_max_sub_layers_minus1, read_orderings,
};
use header_fields::FieldReader;
use header_types::{
    BlockSizes, PictureFormat, ScalingLists, Sps, SpsFields, SpsIdentity, SpsOrder, SpsReferences,
    SpsTools,
};
use hv_base::{PARAMETER_SET_RULES, Refusal};
use std::alloc::Global;

#[tactic(auto, unfolding(spec_parameter_sets::specs::SequenceParameterSet::sps_identity))]
fn read_identity<'a>(alloc: Global, reader: &mut FieldReader<'a>) -> Result<SpsIdentity, Refusal>
    ensures value { Takes (λ x. x) result reader.old reader.new sps_identity }
    ensures in_range { IfOk result IsSpsIdentity }
{
    let sps_video_parameter_set_id = reader.u(4)?;
    let sps_max_sub_layers_minus1 = read_max_sub_layers_minus1(reader)?;
    let sps_temporal_id_nesting_flag = reader.flag()?;
    let profile_tier_level = read_profile_tier_level(alloc, reader, sps_max_sub_layers_minus1)?;
    let sps_seq_parameter_set_id = reader.ue_to(15)?;
    Ok(SpsIdentity {
        sps_video_parameter_set_id,
        sps_max_sub_layers_minus1,
        sps_temporal_id_nesting_flag,
        profile_tier_level,
        sps_seq_parameter_set_id,
    })
}

#[tactic(auto, unfolding(spec_parameter_sets::specs::SequenceParameterSet::sps_order))]
fn read_order<'a>(
    alloc: Global,
    reader: &mut FieldReader<'a>,
    max_sub_layers_minus1: u32,
) -> Result<SpsOrder, Refusal>
    requires { max_sub_layers_minus1 ≤ 6 }
    ensures value { Takes (λ x. x) result reader.old reader.new (sps_order max_sub_layers_minus1) }
    ensures in_range { IfOk result IsSpsOrder }
{
    let log2_max_pic_order_cnt_lsb_minus4 = reader.ue_to(12)?;
    let sps_sub_layer_ordering_info_present_flag = reader.flag()?;
    let ordered = ordered_sub_layers(
        sps_sub_layer_ordering_info_present_flag,
        max_sub_layers_minus1,
    );
    let sub_layer_ordering = read_orderings(alloc, reader, ordered)?;
    Ok(SpsOrder {
        log2_max_pic_order_cnt_lsb_minus4,
        sps_sub_layer_ordering_info_present_flag,
        sub_layer_ordering,
    })
}

#[tactic(auto, unfolding(spec_parameter_sets::specs::SequenceParameterSet::present_scaling_lists))]
fn read_present_scaling_lists<'a>(
    alloc: Global,
    reader: &mut FieldReader<'a>,
) -> Result<Option<ScalingLists>, Refusal>
    ensures value { Takes (λ x. x) result reader.old reader.new present_scaling_lists }
    ensures in_range { IfOk result (λ lists. IfSome lists IsScalingLists) }
{
    let sps_scaling_list_data_present_flag = reader.flag()?;
    read_scaling_lists(alloc, reader, sps_scaling_list_data_present_flag)
}

#[tactic(auto, unfolding(spec_parameter_sets::specs::SequenceParameterSet::scaling_lists))]
fn read_enabled_scaling_lists<'a>(
    alloc: Global,
    reader: &mut FieldReader<'a>,
    enabled: bool,
) -> Result<Option<ScalingLists>, Refusal>
    ensures value { Takes (λ x. x) result reader.old reader.new (scaling_lists enabled) }
    ensures in_range { IfOk result (λ lists. IfSome lists IsScalingLists) }
{
    if !enabled {
        return Ok(None);
    }
    read_present_scaling_lists(alloc, reader)
}

#[tactic(auto, unfolding(spec_parameter_sets::specs::SequenceParameterSet::sps_tools))]
fn read_tools<'a>(
    alloc: Global,
    reader: &mut FieldReader<'a>,
    format: &PictureFormat,
    blocks: &BlockSizes,
) -> Result<SpsTools, Refusal>
    requires min_cb { min_cb_log2 blocks.now ≤ 6 }
    requires ctb { ctb_log2 blocks.now ≤ 6 }
    ensures value { Takes (λ x. x) result reader.old reader.new (sps_tools format.now blocks.now) }
    ensures in_range { IfOk result (IsSpsTools format.now blocks.now) }
{
    let scaling_list_enabled_flag = reader.flag()?;
    let scaling_lists = read_enabled_scaling_lists(alloc, reader, scaling_list_enabled_flag)?;
    let amp_enabled_flag = reader.flag()?;
    let sample_adaptive_offset_enabled_flag = reader.flag()?;
    let pcm_enabled_flag = reader.flag()?;
    let pcm = read_pcm_format(reader, pcm_enabled_flag, format, blocks)?;
    Ok(SpsTools {
        scaling_list_enabled_flag,
        scaling_lists,
        amp_enabled_flag,
        sample_adaptive_offset_enabled_flag,
        pcm,
    })
}

#[tactic(auto, unfolding(spec_parameter_sets::specs::SequenceParameterSet::sps_references))]
fn read_references<'a>(
    alloc: Global,
    reader: &mut FieldReader<'a>,
    order: &SpsOrder,
) -> Result<SpsReferences, Refusal>
    requires { IsSpsOrder order.now }
    ensures value { Takes (λ x. x) result reader.old reader.new (sps_references order.now) }
    ensures in_range { IfOk result (IsSpsReferences (max_lsb_of order.now.log2_max_pic_order_cnt_lsb_minus4)) }
{
    let greatest = greatest_buffering(order.sub_layer_ordering.as_slice());
    let short_term_ref_pic_sets = read_short_term_sets(alloc, reader, greatest)?;
    let long_term_ref_pics_present_flag = reader.flag()?;
    let lsb_bits = order.log2_max_pic_order_cnt_lsb_minus4 + 4;
    let long_term_ref_pics = read_long_term_candidates(
        alloc,
        reader,
        long_term_ref_pics_present_flag,
        lsb_bits,
    )?;
    let sps_temporal_mvp_enabled_flag = reader.flag()?;
    Ok(SpsReferences {
        short_term_ref_pic_sets,
        long_term_ref_pics,
        sps_temporal_mvp_enabled_flag,
    })
}

#[tactic(auto, unfolding(spec_parameter_sets::specs::SequenceParameterSet::sequence_parameter_set))]
fn read_fields<'a>(alloc: Global, reader: &mut FieldReader<'a>) -> Result<SpsFields, Refusal>
    ensures value { Takes (λ x. x) result reader.old reader.new sequence_parameter_set }
    ensures in_range { IfOk result IsSps }
{
    let identity = read_identity(alloc, reader)?;
    let format = read_picture_format(reader, &identity.profile_tier_level.general)?;
    let order = read_order(alloc, reader, identity.sps_max_sub_layers_minus1)?;
    let blocks = read_block_sizes(
        reader,
        format.pic_width_in_luma_samples,
        format.pic_height_in_luma_samples,
    )?;
    let tools = read_tools(alloc, reader, &format, &blocks)?;
    let references = read_references(alloc, reader, &order)?;
    let strong_intra_smoothing_enabled_flag = reader.flag()?;
    let vui_parameters_present_flag = reader.flag()?;
    judge_level(
        reader,
        identity.profile_tier_level.general_level_idc,
        format.pic_width_in_luma_samples,
        format.pic_height_in_luma_samples,
        greatest_buffering(order.sub_layer_ordering.as_slice()) + 1,
    )?;
    Ok(SpsFields {
        identity,
        format,
        order,
        blocks,
        tools,
        references,
        strong_intra_smoothing_enabled_flag,
        vui_parameters_present_flag,
    })
}

/// The sequence parameter set whose payload, behind the unit's header, this is. The first field that breaks a rule or
/// meets a limit decides: `ParamSyntax` where the payload ends inside a field or a prefix has over 31 zeros,
/// `ParamRange` where a field is out of range (7.4.3.2), `Profile` where the set isn't one of the Main or the Main 10
/// profile, the limits `Side` and `Area` where a picture is too large, and behind the last field `LevelExceeded` where
/// the pictures exceed the level (A.4.1). What stands behind vui_parameters_present_flag isn't read.
#[tactic(auto, unfolding(spec_parameter_sets::specs::SequenceParameterSet::sequence_parameter_set_of))]
pub fn read_sps(alloc: Global, rbsp: &[u8]) -> Result<Sps, Refusal>
    ensures value { Parses (λ x. x) result (sequence_parameter_set_of rbsp.now) }
{
    let mut reader = FieldReader::new(rbsp, PARAMETER_SET_RULES);
    let fields = read_fields(alloc, &mut reader)?;
    Ok(Sps::new(fields))
}
