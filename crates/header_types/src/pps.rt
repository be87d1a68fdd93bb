//! Picture parameter sets (7.3.2.3).

ghost use Rattle.std.specs.Prelude.{◌≡◌};
ghost use Rattle.header_types.specs.PictureParameterSet.{IsPps};

use crate::scaling::ScalingLists;
use std::marker::Model;

/// The fields behind deblocking_filter_control_present_flag, where it is 1 (7.4.3.3).
#[derive(Clone, Copy, Debug, PartialEq, Eq)]
pub struct DeblockingControl {
    /// Whether slice headers hold deblocking_filter_override_flag.
    pub deblocking_filter_override_enabled_flag: bool,
    /// Whether slices without deblocking fields of their own aren't deblocked.
    pub pps_deblocking_filter_disabled_flag: bool,
    /// 0 where the filter is disabled.
    pub pps_beta_offset_div2: i32,
    /// 0 where the filter is disabled.
    pub pps_tc_offset_div2: i32,
}

/// By which number slices name a picture parameter set, and to which sequence parameter set it belongs (7.4.3.3).
#[derive(Clone, Copy, Debug, PartialEq, Eq)]
pub struct PpsIdentity {
    /// The number by which slices name the set, from 0 to 63.
    pub pps_pic_parameter_set_id: u32,
    /// The sequence parameter set that it belongs to, from 0 to 15.
    pub pps_seq_parameter_set_id: u32,
}

/// What slice headers hold, and what is inferred for slices that don't tell it (7.4.3.3):
/// dependent_slice_segments_enabled_flag to num_ref_idx_l1_default_active_minus1.
#[derive(Clone, Copy, Debug, PartialEq, Eq)]
pub struct PpsSliceDefaults {
    /// Whether slice segments may be dependent: their headers hold dependent_slice_segment_flag.
    pub dependent_slice_segments_enabled_flag: bool,
    /// Whether slice headers hold pic_output_flag.
    pub output_flag_present_flag: bool,
    /// How many slice_reserved_flag bits a slice header has, from 0 to 7.
    pub num_extra_slice_header_bits: u32,
    /// Whether the parity of a sub-block's levels may tell the sign of one of them.
    pub sign_data_hiding_enabled_flag: bool,
    /// Whether the headers of P and B slices hold cabac_init_flag.
    pub cabac_init_present_flag: bool,
    /// How many entries list 0 has in slices that don't tell it, less 1: from 0 to 14.
    pub num_ref_idx_l0_default_active_minus1: u32,
    /// How many entries list 1 has in slices that don't tell it, less 1: from 0 to 14.
    pub num_ref_idx_l1_default_active_minus1: u32,
}

/// How levels become residuals (7.4.3.3): init_qp_minus26 to pps_slice_chroma_qp_offsets_present_flag.
#[derive(Clone, Copy, Debug, PartialEq, Eq)]
pub struct PpsQuantization {
    /// SliceQpY before slice_qp_delta is added, less 26: from -(26 + QpBdOffsetY) to 25, and so from -38.
    pub init_qp_minus26: i32,
    /// Whether intra blocks are predicted from samples of intra coding units alone.
    pub constrained_intra_pred_flag: bool,
    /// Whether blocks of 4x4 samples may hold transform_skip_flag.
    pub transform_skip_enabled_flag: bool,
    /// diff_cu_qp_delta_depth, where cu_qp_delta_enabled_flag is 1. Its range is judged where a slice names the set.
    pub diff_cu_qp_delta_depth: Option<u32>,
    /// What is added to the quantization parameter for Cb, from -12 to 12.
    pub pps_cb_qp_offset: i32,
    /// What is added to the quantization parameter for Cr, from -12 to 12.
    pub pps_cr_qp_offset: i32,
    /// Whether slice headers hold slice_cb_qp_offset and slice_cr_qp_offset.
    pub pps_slice_chroma_qp_offsets_present_flag: bool,
}

/// How slices are predicted and parted (7.4.3.3): weighted_pred_flag to entropy_coding_sync_enabled_flag.
/// tiles_enabled_flag, which stands among them, is 0.
#[derive(Clone, Copy, Debug, PartialEq, Eq)]
pub struct PpsPrediction {
    /// Whether P slices have explicit weights.
    pub weighted_pred_flag: bool,
    /// Whether B slices have explicit weights.
    pub weighted_bipred_flag: bool,
    /// Whether coding units hold cu_transquant_bypass_flag.
    pub transquant_bypass_enabled_flag: bool,
    /// Whether each row of units is a substream of its own, whose contexts begin as behind two units of the row above.
    pub entropy_coding_sync_enabled_flag: bool,
}

/// How loop filters run (7.4.3.3): pps_loop_filter_across_slices_enabled_flag to pps_tc_offset_div2.
#[derive(Clone, Copy, Debug, PartialEq, Eq)]
pub struct PpsFilters {
    /// Whether loop filters may pass the left and the upper edges of slices that don't tell it.
    pub pps_loop_filter_across_slices_enabled_flag: bool,
    /// How slices are deblocked, where deblocking_filter_control_present_flag is 1.
    pub deblocking_control: Option<DeblockingControl>,
}

/// The fields of a picture parameter set up to slice_segment_header_extension_present_flag, in the order of the grammar
/// (7.3.2.3, 7.4.3.3). Its tiles_enabled_flag is 0.
#[derive(Debug, PartialEq, Eq, Drop)]
pub struct PpsFields {
    /// Its number, and that of its sequence parameter set.
    pub identity: PpsIdentity,
    /// What slice headers hold, and what is inferred for slices that don't tell it.
    pub slice_defaults: PpsSliceDefaults,
    /// How levels become residuals.
    pub quantization: PpsQuantization,
    /// How slices are predicted and parted.
    pub prediction: PpsPrediction,
    /// How loop filters run.
    pub filters: PpsFilters,
    /// The lists, where pps_scaling_list_data_present_flag is 1.
    pub scaling_lists: Option<ScalingLists>,
    /// Whether slice headers hold ref_pic_lists_modification.
    pub lists_modification_present_flag: bool,
    /// Its range is judged where a slice names the set.
    pub log2_parallel_merge_level_minus2: u32,
    /// Whether slice segment headers hold an extension.
    pub slice_segment_header_extension_present_flag: bool,
}

/// A picture parameter set, whose fields are in their ranges (7.4.3.3).
#[derive(Debug, PartialEq, Eq, Drop)]
pub struct Pps {
    fields: PpsFields,
}

impl Model for Pps {
    ghost use Rattle.header_types.specs.declared.pps.PpsFields.{PpsFields};
    ghost use Rattle.header_types.specs.PictureParameterSet.{IsPps};

    ghost Value = { PpsFields };

    ghost view = { λ p. p.fields };

    ghost inverse = { λ f. record { fields = f } };

    ghost invariant = { λ p. IsPps p.fields };
}

impl Pps {
    /// The set of these fields.
    pub fn new(fields: PpsFields) -> Pps
        requires { IsPps fields }
        ensures { result ≡ fields }
    {
        Pps { fields }
    }

    /// Its fields.
    pub fn fields(&self) -> &PpsFields
        ensures value { result.now ≡ self.now }
        ensures in_range { IsPps result.now }
    {
        &self.fields
    }
}
