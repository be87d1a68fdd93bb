//! Slice segment headers (7.3.6).

ghost use Rattle.std.specs.Prelude.{◌≡◌};
ghost use Rattle.slice_types.specs.SliceHeaders.{IsSliceHeader};

use crate::weights::PredWeightTable;
use header_types::{FieldList, LongTermRef, StRps};
use std::marker::Model;

/// What is known of a slice segment's picture before its slice is read.
#[derive(Clone, Copy, Debug, PartialEq, Eq)]
pub struct PictureKind {
    /// nal_unit_type, below 64.
    pub nal_type: u8,
    /// TemporalId, below 7.
    pub temporal_id: u8,
    /// NoRaslOutputFlag of an intra random access point; false in other pictures.
    pub no_rasl_output_flag: bool,
    /// MaxPicOrderCntLsb: from 16 to 65536.
    pub max_lsb: u32,
}

/// slice_type (7.4.7.1).
#[derive(Clone, Copy, Debug, PartialEq, Eq)]
pub enum SliceType {
    /// 0: its prediction units have one vector or two, and it may have intra coding units.
    B,
    /// 1: its prediction units have one vector, and it may have intra coding units.
    P,
    /// 2: it has intra coding units alone.
    I,
}

/// The fields of a slice segment header that stand in each segment, before those of its slice (7.3.6.1, 7.4.7.1).
#[derive(Clone, Copy, Debug, PartialEq, Eq)]
pub struct SegmentFields {
    /// Whether the segment is the first of its picture.
    pub first_slice_segment_in_pic_flag: bool,
    /// no_output_of_prior_pics_flag, where the picture is an intra random access point.
    pub no_output_of_prior_pics_flag: Option<bool>,
    /// The picture parameter set of the segment's picture, from 0 to 63.
    pub slice_pic_parameter_set_id: u32,
    /// Whether the segment goes on with the slice before it and takes its fields; false where it isn't coded.
    pub dependent_slice_segment_flag: bool,
    /// slice_segment_address: the segment's first coding tree unit, in raster order. 0 in the picture's first segment.
    pub slice_segment_address: u32,
}

/// The long-term entries of a slice segment header (7.3.6.1, 7.4.7.1).
#[derive(Clone, Debug, PartialEq, Eq, Drop)]
pub struct LongTermRefs {
    /// num_long_term_sps: how many of the entries, the first ones, name candidates of the sequence parameter set.
    pub num_long_term_sps: u32,
    /// The long-term entries, at most 15.
    pub entries: FieldList<LongTermRef>,
}

/// The collocated picture of temporal motion vector prediction (7.4.7.1).
#[derive(Clone, Copy, Debug, PartialEq, Eq)]
pub struct Collocated {
    /// Whether it is a picture of list 0, and not of list 1: true where it isn't coded.
    pub collocated_from_l0_flag: bool,
    /// Its place in that list, below how many active entries the list has: 0 where it isn't coded.
    pub collocated_ref_idx: u32,
}

/// The fields of P and B slices (7.3.6.1, 7.4.7.1).
#[derive(Clone, Debug, PartialEq, Eq, Drop)]
pub struct InterFields {
    /// Whether the slice tells how many active entries its lists have.
    pub num_ref_idx_active_override_flag: bool,
    /// That of the picture parameter set where it isn't overridden.
    pub num_ref_idx_l0_active_minus1: u32,
    /// That of the picture parameter set where it isn't overridden; `None` in a P slice.
    pub num_ref_idx_l1_active_minus1: Option<u32>,
    /// list_entry_l0, where ref_pic_list_modification_flag_l0 is 1.
    pub list_entry_l0: Option<FieldList<u32>>,
    /// list_entry_l1, where ref_pic_list_modification_flag_l1 is 1.
    pub list_entry_l1: Option<FieldList<u32>>,
    /// Whether MvdL1 is zero in prediction units with two vectors: false in a P slice.
    pub mvd_l1_zero_flag: bool,
    /// Whether contexts begin with the values of the other type, P or B (9.3.2.2): false where it isn't coded.
    pub cabac_init_flag: bool,
    /// The collocated picture, where slice_temporal_mvp_enabled_flag is 1.
    pub collocated: Option<Collocated>,
    /// The weights, where the slice's type has explicit ones.
    pub weights: Option<PredWeightTable>,
    /// 5 less MaxNumMergeCand, from 0 to 4.
    pub five_minus_max_num_merge_cand: u32,
}

/// How a slice is deblocked, its own fields or those of its picture parameter set (7.4.7.1).
#[derive(Clone, Copy, Debug, PartialEq, Eq)]
pub struct SliceDeblocking {
    /// Whether the slice has deblocking fields of its own: false where it isn't coded.
    pub deblocking_filter_override_flag: bool,
    /// Whether the slice isn't deblocked.
    pub slice_deblocking_filter_disabled_flag: bool,
    /// Half of what is added to the quantization parameter for β, from -6 to 6 (8.7.2.5.3).
    pub slice_beta_offset_div2: i32,
    /// Half of what is added to the quantization parameter for tC, from -6 to 6 (8.7.2.5.3).
    pub slice_tc_offset_div2: i32,
}

/// The fields of a slice that say its picture's order count and the pictures kept for reference (7.3.6.1).
#[derive(Clone, Debug, PartialEq, Eq, Drop)]
pub struct ReferenceFields {
    /// 0 in an instantaneous decoding refresh picture.
    pub slice_pic_order_cnt_lsb: u32,
    /// Whether the short-term set is one of the sequence parameter set: false in an instantaneous decoding refresh
    /// picture.
    pub short_term_ref_pic_set_sps_flag: bool,
    /// short_term_ref_pic_set_idx: 0 where it isn't coded.
    pub short_term_ref_pic_set_idx: u32,
    /// The short-term reference picture set, coded or named: no entry in an instantaneous decoding refresh picture.
    pub short_term_ref_pic_set: StRps,
    /// The long-term entries: none where there are none coded.
    pub long_term: LongTermRefs,
}

/// The fields of a slice, which its dependent slice segments take too (7.3.6.1, 7.4.7.1).
#[derive(Clone, Debug, PartialEq, Eq, Drop)]
pub struct SliceFields {
    /// How the coding units of the slice may be predicted.
    pub slice_type: SliceType,
    /// 1 where it isn't coded.
    pub pic_output_flag: bool,
    /// Its picture's order count, and the pictures kept for reference.
    pub references: ReferenceFields,
    /// Whether motion vectors may be predicted from a collocated picture: false where it isn't coded.
    pub slice_temporal_mvp_enabled_flag: bool,
    /// Whether sample adaptive offset is applied to luma: false where it isn't coded.
    pub slice_sao_luma_flag: bool,
    /// Whether sample adaptive offset is applied to Cb and Cr: false where it isn't coded.
    pub slice_sao_chroma_flag: bool,
    /// The fields of P and B slices.
    pub inter: Option<InterFields>,
    /// SliceQpY is 26 + init_qp_minus26 + slice_qp_delta, from -QpBdOffsetY to 51.
    pub slice_qp_delta: i32,
    /// What is added to pps_cb_qp_offset: from -12 to 12, and so is the sum.
    pub slice_cb_qp_offset: i32,
    /// What is added to pps_cr_qp_offset: from -12 to 12, and so is the sum.
    pub slice_cr_qp_offset: i32,
    /// How the slice is deblocked.
    pub deblocking: SliceDeblocking,
    /// Whether loop filters may pass its left and upper edges: as the picture parameter set tells where it isn't coded.
    pub slice_loop_filter_across_slices_enabled_flag: bool,
}

/// A slice segment header (7.3.6.1), with what is known of its NAL unit and its picture.
#[derive(Debug, PartialEq, Eq, Drop)]
pub struct SliceHeaderFields {
    /// The number of the segment's NAL unit.
    pub nal: u32,
    /// What is known of the segment's picture before its slices are read.
    pub kind: PictureKind,
    /// The fields that stand in each segment.
    pub segment: SegmentFields,
    /// The fields of the segment's slice.
    pub slice: SliceFields,
    /// entry_point_offset_minus1 and 1 of each entry point, in bytes of the unit with its emulation prevention bytes.
    pub entry_points: FieldList<u64>,
    /// slice_segment_header_extension_data_byte, where there is an extension.
    pub extension: Option<FieldList<u8>>,
    /// The first byte of the slice segment data, counted from the front of the unit's payload.
    pub data_place: usize,
}

/// A slice segment header whose fields are in range. Contracts see its fields, of which `IsSliceHeader` holds.
#[derive(Debug, PartialEq, Eq, Drop)]
pub struct SliceHeader {
    fields: SliceHeaderFields,
}

impl Model for SliceHeader {
    ghost use Rattle.slice_types.specs.declared.slice.SliceHeaderFields.{SliceHeaderFields};
    ghost use Rattle.slice_types.specs.SliceHeaders.{IsSliceHeader};

    ghost Value = { SliceHeaderFields };

    ghost view = { λ h. h.fields };

    ghost inverse = { λ f. record { fields = f } };

    ghost invariant = { λ h. IsSliceHeader h.fields };
}

impl SliceHeader {
    /// The header of these fields.
    pub fn new(fields: SliceHeaderFields) -> SliceHeader
        requires { IsSliceHeader fields }
        ensures { result ≡ fields }
    {
        SliceHeader { fields }
    }

    /// The fields as they were read.
    pub fn fields(&self) -> &SliceHeaderFields
        ensures value { result.now ≡ self.now }
        ensures in_range { IsSliceHeader self.now }
    {
        &self.fields
    }
}
