//! A sequence parameter set whose fields are in range, and the variables that are derived from them (7.4.3.2).

ghost use Rattle.std.specs.Prelude.{◌≡◌, ◌<◌, ◌≤◌, ◌^◌, ◌+◌};
ghost use Rattle.header_types.specs.SequenceParameterSets.{IsSps, min_cb_log2, ctb_log2, min_tb_log2, max_tb_log2};
ghost use Rattle.header_types.specs.SequenceParameterSets.{max_lsb, ctb_size, width_in_ctbs, height_in_ctbs};
ghost use Rattle.header_types.specs.SequenceParameterSets.{size_in_ctbs, highest_ordering, cropped_width};
ghost use Rattle.header_types.specs.SequenceParameterSets.{cropped_height, blocks_across};

use crate::sps::{SpsFields, SubLayerOrdering};
use std::marker::Model;

/// A sequence parameter set whose fields are in range. Contracts see its fields, of which `IsSps` holds.
#[derive(Debug, PartialEq, Eq, Drop)]
pub struct Sps {
    fields: SpsFields,
}

impl Model for Sps {
    ghost use Rattle.header_types.specs.declared.sps.SpsFields.{SpsFields};
    ghost use Rattle.header_types.specs.SequenceParameterSets.{IsSps};

    ghost Value = { SpsFields };

    ghost view = { λ s. s.fields };

    ghost inverse = { λ f. record { fields = f } };

    ghost invariant = { λ s. IsSps s.fields };
}

impl Sps {
    /// The set of these fields.
    pub fn new(fields: SpsFields) -> Sps
        requires { IsSps fields }
        ensures { result ≡ fields }
    {
        Sps { fields }
    }

    /// The fields as they were read.
    pub fn fields(&self) -> &SpsFields
        ensures value { result.now ≡ self.now }
        ensures in_range { IsSps self.now }
    {
        &self.fields
    }

    /// MinCbLog2SizeY: the base two logarithm of the least coding block's side, 3 to 6.
    pub fn min_cb_log2(&self) -> u32
        ensures value { result ≡ min_cb_log2 self.now.blocks }
        ensures in_range { IsSps self.now }
    {
        self.fields.blocks.log2_min_luma_coding_block_size_minus3 + 3
    }

    /// CtbLog2SizeY: the base two logarithm of a coding tree block's side, 4 to 6.
    pub fn ctb_log2(&self) -> u32
        ensures value { result ≡ ctb_log2 self.now.blocks }
        ensures in_range { IsSps self.now }
    {
        self.min_cb_log2() + self.fields.blocks.log2_diff_max_min_luma_coding_block_size
    }

    /// Log2MinTrafoSize: the base two logarithm of the least transform block's side, 2 to 5.
    pub fn min_tb_log2(&self) -> u32
        ensures value { result ≡ min_tb_log2 self.now.blocks }
        ensures in_range { IsSps self.now }
    {
        self.fields.blocks.log2_min_luma_transform_block_size_minus2 + 2
    }

    /// Log2MaxTrafoSize: the base two logarithm of the greatest transform block's side, 2 to 5.
    pub fn max_tb_log2(&self) -> u32
        ensures value { result ≡ max_tb_log2 self.now.blocks }
        ensures in_range { IsSps self.now }
    {
        self.min_tb_log2()
            + self
                .fields
                .blocks
                .log2_diff_max_min_luma_transform_block_size
    }

    /// CtbSizeY: a coding tree block's side in luma samples, 16 to 64.
    pub fn ctb_size(&self) -> u32
        ensures value { result ≡ ctb_size self.now }
        ensures least { 16 ≤ result }
        ensures greatest { result ≤ 64 }
    {
        block_side(self.ctb_log2())
    }

    /// PicWidthInCtbsY: the coding tree blocks of a row, at most 512.
    pub fn width_in_ctbs(&self) -> u32
        ensures value { result ≡ width_in_ctbs self.now }
        ensures some { 1 ≤ result }
        ensures few { result ≤ 512 }
    {
        blocks_across(
            self.ctb_size(),
            self.fields.format.pic_width_in_luma_samples,
        )
    }

    /// PicHeightInCtbsY: the rows of coding tree blocks, at most 512.
    pub fn height_in_ctbs(&self) -> u32
        ensures value { result ≡ height_in_ctbs self.now }
        ensures some { 1 ≤ result }
        ensures few { result ≤ 512 }
    {
        blocks_across(
            self.ctb_size(),
            self.fields.format.pic_height_in_luma_samples,
        )
    }

    /// PicSizeInCtbsY: the coding tree units of a picture, at most 262144.
    pub fn size_in_ctbs(&self) -> u32
        ensures value { result ≡ size_in_ctbs self.now }
        ensures some { 1 ≤ result }
        ensures few { result ≤ 262144 }
    {
        self.width_in_ctbs() * self.height_in_ctbs()
    }

    /// MaxPicOrderCntLsb: 16 to 65536.
    pub fn max_lsb(&self) -> u32
        ensures value { result ≡ max_lsb self.now }
        ensures in_range { IsSps self.now }
    {
        1 << (self.fields.order.log2_max_pic_order_cnt_lsb_minus4 + 4)
    }

    /// The buffering and reordering of the highest sub-layer.
    #[tactic(auto, unfolding(crate::specs::SequenceParameterSets::highest_ordering))]
    pub fn highest_ordering(&self) -> SubLayerOrdering
        ensures value { result ≡ highest_ordering self.now.order.sub_layer_ordering }
        ensures buffering { result.max_dec_pic_buffering_minus1 ≤ 15 }
        ensures reorder { result.max_num_reorder_pics ≤ result.max_dec_pic_buffering_minus1 }
    {
        let orderings = self.fields.order.sub_layer_ordering.as_slice();
        orderings[orderings.len() - 1]
    }

    /// The luma samples of a row inside the conformance window.
    pub fn cropped_width(&self) -> u32
        ensures value { result ≡ cropped_width self.now.format }
        ensures some { 1 ≤ result }
        ensures few { result ≤ 8192 }
    {
        let width = self.fields.format.pic_width_in_luma_samples;
        match self.fields.format.conformance_window {
            Some(window) => width
                - 2 * (window.conf_win_left_offset + window.conf_win_right_offset),
            None => width,
        }
    }

    /// The rows of luma samples inside the conformance window.
    pub fn cropped_height(&self) -> u32
        ensures value { result ≡ cropped_height self.now.format }
        ensures some { 1 ≤ result }
        ensures few { result ≤ 8192 }
    {
        let height = self.fields.format.pic_height_in_luma_samples;
        match self.fields.format.conformance_window {
            Some(window) => height
                - 2 * (window.conf_win_top_offset + window.conf_win_bottom_offset),
            None => height,
        }
    }
}

fn block_side(log2: u32) -> u32
    requires least { 4 ≤ log2 }
    requires greatest { log2 ≤ 6 }
    ensures value { result ≡ 2 ^ log2 }
    ensures least { 16 ≤ result }
    ensures greatest { result ≤ 64 }
{
    1 << log2
}

/// How many blocks of `block` samples cover a side.
#[tactic(auto, unfolding(crate::specs::SequenceParameterSets::blocks_across))]
fn blocks_across(block: u32, side: u32) -> u32
    requires least { 16 ≤ block }
    requires greatest { block ≤ 64 }
    requires some { 1 ≤ side }
    requires side { side ≤ 8192 }
    ensures value { result ≡ blocks_across block side }
    ensures some { 1 ≤ result }
    ensures few { result ≤ 512 }
{
    (side + (block - 1)) / block
}
