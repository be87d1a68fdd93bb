//! What the syntax of a coding tree unit depends on. Sizes are binary logarithms of sides in places of 4x4 luma
//! samples.

use ctu_records::Square;

/// The blocks that pulse code modulation takes, and the bits of its samples (7.4.3.2).
#[derive(Clone, Copy, Debug, PartialEq, Eq)]
pub struct PcmSyntax {
    /// pcm_enabled_flag.
    pub enabled: bool,
    /// Log2MinIpcmCbSizeY.
    pub log2_least: u8,
    /// Log2MaxIpcmCbSizeY.
    pub log2_greatest: u8,
    /// PcmBitDepthY.
    pub luma_bits: u8,
    /// PcmBitDepthC.
    pub chroma_bits: u8,
}

/// What the elements of inter coding units depend on (7.4.3.2, 7.4.7.1).
#[derive(Clone, Copy, Debug, PartialEq, Eq)]
pub struct InterSyntax {
    /// Whether slice_type is P or B.
    pub is_inter: bool,
    /// Whether slice_type is B.
    pub is_b: bool,
    /// MaxNumMergeCand.
    pub max_merge: u8,
    /// num_ref_idx_l0_active_minus1 + 1.
    pub active_0: u8,
    /// num_ref_idx_l1_active_minus1 + 1.
    pub active_1: u8,
    /// mvd_l1_zero_flag.
    pub mvd_l1_zero: bool,
    /// amp_enabled_flag.
    pub amp_enabled: bool,
    /// max_transform_hierarchy_depth_inter.
    pub max_depth_inter: u8,
}

/// What the elements of a coding tree unit depend on, apart from the units before it.
#[derive(Clone, Copy, Debug, PartialEq, Eq)]
pub struct CtuSyntax {
    /// MinCbLog2SizeY.
    pub log2_min_coding: u8,
    /// MinTbLog2SizeY.
    pub log2_min_transform: u8,
    /// MaxTbLog2SizeY.
    pub log2_max_transform: u8,
    /// max_transform_hierarchy_depth_intra.
    pub max_depth_intra: u8,
    /// Log2MinCuQpDeltaSize.
    pub log2_group: u8,
    /// BitDepthY.
    pub luma_depth: u8,
    /// BitDepthC.
    pub chroma_depth: u8,
    /// QpBdOffsetY.
    pub qp_offset: u8,
    /// cu_qp_delta_enabled_flag: whether quantization groups may tell a difference of their parameter.
    pub cu_qp_delta_enabled: bool,
    /// transquant_bypass_enabled_flag: whether coding units hold cu_transquant_bypass_flag.
    pub transquant_bypass_enabled: bool,
    /// transform_skip_enabled_flag: whether blocks of 4x4 samples may hold transform_skip_flag.
    pub transform_skip_enabled: bool,
    /// sign_data_hiding_enabled_flag: whether the parity of a sub-block's levels may tell a sign.
    pub sign_data_hiding_enabled: bool,
    /// What pulse code modulation depends on.
    pub pcm: PcmSyntax,
    /// What inter coding units depend on.
    pub inter: InterSyntax,
    /// slice_sao_luma_flag.
    pub sao_luma: bool,
    /// slice_sao_chroma_flag.
    pub sao_chroma: bool,
    /// Whether the unit on the left is in the picture and in the same slice.
    pub has_left: bool,
    /// Whether the unit above is in the picture and in the same slice.
    pub has_above: bool,
    /// How many places the picture has from the unit's first on, to the right.
    pub right: u32,
    /// How many it has downwards.
    pub lower: u32,
}

/// What a coding unit begins with (7.3.8.5).
#[derive(Clone, Copy, Debug, PartialEq, Eq)]
pub struct UnitStart {
    /// Its coding block.
    pub square: Square,
    /// CtDepth.
    pub depth: u8,
    /// cu_transquant_bypass_flag.
    pub transquant_bypass: bool,
    /// cu_skip_flag.
    pub skipped: bool,
    /// Whether CuPredMode is MODE_INTRA.
    pub intra: bool,
}

/// What the transform tree of a coding unit depends on (7.3.8.8).
#[derive(Clone, Copy, Debug, PartialEq, Eq)]
pub struct UnitSyntax {
    /// Its coding block.
    pub square: Square,
    /// cu_transquant_bypass_flag.
    pub transquant_bypass: bool,
    /// Whether CuPredMode is MODE_INTRA.
    pub intra: bool,
    /// Whether the tree is split at its top without a flag: IntraSplitFlag, or interSplitFlag there (7.4.9.8).
    pub split: bool,
    /// IntraPredModeC; INTRA_DC of an inter coding unit.
    pub chroma_mode: u8,
}

/// cbf_cb and cbf_cr of a node of a transform tree.
#[derive(Clone, Copy, Debug, PartialEq, Eq)]
pub struct ChromaFlags {
    /// cbf_cb: whether a Cb block of the node has levels.
    pub cb: bool,
    /// cbf_cr: whether a Cr block of the node has levels.
    pub cr: bool,
}

/// A transform block whose coded block flag is 1 (7.3.8.10).
#[derive(Clone, Copy, Debug, PartialEq, Eq)]
pub struct TransformBlock {
    /// cIdx.
    pub component: u8,
    /// The first place of its transform unit; of a chroma block of 4x4 samples that of the unit that was split.
    pub x: u8,
    /// The row of that place.
    pub y: u8,
    /// The binary logarithm of its side in samples of its component.
    pub log2_size: u8,
    /// IntraPredModeY of its prediction block, or IntraPredModeC.
    pub mode: u8,
}

/// What follows a coding tree unit (7.3.8.1).
#[derive(Clone, Copy, Debug, PartialEq, Eq)]
pub enum End {
    /// The next unit.
    More,
    /// The next substream.
    Subset,
    /// Nothing: the slice segment ends.
    Segment,
}
