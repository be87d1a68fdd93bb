//! The weights of a slice's reference pictures (7.4.7.3).

use crate::weighting::Weight;

/// The weights of a reference picture, one a component.
#[derive(Clone, Copy, Debug, PartialEq, Eq)]
pub struct ReferenceWeights {
    /// LumaWeightLX and luma_offset_lX.
    pub luma: Weight,
    /// ChromaWeightLX and ChromaOffsetLX of Cb.
    pub cb: Weight,
    /// ChromaWeightLX and ChromaOffsetLX of Cr.
    pub cr: Weight,
}

/// The weights of the pictures of both reference picture lists, by reference index.
#[derive(Clone, Copy, Debug, PartialEq, Eq)]
pub struct WeightTable {
    /// luma_log2_weight_denom: at most 7.
    pub luma_log2_denominator: u8,
    /// ChromaLog2WeightDenom: at most 7.
    pub chroma_log2_denominator: u8,
    /// Those of list 0, by refIdxL0.
    pub list_0: [ReferenceWeights; 16],
    /// Those of list 1, by refIdxL1.
    pub list_1: [ReferenceWeights; 16],
}

/// weightedPredFlag of a slice, and the weights where it is 1.
#[derive(Clone, Copy, Debug, PartialEq, Eq)]
pub enum SliceWeighting {
    /// 0: samples are predicted without weights (8.5.3.3.4.2).
    Default,
    /// 1: by these weights (8.5.3.3.4.3).
    Explicit(WeightTable),
}
