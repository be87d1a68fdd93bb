//! What weights a prediction (8.5.3.3.4, 7.4.7.3).

/// The weight and the offset of one component of a reference picture: LumaWeightLX and luma_offset_lX, or
/// ChromaWeightLX and ChromaOffsetLX.
#[derive(Clone, Copy, Debug, PartialEq, Eq)]
pub struct Weight {
    /// From -128 to 255, in units of 2^-`log2_denominator`.
    pub weight: i16,
    /// On the scale of samples of 8 bits.
    pub offset: i8,
}

/// The weights of one component of a prediction unit. Where it is predicted from one list, those of the other stand for
/// nothing.
#[derive(Clone, Copy, Debug, PartialEq, Eq)]
pub struct Weights {
    /// luma_log2_weight_denom or ChromaLog2WeightDenom: at most 7.
    pub log2_denominator: u8,
    /// That of list 0.
    pub list0: Weight,
    /// That of list 1.
    pub list1: Weight,
}

/// weightedPredFlag, and the weights where it is 1.
#[derive(Clone, Copy, Debug, PartialEq, Eq)]
pub enum Weighting {
    /// 0: samples are predicted without weights (8.5.3.3.4.2).
    Default,
    /// 1: by these weights (8.5.3.3.4.3).
    Explicit(Weights),
}
