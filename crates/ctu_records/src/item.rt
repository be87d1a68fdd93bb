//! The items of a coding tree unit. A place is a block of 4x4 luma samples.

use crate::prediction::PredictionUnit;

/// A square of a coding tree unit: its first place, counted from the unit's first, and the binary logarithm of its side
/// in places.
#[derive(Clone, Copy, Debug, PartialEq, Eq)]
pub struct Square {
    /// The column of its first place, from 0 to 15.
    pub x: u8,
    /// The row of its first place, from 0 to 15.
    pub y: u8,
    /// The binary logarithm of its side in places, from 0 to 4.
    pub log2_size: u8,
}

/// What coding_unit begins with (7.3.8.5).
#[derive(Clone, Copy, Debug, PartialEq, Eq)]
pub struct CodingUnit {
    /// Its coding block.
    pub square: Square,
    /// CtDepth.
    pub depth: u8,
    /// cu_transquant_bypass_flag.
    pub transquant_bypass: bool,
    /// cu_skip_flag.
    pub skipped: bool,
    /// Whether CuPredMode is MODE_INTRA.
    pub intra: bool,
    /// qPY_PRED of its quantization group, on the scale of Qp'Y.
    pub qp_predicted: u8,
    /// Qp'Y by what was read of its quantization group before it.
    pub qp: u8,
}

/// What a coding unit tells of its places (7.4.9.5).
#[derive(Clone, Copy, Debug, PartialEq, Eq)]
pub struct CodingPlace {
    /// CtDepth.
    pub depth: u8,
    /// cu_skip_flag.
    pub skipped: bool,
    /// Whether CuPredMode is MODE_INTRA.
    pub intra: bool,
}

/// IntraPredModeY of a prediction block (8.4.2).
#[derive(Clone, Copy, Debug, PartialEq, Eq)]
pub struct LumaMode {
    /// The prediction block.
    pub square: Square,
    /// IntraPredModeY, from 0 to 34.
    pub mode: u8,
}

/// A cu_qp_delta, and the coding unit whose Qp'Y it makes (7.3.8.10, 8.6.1).
#[derive(Clone, Copy, Debug, PartialEq, Eq)]
pub struct QpDelta {
    /// The coding unit.
    pub square: Square,
    /// CuQpDeltaVal.
    pub delta: i8,
    /// Qp'Y of the coding unit, from 0 to 51 + QpBdOffsetY.
    pub qp: u8,
}

/// A transform unit and its coded block flags (7.3.8.8).
#[derive(Clone, Copy, Debug, PartialEq, Eq)]
pub struct TransformUnit {
    /// Its luma block.
    pub square: Square,
    /// trafoDepth.
    pub depth: u8,
    /// cbf_luma: whether the levels of its luma block follow.
    pub cbf_luma: bool,
    /// cbf_cb, where the transform unit has 4x4 luma samples that of the unit that was split.
    pub cbf_cb: bool,
    /// cbf_cr, of the same unit as cbf_cb.
    pub cbf_cr: bool,
}

/// A transform block of which levels follow (7.3.8.10).
#[derive(Clone, Copy, Debug, PartialEq, Eq)]
pub struct CodedBlock {
    /// The first place of its transform unit; of a chroma block of 4x4 samples that of the unit that was split.
    pub x: u8,
    /// The row of that place.
    pub y: u8,
    /// The binary logarithm of its side in samples of its component.
    pub log2_size: u8,
    /// cIdx.
    pub component: u8,
    /// transform_skip_flag.
    pub transform_skip: bool,
}

/// What was read, in reading order.
#[derive(Clone, Copy, Debug, PartialEq, Eq)]
pub enum Item {
    /// A coding unit begins.
    Unit(CodingUnit),
    /// IntraPredModeY of its next prediction block.
    Luma(LumaMode),
    /// IntraPredModeC of the coding unit (8.4.3).
    Chroma(u8),
    /// The next prediction unit of an inter coding unit.
    Prediction(PredictionUnit),
    /// A coding unit by pulse code modulation, whose samples follow: luma, Cb, Cr.
    Pcm(Square),
    /// pcm_sample_luma or pcm_sample_chroma.
    Sample(u16),
    /// A transform unit.
    Transform(TransformUnit),
    /// A cu_qp_delta.
    Delta(QpDelta),
    /// A transform block of which levels follow.
    Block(CodedBlock),
    /// A level of that block that isn't 0: its place, in rows from the block's first sample, and its value.
    Level(u16, i16),
}
