//! NAL unit types by their names (H.265 Table 7-1).

/// The first coded slice segment type: of a non-reference picture that is no leading picture of another kind.
pub const TRAIL_N: u8 = 0;
/// Random access decodable leading pictures that aren't referred to in their sub-layer.
pub const RADL_N: u8 = 6;
/// Random access decodable leading pictures that are referred to in their sub-layer.
pub const RADL_R: u8 = 7;
/// Random access skipped leading pictures that aren't referred to in their sub-layer.
pub const RASL_N: u8 = 8;
/// Random access skipped leading pictures that are referred to in their sub-layer.
pub const RASL_R: u8 = 9;
/// The last even type of pictures that aren't referred to in their sub-layer.
pub const RSV_VCL_N14: u8 = 14;
/// The first type of intra random access points: broken link access pictures with leading pictures.
pub const BLA_W_LP: u8 = 16;
/// Broken link access pictures without leading pictures.
pub const BLA_N_LP: u8 = 18;
/// Instantaneous decoding refresh pictures with decodable leading pictures.
pub const IDR_W_RADL: u8 = 19;
/// Instantaneous decoding refresh pictures without leading pictures.
pub const IDR_N_LP: u8 = 20;
/// Clean random access pictures.
pub const CRA_NUT: u8 = 21;
/// Parameter sets of a video.
pub const VPS_NUT: u8 = 32;
/// Parameter sets of a sequence.
pub const SPS_NUT: u8 = 33;
/// Parameter sets of a picture.
pub const PPS_NUT: u8 = 34;
/// Access unit delimiters.
pub const AUD_NUT: u8 = 35;
/// The end of a sequence.
pub const EOS_NUT: u8 = 36;
/// The end of the bitstream.
pub const EOB_NUT: u8 = 37;
/// Supplemental enhancement information before the slice segments of its picture.
pub const PREFIX_SEI_NUT: u8 = 39;
/// Supplemental enhancement information behind the slice segments of its picture.
pub const SUFFIX_SEI_NUT: u8 = 40;
