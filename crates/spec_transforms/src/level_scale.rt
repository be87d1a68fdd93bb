//! The factor of quantization parameters (8.6.3).

/// levelScale, for each qP % 6.
pub static LEVEL_SCALE: [u8; 6] = [40, 45, 51, 57, 64, 72];
