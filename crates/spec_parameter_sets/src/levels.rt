//! What a level allows (Table A.8).

/// What a level allows of the pictures of a sequence (A.4.1).
#[derive(Clone, Copy, Debug, PartialEq, Eq)]
pub struct Level {
    /// MaxLumaPs: the luma samples of a picture.
    pub max_luma_ps: u32,
    /// The greatest side of a picture in luma samples: the whole part of Sqrt(MaxLumaPs * 8).
    pub max_side: u32,
}
