//! What the level of a sequence bounds.

/// What of a sequence parameter set a level bounds (A.4.1).
#[derive(Clone, Copy, Debug, PartialEq, Eq)]
pub enum LevelMeasure {
    /// The luma samples of a picture.
    Area,
    /// The width of a picture in luma samples.
    Width,
    /// The height of a picture in luma samples.
    Height,
    /// The pictures of the decoded picture buffer.
    Buffer,
}
