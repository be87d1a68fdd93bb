//! What is known of a stream between two units.

use crate::picture_plan::PicturePlan;
use slice_types::{Former, Sets};

/// What is known between two units.
#[derive(Drop)]
pub struct Between {
    /// The accepted parameter sets.
    pub sets: Sets,
    /// What the pictures that are over leave to the next one.
    pub former: Former,
    /// Whether random access skipped leading pictures are dropped: the last intra random access point has
    /// NoRaslOutputFlag 1, and no sequence ended since.
    pub drops_rasl: bool,
    /// The picture whose segments come.
    pub picture: Option<PicturePlan>,
}
