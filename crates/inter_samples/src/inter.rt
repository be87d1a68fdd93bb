//! What inter prediction depends on.

use ctu_motion::UnitMotion;
use spec_inter_prediction::SliceWeighting;
use spec_motion::SliceMotion;

/// What the inter prediction of a coding tree unit depends on, apart from the pictures that it refers to.
#[derive(Clone, Copy)]
pub struct UnitInter<'a> {
    /// The motion of the unit and beside it.
    pub motion: &'a UnitMotion,
    /// Its slice, with the reference picture lists.
    pub slice: &'a SliceMotion,
    /// The weights of its slice's reference pictures.
    pub weighting: &'a SliceWeighting,
    /// The column of the unit's first place of 4x4 luma samples in the picture.
    pub column: u32,
    /// Its row.
    pub row: u32,
}
