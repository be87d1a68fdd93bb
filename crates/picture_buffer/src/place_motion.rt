//! The motion of a place of a picture.

use spec_motion::{Reference, Vector};

/// A vector, and the picture that it pointed to when its own picture was decoded.
#[derive(Clone, Copy, Debug, PartialEq, Eq)]
pub struct PlaceVector {
    /// MvLX and RefIdxLX.
    pub vector: Vector,
    /// The picture, as it stood in the list then.
    pub reference: Reference,
}

/// The motion of a place that is predicted in inter mode: a vector by each list whose PredFlagLX is 1 (8.5.3.2).
#[derive(Clone, Copy, Debug, PartialEq, Eq)]
pub struct PlaceMotion {
    /// Its vector by list 0, where PredFlagL0 is 1.
    pub list_0: Option<PlaceVector>,
    /// Its vector by list 1, where PredFlagL1 is 1.
    pub list_1: Option<PlaceVector>,
}
