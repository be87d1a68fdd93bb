//! The vectors of a place, whichever lists they are of.

use picture_buffer::PlaceVector;

/// The vectors by which a place is predicted, that of list 0 first.
#[derive(Clone, Copy, Debug, PartialEq, Eq)]
pub enum Vectors {
    /// None: the place isn't predicted in inter mode.
    NoVector,
    /// One, by either list.
    OneVector(PlaceVector),
    /// One by list 0, and one by list 1.
    TwoVectors(PlaceVector, PlaceVector),
}
