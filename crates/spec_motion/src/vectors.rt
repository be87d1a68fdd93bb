//! Motion, and the pictures that it points to.

use ctu_records::Mv;

/// A picture of a reference picture list.
#[derive(Clone, Copy, Debug, PartialEq, Eq)]
pub struct Reference {
    /// Its place in the decoded picture buffer, by which pictures are told apart.
    pub picture: u32,
    /// PicOrderCntVal.
    pub order: i32,
    /// Whether it is marked as used for long-term reference.
    pub long_term: bool,
}

/// A vector into a picture of a list.
#[derive(Clone, Copy, Debug, PartialEq, Eq)]
pub struct Vector {
    /// MvLX.
    pub mv: Mv,
    /// RefIdxLX.
    pub ref_idx: u8,
}

/// The motion of a place: a vector by each list whose PredFlagLX is 1.
#[derive(Clone, Copy, Debug, PartialEq, Eq)]
pub struct Motion {
    /// Its vector by list 0, where PredFlagL0 is 1.
    pub list_0: Option<Vector>,
    /// Its vector by list 1, where PredFlagL1 is 1.
    pub list_1: Option<Vector>,
}
