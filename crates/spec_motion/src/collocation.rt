//! The motion of the collocated picture (8.5.3.2.9).

use ctu_records::Mv;

/// A vector of the collocated picture.
#[derive(Clone, Copy, Debug, PartialEq, Eq)]
pub struct CollocatedVector {
    /// The vector.
    pub mv: Mv,
    /// PicOrderCntVal of the picture that it points to.
    pub order: i32,
    /// Whether that picture was marked as used for long-term reference when the collocated picture was decoded.
    pub long_term: bool,
}

/// The motion of a place of the collocated picture.
#[derive(Clone, Copy, Debug, PartialEq, Eq)]
pub struct Collocated {
    /// Its vector by list 0, where there is one.
    pub list_0: Option<CollocatedVector>,
    /// Its vector by list 1, where there is one.
    pub list_1: Option<CollocatedVector>,
}
