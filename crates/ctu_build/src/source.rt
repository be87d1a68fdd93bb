//! What the samples of a unit depend on.

use ctu_records::Records;
use inter_samples::UnitInter;
use spec_reconstruction::UnitFormat;

/// What was read of a unit, and what its samples depend on apart from that and the pictures that it refers to.
#[derive(Clone, Copy)]
pub(crate) struct Source<'a> {
    /// What was read of the unit.
    pub(crate) records: &'a Records,
    /// What all its samples depend on.
    pub(crate) format: &'a UnitFormat,
    /// What its inter prediction depends on.
    pub(crate) inter: UnitInter<'a>,
}
