//! What a coding tree unit's work leaves.

ghost use Rattle.std.specs.Prelude.{◌≡◌, ◌*◌, ℕ, None, slice_index_or};
ghost use Rattle.ctu_build.specs.Held.{held};
ghost use Rattle.picture_motion.specs.CtuMotion.{held as motion_held};
ghost use Rattle.picture_filters.specs.Places.{first_read};

use ctu_build::UnitSamples;
use picture_filters::UnitFilters;
use picture_motion::UnitMotion;
use spec_motion::{Reference, SliceMotion};

/// What a unit's work leaves: it is as large as the greatest unit asks, and is filled anew by each unit.
#[derive(Drop)]
pub struct BuiltUnit {
    /// Its samples before the loop filters, and those that are known beside it.
    pub samples: UnitSamples,
    /// Its motion, and that which is known beside it and beneath.
    pub motion: UnitMotion,
    /// What its motion depends on, with the pictures that its vectors point to.
    pub slice: SliceMotion,
    /// What it gives the loop filters of its picture.
    pub filters: UnitFilters,
}

impl BuiltUnit {
    /// Of no unit yet: it has no sample and no motion, refers to no picture, and no edge of it has a strength.
    #[inline(always)]
    pub fn new() -> BuiltUnit
        ensures samples { (c column line : ℕ) → held result.samples c column line ≡ None }
        ensures motion { (column row : ℕ) → motion_held result.motion column row ≡ None }
        ensures lists { (result.slice.active_0 ≡ 0) × (result.slice.active_1 ≡ 0) }
        ensures places { (q : ℕ) → slice_index_or result.filters.places q first_read ≡ first_read }
    {
        BuiltUnit {
            samples: UnitSamples::new(),
            motion: UnitMotion::new(),
            slice: NO_SLICE,
            filters: UnitFilters::new(),
        }
    }
}

/// No picture.
const NO_REFERENCE: Reference = Reference {
    picture: 0,
    order: 0,
    long_term: false,
};

/// A slice without lists.
const NO_SLICE: SliceMotion = SliceMotion {
    is_b: false,
    max_candidates: 0,
    log2_parallel: 0,
    order: 0,
    references_0: [NO_REFERENCE; 16],
    references_1: [NO_REFERENCE; 16],
    active_0: 0,
    active_1: 0,
    temporal: false,
    from_list_0: false,
    collocated_order: 0,
    side: 0,
    right: 0,
    lower: 0,
};
