//! What is kept of a place.

ghost use Rattle.std.specs.Prelude.{◌≡◌};
ghost use Rattle.picture_filters.specs.Places.{known_place};

use boundary_strengths::UnitPlace;
use spec_picture_filters::Place;

/// What is known of a place, four columns and four lines of luma samples.
#[derive(Clone, Copy)]
pub(crate) struct FilterPlace {
    /// What deblocking depends on there.
    pub(crate) place: Place,
    /// Whether the luma transform block there has a coefficient that isn't 0, which the strengths of later edges depend
    /// on.
    pub(crate) coded: bool,
}

/// The offsets of the slice of a place.
#[derive(Clone, Copy)]
pub(crate) struct SliceOffsets {
    pub(crate) beta: i8,
    pub(crate) tc: i8,
}

/// A place as it is kept: what was read of it as it stands, so that it is copied whole, and the offsets of its slice.
#[derive(Clone, Copy)]
pub(crate) struct HeldPlace {
    pub(crate) read: UnitPlace,
    pub(crate) offsets: SliceOffsets,
}

/// Edges without strength, QpY 0, no kept samples, and no coefficient.
pub(crate) const FIRST_PLACE: HeldPlace = HeldPlace {
    read: UnitPlace {
        left_strength: 0,
        top_strength: 0,
        coded: false,
        qp_y: 0,
        kept: false,
    },
    offsets: SliceOffsets { beta: 0, tc: 0 },
};

impl HeldPlace {
    /// What is known of the place.
    #[inline(always)]
    pub(crate) fn place(self) -> FilterPlace
        ensures { result ≡ known_place self }
    {
        FilterPlace {
            place: Place {
                left_strength: self.read.left_strength,
                top_strength: self.read.top_strength,
                qp_y: self.read.qp_y,
                kept: self.read.kept,
                slice_beta_offset_div2: self.offsets.beta,
                slice_tc_offset_div2: self.offsets.tc,
            },
            coded: self.read.coded,
        }
    }
}
