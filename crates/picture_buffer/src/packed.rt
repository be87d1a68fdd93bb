//! A place's motion in 10 bytes.

ghost use Rattle.std.specs.Prelude.{◌≡◌};
ghost use Rattle.picture_buffer.specs.Packed.{mv_of, unpacked, unpacked_vector};

use crate::place_motion::{PlaceMotion, PlaceVector};
use crate::targets::{OwnTargets, Target, target_at};
use spec_motion::{Mv, Reference, Vector};

/// The first index of a place without motion.
const WITHOUT_MOTION: u8 = 0;
/// The index of a list without a vector.
pub(crate) const WITHOUT_VECTOR: u8 = 1;

/// The motion of a place: its vectors, and by index what they point to. What stands at a list without a vector is
/// passed over.
#[derive(Clone, Copy)]
pub(crate) struct PackedMotion {
    pub(crate) mv_0: Mv,
    pub(crate) mv_1: Mv,
    pub(crate) index_0: u8,
    pub(crate) index_1: u8,
}

/// A place without motion, of zeros, as memory is cleared fastest.
pub(crate) const NO_MOTION: PackedMotion = PackedMotion {
    mv_0: Mv { x: 0, y: 0 },
    mv_1: Mv { x: 0, y: 0 },
    index_0: WITHOUT_MOTION,
    index_1: WITHOUT_MOTION,
};

impl PackedMotion {
    /// The motion, by the targets of the field and by the place's own.
    pub(crate) fn motion(&self, targets: &[Target; 64], own: OwnTargets) -> Option<PlaceMotion>
        ensures { result ≡ unpacked targets.now own self.now }
    {
        if self.index_0 == WITHOUT_MOTION {
            return None;
        }
        Some(PlaceMotion {
            list_0: vector(targets, own.first, self.index_0, self.mv_0),
            list_1: vector(targets, own.second, self.index_1, self.mv_1),
        })
    }
}

/// The vector of a list, by its index.
fn vector(targets: &[Target; 64], own: Target, index: u8, mv: Mv) -> Option<PlaceVector>
    ensures { result ≡ unpacked_vector targets.now own index mv }
{
    if index == WITHOUT_VECTOR {
        return None;
    }
    let target = target_at(targets, own, index);
    Some(PlaceVector {
        vector: Vector {
            mv,
            ref_idx: target.ref_idx,
        },
        reference: Reference {
            picture: target.picture,
            order: target.order,
            long_term: target.long_term,
        },
    })
}

/// The vector itself, where a list has one.
pub(crate) fn mv_of(vector: Option<PlaceVector>) -> Mv
    ensures { result ≡ mv_of vector }
{
    match vector {
        Some(vector) => vector.vector.mv,
        None => Mv { x: 0, y: 0 },
    }
}
