//! Vectors with the pictures that they point to.

ghost use Rattle.std.specs.Prelude.{◌≡◌};
ghost use Rattle.spec_picture_motion.specs.Field.{pointing_motion, pointing_vector};

use ctu_motion::reference_in;
use picture_buffer::{PlaceMotion, PlaceVector};
use spec_motion::{Motion, SliceMotion, Vector};

/// The motion of a place of a slice with the pictures that it points to.
pub fn pointing_motion(slice: &SliceMotion, motion: Option<Motion>) -> Option<PlaceMotion>
    ensures { result ≡ pointing_motion slice.now motion }
{
    match motion {
        Some(motion) => Some(PlaceMotion {
            list_0: pointing_vector(slice, 0, motion.list_0),
            list_1: pointing_vector(slice, 1, motion.list_1),
        }),
        None => None,
    }
}

/// A vector in a list, with its picture.
fn pointing_vector(slice: &SliceMotion, list: u8, vector: Option<Vector>) -> Option<PlaceVector>
    ensures { result ≡ pointing_vector slice.now list vector }
{
    match vector {
        Some(vector) => Some(PlaceVector {
            vector,
            reference: reference_in(slice, list, vector.ref_idx),
        }),
        None => None,
    }
}
