//! Reference pictures of a slice.

ghost use Rattle.std.specs.Prelude.{◌≡◌, slice_index_or};
ghost use Rattle.spec_motion.specs.Vectors.{no_reference, reference_in};

use spec_motion::{Reference, SliceMotion};

/// RefPicListX\[ i \].
#[tactic(auto, unfolding(spec_motion::specs::Vectors::reference_in))]
pub fn reference_in(slice: &SliceMotion, list: u8, i: u8) -> Reference
    ensures { result ≡ reference_in slice.now list i }
{
    if list == 0 {
        entry(&slice.references_0, i)
    } else {
        entry(&slice.references_1, i)
    }
}

/// An entry of a list.
fn entry(references: &[Reference; 16], i: u8) -> Reference
    ensures { result ≡ slice_index_or references.now i no_reference }
{
    if i < 16 {
        references[usize::from(i)]
    } else {
        Reference {
            picture: 0,
            order: 0,
            long_term: false,
        }
    }
}
