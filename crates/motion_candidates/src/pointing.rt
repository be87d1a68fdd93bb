//! Vectors of a place into the picture of a reference, or into one beside it (8.5.3.2.7).

ghost use Rattle.std.specs.Prelude.{◌≡◌};
ghost use Rattle.spec_motion.specs.VectorPrediction.{if_same_mark, if_same_picture};
ghost use Rattle.spec_motion.specs.Vectors.{in_list, other_list};
ghost use Rattle.motion_candidates.specs.Predictors.{of_motion, sought, taken, taken_in};

use crate::references::reference_in;
use crate::sameness::agree;
use crate::scaling::{difference, scaled};
use ctu_records::Mv;
use spec_motion::{Motion, Reference, SliceMotion, Vector};

/// Which vectors are taken for a reference.
#[derive(Clone, Copy)]
pub(crate) enum Search {
    /// Those that point to its picture.
    SamePicture,
    /// Those whose reference has the same mark as long-term, scaled.
    SameMark,
}

/// The vector of a place that a search takes for a reference.
#[tactic(auto, using(crate::proofs::Sought::sought_by))]
pub(crate) fn sought(
    search: Search,
    slice: &SliceMotion,
    list: u8,
    target: Reference,
    place: Option<Motion>,
) -> Option<Mv>
    ensures { result ≡ sought search slice.now list target place }
{
    match place {
        Some(motion) => of_motion(search, slice, list, target, motion),
        None => None,
    }
}

/// The vector of a motion that it takes: that in the list, or else that in the other one.
fn of_motion(
    search: Search,
    slice: &SliceMotion,
    list: u8,
    target: Reference,
    motion: Motion,
) -> Option<Mv>
    ensures { result ≡ of_motion search slice.now list target motion }
{
    match taken_in(search, slice, list, target, motion) {
        Some(mv) => Some(mv),
        None => taken_in(search, slice, other_list(list), target, motion),
    }
}

/// The vector of a motion in a list, where it is taken.
fn taken_in(
    search: Search,
    slice: &SliceMotion,
    list: u8,
    target: Reference,
    motion: Motion,
) -> Option<Mv>
    ensures { result ≡ taken_in search slice.now list target motion }
{
    let v = in_list(list, motion)?;
    taken(
        search,
        slice,
        target,
        reference_in(slice, list, v.ref_idx),
        v.mv,
    )
}

/// A vector, where it is taken.
fn taken(
    search: Search,
    slice: &SliceMotion,
    target: Reference,
    reference: Reference,
    mv: Mv,
) -> Option<Mv>
    ensures { result ≡ taken search slice.now target reference mv }
{
    match search {
        Search::SamePicture => if_same_picture(target, reference, mv),
        Search::SameMark => if_same_mark(slice, target, reference, mv),
    }
}

/// A vector, where it points to the picture of a reference.
fn if_same_picture(target: Reference, reference: Reference, mv: Mv) -> Option<Mv>
    ensures { result ≡ if_same_picture target reference mv }
{
    if reference.picture == target.picture {
        Some(mv)
    } else {
        None
    }
}

/// A vector, scaled, where its reference has the same mark.
#[tactic(auto, unfolding(spec_motion::specs::VectorPrediction::if_same_mark))]
fn if_same_mark(slice: &SliceMotion, target: Reference, reference: Reference, mv: Mv) -> Option<Mv>
    ensures { result ≡ if_same_mark slice.now target reference mv }
{
    if !agree(target.long_term, reference.long_term) {
        None
    } else if target.long_term {
        Some(mv)
    } else {
        let spanned = difference(slice.order, reference.order);
        Some(scaled(spanned, difference(slice.order, target.order), mv))
    }
}

/// The vector in a list.
fn in_list(list: u8, motion: Motion) -> Option<Vector>
    ensures { result ≡ in_list list motion }
{
    if list == 0 {
        motion.list_0
    } else {
        motion.list_1
    }
}

/// The other one of two lists.
fn other_list(list: u8) -> u8
    ensures { result ≡ other_list list }
{
    if list == 0 { 1 } else { 0 }
}
