//! What the vectors of a field point to.

ghost use Rattle.std.specs.Prelude.{◌≡◌, ℕ, ◌<◌, ◌≤◌, slice_index_or, true};
ghost use Rattle.picture_buffer.specs.Packed.{mv_of, no_target, target_at, target_of, unpacked_vector};

use crate::packed::WITHOUT_VECTOR;
use crate::place_motion::PlaceVector;

/// The index of a target that the place keeps of its own.
pub(crate) const OF_ITS_OWN: u8 = 2;
/// The index of the first target of a field.
pub(crate) const FIRST: usize = 3;
/// How many indices a field has.
const MOST: usize = 64;

/// What a vector points to: a picture by the index in its list.
#[derive(Clone, Copy)]
pub(crate) struct Target {
    pub(crate) picture: u32,
    pub(crate) order: i32,
    pub(crate) ref_idx: u8,
    pub(crate) long_term: bool,
}

/// What stands where there is no target.
pub(crate) const NO_TARGET: Target = Target {
    picture: 0,
    order: 0,
    ref_idx: 0,
    long_term: false,
};

/// The targets that a place keeps of its own, of its vectors by list 0 and by list 1.
#[derive(Clone, Copy)]
pub(crate) struct OwnTargets {
    pub(crate) first: Target,
    pub(crate) second: Target,
}

/// Those of a place that keeps none.
pub(crate) const NO_OWN: OwnTargets = OwnTargets {
    first: NO_TARGET,
    second: NO_TARGET,
};

/// The target with an index.
#[inline(always)]
pub(crate) fn target_at(targets: &[Target; 64], own: Target, index: u8) -> Target
    ensures { result ≡ target_at targets.now own index }
{
    let place = usize::from(index);
    if index == OF_ITS_OWN {
        own
    } else if place < MOST {
        targets[place]
    } else {
        NO_TARGET
    }
}

/// What a list's vector points to.
pub(crate) fn target_of(vector: Option<PlaceVector>) -> Target
    ensures { result ≡ target_of vector }
{
    match vector {
        Some(vector) => Target {
            picture: vector.reference.picture,
            order: vector.reference.order,
            ref_idx: vector.vector.ref_idx,
            long_term: vector.reference.long_term,
        },
        None => NO_TARGET,
    }
}

/// The index of a list's target, which is kept while there is room, and how many indices there are behind it.
pub(crate) fn keep(
    targets: &mut [Target; 64],
    count: usize,
    vector: Option<PlaceVector>,
) -> (u8, usize)
    requires from { 3 ≤ count }
    requires to { count ≤ 64 }
    ensures more { count ≤ result.1 }
    ensures to { result.1 ≤ 64 }
    ensures some { 1 ≤ result.0 }
    ensures inside { result.0 < result.1 }
    ensures same { (k : ℕ) → k < count
        → slice_index_or targets.new k no_target ≡ slice_index_or targets.old k no_target }
    ensures value { unpacked_vector targets.new (target_of vector) result.0 (mv_of vector) ≡ vector }
{
    match vector {
        Some(_) => keep_target(targets, count, target_of(vector)),
        None => (WITHOUT_VECTOR, count),
    }
}

/// The same of a target.
fn keep_target(targets: &mut [Target; 64], count: usize, target: Target) -> (u8, usize)
    requires from { 3 ≤ count }
    requires to { count ≤ 64 }
    ensures more { count ≤ result.1 }
    ensures to { result.1 ≤ 64 }
    ensures some { 2 ≤ result.0 }
    ensures inside { result.0 < result.1 }
    ensures same { (k : ℕ) → k < count
        → slice_index_or targets.new k no_target ≡ slice_index_or targets.old k no_target }
    ensures value { target_at targets.new target result.0 ≡ target }
{
    let place = find(targets, count, target);
    if place < count {
        (place as u8, count)
    } else if count < MOST {
        targets[place] = target;
        (place as u8, count + 1)
    } else {
        (OF_ITS_OWN, count)
    }
}

/// The index of a target; the count where it isn't kept.
fn find(targets: &[Target; 64], count: usize, target: Target) -> usize
    requires from { 3 ≤ count }
    requires to { count ≤ 64 }
    ensures from { 3 ≤ result }
    ensures to { result ≤ count }
    ensures found { result < count → slice_index_or targets.now result no_target ≡ target }
{
    let mut k = FIRST;
    while k < count && !is_same(targets[k], target) {
        k += 1;
    }
    k
}

/// Whether two targets are the same.
#[inline(always)]
fn is_same(target: Target, other: Target) -> bool
    ensures { result ≡ true → target ≡ other }
{
    target.picture == other.picture
        && target.order == other.order
        && target.ref_idx == other.ref_idx
        && target.long_term == other.long_term
}
