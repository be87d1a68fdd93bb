//! Combined bi-predictive merging candidates (8.5.3.2.4), and zero candidates (8.5.3.2.5).

ghost use Rattle.std.specs.Prelude.{◌≡◌, ◌≤◌, ◌<◌, ◌+◌, ◌-◌, ◌*◌, IfOk, IfErr, Ok, Err, length, take, filter_map};
ghost use Rattle.std.specs.Prelude.{slice_index_or, min, nat_lt, if◌then◌else◌};
ghost use Rattle.spec_motion.specs.Merging.{combination, combination_of, combinations, is_doubled, zero_candidate};
ghost use Rattle.spec_motion.specs.Merging.{zero_vector};
ghost use Rattle.spec_motion.specs.Vectors.{no_motion};

use crate::candidates::Candidates;
use crate::references::reference_in;
use crate::sameness::same_mv;
use ctu_records::Mv;
use spec_motion::{COMBINED_PAIRS, Motion, SliceMotion, Vector};

/// The combination of those found at a place among all, or how many there are.
pub(crate) fn nth_combination(
    slice: &SliceMotion,
    found: &Candidates,
    wanted: usize,
) -> Result<Motion, usize>
    ensures within { IfOk result (λ m. (wanted < length (combinations slice.now found.now))
        × (m ≡ slice_index_or (combinations slice.now found.now) wanted no_motion)) }
    ensures beyond { IfErr result (λ n. (n ≡ length (combinations slice.now found.now)) × (n ≤ wanted)) }
{
    let mut count = 0;
    for k in 0..pairs_of(found.len()) {
        match combination(slice, found, COMBINED_PAIRS[k]) {
            Some(motion) => {
                if count == wanted {
                    return Ok(motion);
                }
                count += 1;
            }
            None => {}
        }
    }
    Err(count)
}

/// How many pairs so many candidates have, up to the number of pairs of the table.
fn pairs_of(count: usize) -> usize
    requires { count ≤ 5 }
    ensures { result ≡ min (count * (count - 1)) 12 }
{
    (count * count.saturating_sub(1)).min(12)
}

/// The vectors of a pair of candidates, where both are there and differ.
#[tactic(auto, unfolding(spec_motion::specs::Merging::combination))]
fn combination(slice: &SliceMotion, found: &Candidates, pair: (usize, usize)) -> Option<Motion>
    ensures { result ≡ combination slice.now found.now pair.0 pair.1 }
{
    combination_of(slice, found.get(pair.0).list_0, found.get(pair.1).list_1)
}

/// Two vectors, where both are there and differ.
fn combination_of(
    slice: &SliceMotion,
    first: Option<Vector>,
    second: Option<Vector>,
) -> Option<Motion>
    ensures { result ≡ combination_of slice.now first second }
{
    match (first, second) {
        (Some(first), Some(second)) => {
            if is_doubled(slice, first, second) {
                None
            } else {
                Some(Motion {
                    list_0: Some(first),
                    list_1: Some(second),
                })
            }
        }
        _ => None,
    }
}

/// Whether two vectors point to the same picture with the same displacement.
fn is_doubled(slice: &SliceMotion, first: Vector, second: Vector) -> bool
    ensures { result ≡ is_doubled slice.now first second }
{
    reference_in(slice, 0, first.ref_idx).picture == reference_in(slice, 1, second.ref_idx).picture
        && same_mv(first.mv, second.mv)
}

/// A zero candidate.
#[tactic(auto, unfolding(spec_motion::specs::Merging::zero_candidate))]
pub(crate) fn zero_candidate(slice: &SliceMotion, i: usize) -> Motion
    ensures { result ≡ zero_candidate slice.now i }
{
    if slice.is_b {
        let vector = zero_vector(index_below(i, slice.active_0.min(slice.active_1)));
        Motion {
            list_0: Some(vector),
            list_1: Some(vector),
        }
    } else {
        Motion {
            list_0: Some(zero_vector(index_below(i, slice.active_0))),
            list_1: None,
        }
    }
}

/// An index, or 0 where it isn't below a number.
fn index_below(i: usize, count: u8) -> u8
    ensures { result ≡ if nat_lt i count then i else 0 }
{
    if i < usize::from(count) { i as u8 } else { 0 }
}

/// A vector of 0.
fn zero_vector(ref_idx: u8) -> Vector
    ensures { result ≡ zero_vector ref_idx }
{
    Vector {
        mv: Mv { x: 0, y: 0 },
        ref_idx,
    }
}
