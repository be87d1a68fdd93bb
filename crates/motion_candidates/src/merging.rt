//! Merging (8.5.3.2.2).

ghost use Rattle.std.specs.Prelude.{◌≡◌, ◌≤◌, ◌<◌, ◌+◌, ◌-◌, length, true, slice_index_or, IfOk, IfErr, if◌then◌else◌};
ghost use Rattle.std.specs.Prelude.{None};
ghost use Rattle.spec_motion.specs.Derivation.{IsBlock, IsPlaced};
ghost use Rattle.spec_motion.specs.Merging.{combined_candidates, completed, first_alone, first_reference};
ghost use Rattle.spec_motion.specs.Merging.{merge_candidates, merged, motion_of, restricted, temporal_candidate};
ghost use Rattle.spec_motion.specs.Temporal.{temporal_mv};
ghost use Rattle.spec_motion.specs.Vectors.{no_motion};

use crate::blocks::{merge_block, part_block};
use crate::candidates::{Candidates, NO_MOTION};
use crate::combining::{nth_combination, zero_candidate};
use crate::spatial::spatial_candidates;
use crate::temporal::temporal_mv;
use crate::view::MotionView;
use ctu_records::{Mv, PredictionUnit, Rectangle};
use spec_motion::{Motion, SliceMotion, Vector};

/// The motion of a unit that merges with the candidate that `index` (merge_idx) names.
#[tactic(auto, unfolding(spec_motion::specs::Merging::merged))]
pub fn merge<V: MotionView>(
    view: &V,
    slice: &SliceMotion,
    unit: &PredictionUnit,
    index: u8,
) -> Motion
    requires { IsPlaced unit.now }
    ensures { result ≡ merged slice.now (V.collocated_at view.now) (V.motion_at view.now) unit.now index }
{
    restricted(part_block(unit), candidate(view, slice, unit, index))
}

/// A candidate of a unit.
fn candidate<V: MotionView>(
    view: &V,
    slice: &SliceMotion,
    unit: &PredictionUnit,
    index: u8,
) -> Motion
    requires { IsPlaced unit.now }
    ensures { result
        ≡ slice_index_or (merge_candidates slice.now (V.collocated_at view.now) (V.motion_at view.now) unit.now)
        index no_motion }
{
    let mut found = spatial_candidates(view, slice, unit);
    if usize::from(index) < found.len() {
        return found.get(usize::from(index));
    }
    found.add(temporal_candidate(view, slice, merge_block(slice, unit)));
    completed(slice, &found, index)
}

/// The temporal candidate of a block.
#[tactic(auto, unfolding(spec_motion::specs::Merging::temporal_candidate))]
fn temporal_candidate<V: MotionView>(
    view: &V,
    slice: &SliceMotion,
    block: Rectangle,
) -> Option<Motion>
    requires { IsBlock block }
    ensures { result ≡ temporal_candidate slice.now (V.collocated_at view.now) block }
{
    let first = first_reference(temporal_mv(view, slice, block, 0, 0));
    motion_of(first, second_vector(view, slice, block))
}

/// The temporal candidate's vector in list 1.
fn second_vector<V: MotionView>(view: &V, slice: &SliceMotion, block: Rectangle) -> Option<Vector>
    requires { IsBlock block }
    ensures { result
        ≡ if slice.now.is_b then first_reference (temporal_mv slice.now (V.collocated_at view.now) block 1 0)
        else None }
{
    if slice.is_b {
        first_reference(temporal_mv(view, slice, block, 1, 0))
    } else {
        None
    }
}

/// A vector of refIdx 0.
fn first_reference(mv: Option<Mv>) -> Option<Vector>
    ensures { result ≡ first_reference mv }
{
    match mv {
        Some(mv) => Some(Vector { mv, ref_idx: 0 }),
        None => None,
    }
}

/// The motion of two vectors, of which one has to be there.
fn motion_of(first: Option<Vector>, second: Option<Vector>) -> Option<Motion>
    ensures { result ≡ motion_of first second }
{
    match (first, second) {
        (None, None) => None,
        (list_0, list_1) => Some(Motion { list_0, list_1 }),
    }
}

/// A candidate among those found and those that follow from them.
fn completed(slice: &SliceMotion, found: &Candidates, index: u8) -> Motion
    ensures { result ≡ slice_index_or (completed slice.now found.now) index no_motion }
{
    let place = usize::from(index);
    if place < found.len() {
        return found.get(place);
    }
    if slice.max_candidates <= index {
        return NO_MOTION;
    }
    following(slice, found, place - found.len())
}

/// A candidate behind those found.
fn following(slice: &SliceMotion, found: &Candidates, place: usize) -> Motion
    requires { length found.now + place < slice.now.max_candidates }
    ensures { result ≡ slice_index_or (completed slice.now found.now) (length found.now + place) no_motion }
{
    match combined(slice, found, place) {
        Ok(motion) => motion,
        Err(count) => zero_candidate(slice, place - count),
    }
}

/// A combined bi-predictive candidate, or how many there are.
fn combined(slice: &SliceMotion, found: &Candidates, wanted: usize) -> Result<Motion, usize>
    requires { length found.now + wanted < slice.now.max_candidates }
    ensures within { IfOk result (λ m. (wanted < length (combined_candidates slice.now found.now))
        × (m ≡ slice_index_or (combined_candidates slice.now found.now) wanted no_motion)) }
    ensures beyond { IfErr result (λ n. (n ≡ length (combined_candidates slice.now found.now)) × (n ≤ wanted)) }
{
    if slice.is_b {
        combined_of_several(slice, found, wanted)
    } else {
        Err(0)
    }
}

/// A combined bi-predictive candidate of a B slice, or how many there are.
fn combined_of_several(
    slice: &SliceMotion,
    found: &Candidates,
    wanted: usize,
) -> Result<Motion, usize>
    requires is_b { slice.now.is_b ≡ true }
    requires room { length found.now + wanted < slice.now.max_candidates }
    ensures within { IfOk result (λ m. (wanted < length (combined_candidates slice.now found.now))
        × (m ≡ slice_index_or (combined_candidates slice.now found.now) wanted no_motion)) }
    ensures beyond { IfErr result (λ n. (n ≡ length (combined_candidates slice.now found.now)) × (n ≤ wanted)) }
{
    if 1 < found.len() {
        nth_combination(slice, found, wanted)
    } else {
        Err(0)
    }
}

/// A motion as a unit of a block takes it.
fn restricted(block: Rectangle, motion: Motion) -> Motion
    requires { IsBlock block }
    ensures { result ≡ restricted block motion }
{
    if block.width + block.height == 3 {
        first_alone(motion.list_0, motion.list_1)
    } else {
        motion
    }
}

/// The vector in list 0 alone, where it is there.
fn first_alone(first: Option<Vector>, second: Option<Vector>) -> Motion
    ensures { result ≡ first_alone first second }
{
    Motion {
        list_0: first,
        list_1: if first.is_some() { None } else { second },
    }
}
