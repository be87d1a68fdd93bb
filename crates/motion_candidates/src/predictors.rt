//! Advanced motion vector prediction (8.5.3.2.6, 8.5.3.2.7).

ghost use Rattle.std.specs.Prelude.{◌≡◌, ◌∷◌, [], ◌++◌, ◌||◌, None, map, option_to_list, slice_index_or, unwrap_or};
ghost use Rattle.std.specs.Prelude.{if◌then◌else◌};
ghost use Rattle.motion_candidates.specs.Predictors.{is_needed, nth, sought};
ghost use Rattle.spec_motion.specs.Derivation.{IsBlock};
ghost use Rattle.spec_motion.specs.Temporal.{temporal_mv};
ghost use Rattle.spec_motion.specs.VectorPrediction.{distinct, first_of, is_same_mv, is_there, predicted_mv, pointing};
ghost use Rattle.spec_motion.specs.VectorPrediction.{reaching, spatial_mvs, spatial_predictors};
ghost use Rattle.spec_motion.specs.Vectors.{or_else, zero_mv};

use crate::pointing::{Search, sought};
use crate::references::reference_in;
use crate::sameness::same_mv;
use crate::temporal::temporal_mv;
use crate::view::MotionView;
use ctu_records::{Mv, Rectangle};
use spec_motion::{Motion, Reference, SliceMotion};

/// The predictor of a block's vector into the picture that an index of a list names, the second one where `mvp`
/// (mvp_lX_flag) is 1.
pub fn amvp<V: MotionView>(
    view: &V,
    slice: &SliceMotion,
    block: Rectangle,
    list: u8,
    ref_idx: u8,
    mvp: bool,
) -> Mv
    requires { IsBlock block }
    ensures { result ≡ predicted_mv slice.now (V.collocated_at view.now) (V.motion_at view.now) block list ref_idx mvp }
{
    let target = reference_in(slice, list, ref_idx);
    let spatial = spatial_predictors(view, slice, block, list, target);
    let needed = is_needed(spatial.0, spatial.1, mvp);
    let temporal = temporal_if(needed, view, slice, block, (list, ref_idx));
    nth(spatial.0, spatial.1, temporal, mvp)
}

/// The temporal predictor, where it is needed.
fn temporal_if<V: MotionView>(
    needed: bool,
    view: &V,
    slice: &SliceMotion,
    block: Rectangle,
    index: (u8, u8),
) -> Option<Mv>
    requires { IsBlock block }
    ensures { result ≡ if needed then temporal_mv slice.now (V.collocated_at view.now) block index.0 index.1 else None }
{
    if needed {
        temporal_mv(view, slice, block, index.0, index.1)
    } else {
        None
    }
}

/// The spatial predictors of a block.
#[tactic(auto, unfolding(spec_motion::specs::VectorPrediction::spatial_predictors))]
fn spatial_predictors<V: MotionView>(
    view: &V,
    slice: &SliceMotion,
    block: Rectangle,
    list: u8,
    target: Reference,
) -> (Option<Mv>, Option<Mv>)
    requires { IsBlock block }
    ensures { option_to_list result.0 ++ option_to_list result.1
        ≡ spatial_predictors slice.now (V.motion_at view.now) block list target }
{
    let (column, row) = (block.x + block.width, block.y + block.height);
    let left = [at(view, block.x, row + 1), at(view, block.x, row)];
    let above = [
        at(view, column + 1, block.y),
        at(view, column, block.y),
        at(view, block.x, block.y),
    ];
    spatial_mvs(slice, list, target, left, above)
}

/// The motion at a place.
fn at<V: MotionView>(view: &V, column: u8, row: u8) -> Option<Motion>
    ensures { result ≡ V.motion_at view.now column row }
{
    view.motion(usize::from(column), usize::from(row))
}

/// The spatial predictors, by the motions at A0 and A1, and at B0, B1 and B2.
#[tactic(auto, unfolding(spec_motion::specs::VectorPrediction::spatial_mvs))]
fn spatial_mvs(
    slice: &SliceMotion,
    list: u8,
    target: Reference,
    left: [Option<Motion>; 2],
    above: [Option<Motion>; 3],
) -> (Option<Mv>, Option<Mv>)
    ensures { option_to_list result.0 ++ option_to_list result.1
        ≡ spatial_mvs slice.now list target left above
        (is_there (slice_index_or left 0 None) || is_there (slice_index_or left 1 None)) }
{
    let pointing_above = first_sought(Search::SamePicture, slice, list, target, &above);
    if is_there(left[0]) || is_there(left[1]) {
        distinct(left_mv(slice, list, target, &left), pointing_above)
    } else {
        let reaching_above = first_sought(Search::SameMark, slice, list, target, &above);
        distinct(pointing_above, reaching_above)
    }
}

/// Candidate A, where there is motion on the left.
fn left_mv(slice: &SliceMotion, list: u8, target: Reference, left: &[Option<Motion>]) -> Option<Mv>
    ensures { result
        ≡ or_else (first_of (map (pointing slice.now list target) left.now))
        (first_of (map (reaching slice.now list target) left.now)) }
{
    match first_sought(Search::SamePicture, slice, list, target, left) {
        Some(mv) => Some(mv),
        None => first_sought(Search::SameMark, slice, list, target, left),
    }
}

/// The first vector of places that a search takes for a reference.
fn first_sought(
    search: Search,
    slice: &SliceMotion,
    list: u8,
    target: Reference,
    places: &[Option<Motion>],
) -> Option<Mv>
    ensures { result ≡ first_of (map (sought search slice.now list target) places.now) }
{
    for k in 0..places.len() {
        match sought(search, slice, list, target, places[k]) {
            Some(mv) => return Some(mv),
            None => {}
        }
    }
    None
}

/// Whether there is motion.
fn is_there(place: Option<Motion>) -> bool
    ensures { result ≡ is_there place }
{
    place.is_some()
}

/// Two predictors, without the second one where it is the same.
fn distinct(first: Option<Mv>, second: Option<Mv>) -> (Option<Mv>, Option<Mv>)
    ensures { option_to_list result.0 ++ option_to_list result.1 ≡ distinct first second }
{
    if is_same_mv(first, second) {
        (first, None)
    } else {
        (first, second)
    }
}

/// Whether two predictors are the same vector.
fn is_same_mv(first: Option<Mv>, second: Option<Mv>) -> bool
    ensures { result ≡ is_same_mv first second }
{
    match (first, second) {
        (Some(first), Some(second)) => same_mv(first, second),
        _ => false,
    }
}

/// Whether the choice depends on the temporal predictor.
fn is_needed(first: Option<Mv>, second: Option<Mv>, mvp: bool) -> bool
    ensures { result ≡ is_needed first second mvp }
{
    match (first, second) {
        (Some(_), Some(_)) => false,
        (None, None) => !mvp,
        _ => mvp,
    }
}

/// The first or the second of those that are there, and of vectors of 0 behind them.
#[tactic(auto, using(crate::proofs::Choice::nths))]
fn nth(first: Option<Mv>, second: Option<Mv>, temporal: Option<Mv>, mvp: bool) -> Mv
    ensures { result ≡ nth first second temporal mvp }
{
    match (first, second) {
        (Some(first), Some(second)) => one_of(mvp, first, second),
        (Some(first), None) => one_of(mvp, first, or_zero(temporal)),
        (None, Some(second)) => one_of(mvp, second, or_zero(temporal)),
        (None, None) => one_of(mvp, or_zero(temporal), or_zero(None)),
    }
}

/// The second of two vectors, or the first.
fn one_of(second_one: bool, first: Mv, second: Mv) -> Mv
    ensures { result ≡ if second_one then second else first }
{
    if second_one { second } else { first }
}

/// A vector, or a vector of 0.
fn or_zero(mv: Option<Mv>) -> Mv
    ensures { result ≡ unwrap_or mv zero_mv }
{
    match mv {
        Some(mv) => mv,
        None => Mv { x: 0, y: 0 },
    }
}
