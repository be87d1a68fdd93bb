//! Temporal vector prediction (8.5.3.2.8, 8.5.3.2.9).

ghost use Rattle.std.specs.Prelude.{◌≡◌, take};
ghost use Rattle.std.specs.List.{list_all};
ghost use Rattle.spec_motion.specs.Derivation.{IsBlock};
ghost use Rattle.spec_motion.specs.Temporal.{bottom_right, brought, centre, mv_lx_col, mv_col};
ghost use Rattle.spec_motion.specs.Temporal.{is_none_later, is_not_later, takes_first, temporal_mv};
ghost use Rattle.spec_motion.specs.Vectors.{or_else};

use crate::references::reference_in;
use crate::sameness::agree;
use crate::scaling::{difference, scaled};
use crate::view::MotionView;
use ctu_records::{Mv, Rectangle};
use spec_motion::{Collocated, CollocatedVector, Reference, SliceMotion};

/// The temporal predictor of a block, by a list and an index of it.
#[tactic(auto, unfolding(spec_motion::specs::Temporal::temporal_mv))]
pub(crate) fn temporal_mv<V: MotionView>(
    view: &V,
    slice: &SliceMotion,
    block: Rectangle,
    list: u8,
    ref_idx: u8,
) -> Option<Mv>
    requires { IsBlock block }
    ensures { result ≡ temporal_mv slice.now (V.collocated_at view.now) block list ref_idx }
{
    if slice.temporal {
        let target = reference_in(slice, list, ref_idx);
        match mv_lx_col(slice, list, target, bottom_right(view, slice, block)) {
            Some(mv) => Some(mv),
            None => mv_lx_col(slice, list, target, centre(view, block)),
        }
    } else {
        None
    }
}

/// What the collocated picture has at the bottom right of a block.
#[tactic(auto, unfolding(spec_motion::specs::Temporal::bottom_right))]
fn bottom_right<V: MotionView>(
    view: &V,
    slice: &SliceMotion,
    block: Rectangle,
) -> Option<Collocated>
    requires { IsBlock block }
    ensures { result ≡ bottom_right slice.now (V.collocated_at view.now) block }
{
    let x = block.x + block.width;
    let y = block.y + block.height;
    if u32::from(x) < slice.right && u32::from(y) < slice.lower && y < slice.side {
        view.collocated(usize::from(x / 4), usize::from(y / 4))
    } else {
        None
    }
}

/// What it has at the block's centre.
#[tactic(auto, unfolding(spec_motion::specs::Temporal::centre))]
fn centre<V: MotionView>(view: &V, block: Rectangle) -> Option<Collocated>
    requires { IsBlock block }
    ensures { result ≡ centre (V.collocated_at view.now) block }
{
    let x = block.x + block.width / 2;
    let y = block.y + block.height / 2;
    view.collocated(usize::from(x / 4), usize::from(y / 4))
}

/// The predictor of a block of the collocated picture.
fn mv_lx_col(
    slice: &SliceMotion,
    list: u8,
    target: Reference,
    block: Option<Collocated>,
) -> Option<Mv>
    ensures { result ≡ mv_lx_col slice.now list target block }
{
    match block {
        Some(block) => match mv_col(slice, list, block.list_0, block.list_1) {
            Some(vector) => brought(slice, target, vector),
            None => None,
        },
        None => None,
    }
}

/// Which vector of the collocated picture is taken.
fn mv_col(
    slice: &SliceMotion,
    list: u8,
    first: Option<CollocatedVector>,
    second: Option<CollocatedVector>,
) -> Option<CollocatedVector>
    ensures { result ≡ mv_col slice.now list first second }
{
    match (first, second) {
        (Some(first), Some(second)) => {
            if takes_first(slice, list) {
                Some(first)
            } else {
                Some(second)
            }
        }
        (Some(first), None) => Some(first),
        (None, second) => second,
    }
}

/// Whether the first of two vectors is taken.
fn takes_first(slice: &SliceMotion, list: u8) -> bool
    ensures { result ≡ takes_first slice.now list }
{
    if is_none_later(slice) {
        list == 0
    } else {
        !slice.from_list_0
    }
}

/// Whether no reference picture is later than the picture.
#[tactic(auto, unfolding(spec_motion::specs::Temporal::is_none_later))]
fn is_none_later(slice: &SliceMotion) -> bool
    ensures { result ≡ is_none_later slice.now }
{
    are_not_later(&slice.references_0, slice.active_0, slice.order)
        && (!slice.is_b || are_not_later(&slice.references_1, slice.active_1, slice.order))
}

/// Whether so many entries of a list aren't later than a picture.
fn are_not_later(references: &[Reference; 16], active: u8, order: i32) -> bool
    ensures { result ≡ list_all (is_not_later order) (take active references.now) }
{
    let count = usize::from(active.min(16));
    let mut all = true;
    for k in 0..count {
        all = all && is_not_later(references[k], order);
    }
    all
}

/// Whether a reference isn't later than a picture.
fn is_not_later(reference: Reference, order: i32) -> bool
    ensures { result ≡ is_not_later order reference }
{
    reference.order <= order
}

/// A vector of the collocated picture, brought to a reference.
#[tactic(auto, unfolding(spec_motion::specs::Temporal::brought))]
fn brought(slice: &SliceMotion, target: Reference, vector: CollocatedVector) -> Option<Mv>
    ensures { result ≡ brought slice.now target vector }
{
    if !agree(target.long_term, vector.long_term) {
        None
    } else if target.long_term {
        Some(vector.mv)
    } else {
        let spanned = difference(slice.collocated_order, vector.order);
        Some(scaled(spanned, difference(slice.order, target.order), vector.mv))
    }
}
