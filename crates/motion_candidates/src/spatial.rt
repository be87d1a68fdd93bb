//! Spatial merging candidates (8.5.3.2.3).

ghost use Rattle.std.specs.Prelude.{◌≡◌, ◌≤◌, ◌+◌, ◌-◌, ◌^◌, ◌/◌, [], ◌∷◌, None, length, if◌then◌else◌};
ghost use Rattle.spec_motion.specs.Derivation.{IsBlock, IsPlaced};
ghost use Rattle.spec_motion.specs.Merging.{is_in_region, is_lower_part, is_right_part, merge_motion, present};
ghost use Rattle.spec_motion.specs.Merging.{spatial_candidates, spatial_of, unless_same};

use crate::blocks::{is_lower_part, is_right_part, merge_block};
use crate::candidates::Candidates;
use crate::sameness::unless_same;
use crate::view::MotionView;
use ctu_records::{PredictionUnit, Rectangle};
use spec_motion::{Motion, SliceMotion};

/// The spatial candidates of a unit.
#[tactic(auto, unfolding(spec_motion::specs::Merging::spatial_candidates))]
pub(crate) fn spatial_candidates<V: MotionView>(
    view: &V,
    slice: &SliceMotion,
    unit: &PredictionUnit,
) -> Candidates
    requires { IsPlaced unit.now }
    ensures value { result ≡ spatial_candidates slice.now (V.motion_at view.now) unit.now }
    ensures few { length result ≤ 4 }
{
    let block = merge_block(slice, unit);
    let (column, row) = (block.x + block.width, block.y + block.height);
    let a1 = at_unless(view, slice, block, block.x, row, is_right_part(slice, unit));
    let b1 = at_unless(
        view,
        slice,
        block,
        column,
        block.y,
        is_lower_part(slice, unit),
    );
    let b0 = merge_motion(view, slice, block, column + 1, block.y);
    let a0 = merge_motion(view, slice, block, block.x, row + 1);
    let b2 = merge_motion(view, slice, block, block.x, block.y);
    spatial_of(a1, b1, b0, a0, b2)
}

/// The motion at a place, unless it is that of the unit's first part.
fn at_unless<V: MotionView>(
    view: &V,
    slice: &SliceMotion,
    block: Rectangle,
    column: u8,
    row: u8,
    first_part: bool,
) -> Option<Motion>
    requires { IsBlock block }
    ensures { result ≡ if first_part then None else merge_motion slice.now (V.motion_at view.now) block column row }
{
    if first_part {
        None
    } else {
        merge_motion(view, slice, block, column, row)
    }
}

/// The motion at a place beside a block, where merging may use it.
#[tactic(auto, unfolding(spec_motion::specs::Merging::merge_motion))]
fn merge_motion<V: MotionView>(
    view: &V,
    slice: &SliceMotion,
    block: Rectangle,
    column: u8,
    row: u8,
) -> Option<Motion>
    requires { IsBlock block }
    ensures { result ≡ merge_motion slice.now (V.motion_at view.now) block column row }
{
    if is_in_region(slice.log2_parallel, block, column, row) {
        None
    } else {
        view.motion(usize::from(column), usize::from(row))
    }
}

/// Whether a place is in the block's parallel merge region.
#[tactic(auto, unfolding(spec_motion::specs::Merging::is_in_region))]
fn is_in_region(log2_parallel: u8, block: Rectangle, column: u8, row: u8) -> bool
    requires { IsBlock block }
    ensures { result ≡ is_in_region log2_parallel block column row }
{
    let shift = log2_parallel.saturating_sub(2);
    0 < column
        && region_of(block.x, shift) == region_of(column - 1, shift)
        && 0 < row
        && region_of(block.y, shift) == region_of(row - 1, shift)
}

/// The number of the region of 2^`shift` places that has a place, along one side.
fn region_of(place: u8, shift: u8) -> u8
    ensures { result ≡ place / 2 ^ shift }
{
    if shift < 8 { place >> shift } else { 0 }
}

/// Which of five motions are candidates.
fn spatial_of(
    a1: Option<Motion>,
    b1: Option<Motion>,
    b0: Option<Motion>,
    a0: Option<Motion>,
    b2: Option<Motion>,
) -> Candidates
    ensures value { result ≡ spatial_of a1 b1 b0 a0 b2 }
    ensures few { length result ≤ 4 }
{
    let mut candidates = first_four(a1, b1, b0, a0);
    if candidates.len() < 4 {
        candidates.add(unless_same(unless_same(b2, a1), b1));
    }
    candidates
}

/// Which of the first four motions are candidates.
fn first_four(
    a1: Option<Motion>,
    b1: Option<Motion>,
    b0: Option<Motion>,
    a0: Option<Motion>,
) -> Candidates
    ensures value { result ≡ present (a1 ∷ unless_same b1 a1 ∷ unless_same b0 b1 ∷ unless_same a0 a1 ∷ []) }
    ensures few { length result ≤ 4 }
{
    let mut candidates = Candidates::new();
    candidates.add(a1);
    candidates.add(unless_same(b1, a1));
    candidates.add(unless_same(b0, b1));
    candidates.add(unless_same(a0, a1));
    candidates
}
