//! The strengths of the edges of a place (8.7.2.4).

ghost use Rattle.std.specs.Prelude.{◌≡◌, ℕ, ◌+◌, ◌<◌, ◌≤◌, Bool, ◌&&◌, ◌||◌, List, Option, None};
ghost use Rattle.ctu_records.specs.declared.item.Item.{Item};
ghost use Rattle.spec_boundary_strengths.specs.PictureBuffer.{PlaceMotion};
ghost use Rattle.spec_boundary_strengths.specs.Strengths.{coded_around, is_filtered, left_strength, strength};
ghost use Rattle.spec_boundary_strengths.specs.Strengths.{top_strength};
ghost use Rattle.boundary_strengths.specs.Held.{AreMarked, beside_of};

use crate::apart::motion_strength;
use crate::marks::Marks;
use crate::motions::PlaceMotions;
use crate::sides::UnitSides;
use spec_boundary_strengths::PlaceMotion;

/// bS of the left side of a place of this motion.
pub(crate) fn left_strength<V: PlaceMotions>(
    marks: &Marks,
    sides: &UnitSides,
    view: &V,
    motion: &Option<PlaceMotion>,
    x: usize,
    y: usize,
) -> u8
    requires x { x < 16 }
    requires y { y < 16 }
    requires motion { motion.now ≡ V.motion_at view.now (x + 1) (y + 1) }
    ensures { (pcm_disabled : Bool) (items : List Item) → AreMarked pcm_disabled items marks.now
        → result ≡ left_strength (beside_of sides.now (V.motion_at view.now)) items x y }
{
    let transform = marks.transform_left[16 * y + x];
    let prediction = marks.prediction_left[16 * y + x];
    if is_edge(
        transform,
        prediction,
        sides.deblocking_disabled,
        sides.filter_left,
        x,
    ) {
        let before = coded_around(marks, sides, x, y + 1);
        let behind = coded_around(marks, sides, x + 1, y + 1);
        let coded = is_coded(transform, before, behind);
        strength_behind(coded, view, x, y + 1, motion)
    } else {
        0
    }
}

/// bS of its top.
pub(crate) fn top_strength<V: PlaceMotions>(
    marks: &Marks,
    sides: &UnitSides,
    view: &V,
    motion: &Option<PlaceMotion>,
    x: usize,
    y: usize,
) -> u8
    requires x { x < 16 }
    requires y { y < 16 }
    requires motion { motion.now ≡ V.motion_at view.now (x + 1) (y + 1) }
    ensures { (pcm_disabled : Bool) (items : List Item) → AreMarked pcm_disabled items marks.now
        → result ≡ top_strength (beside_of sides.now (V.motion_at view.now)) items x y }
{
    let transform = marks.transform_top[16 * y + x];
    let prediction = marks.prediction_top[16 * y + x];
    if is_edge(
        transform,
        prediction,
        sides.deblocking_disabled,
        sides.filter_top,
        y,
    ) {
        let before = coded_around(marks, sides, x + 1, y);
        let behind = coded_around(marks, sides, x + 1, y + 1);
        let coded = is_coded(transform, before, behind);
        strength_behind(coded, view, x + 1, y, motion)
    } else {
        0
    }
}

/// bS of the left side of a place without motion.
#[inline(always)]
pub(crate) fn intra_left(marks: &Marks, sides: &UnitSides, x: usize, y: usize) -> u8
    requires x { x < 16 }
    requires y { y < 16 }
    ensures { (pcm_disabled : Bool) (items : List Item) (motion : ℕ → ℕ → Option PlaceMotion)
        → AreMarked pcm_disabled items marks.now → motion (x + 1) (y + 1) ≡ None
        → result ≡ left_strength (beside_of sides.now motion) items x y }
{
    let transform = marks.transform_left[16 * y + x];
    let prediction = marks.prediction_left[16 * y + x];
    if is_edge(
        transform,
        prediction,
        sides.deblocking_disabled,
        sides.filter_left,
        x,
    ) {
        2
    } else {
        0
    }
}

/// bS of its top.
#[inline(always)]
pub(crate) fn intra_top(marks: &Marks, sides: &UnitSides, x: usize, y: usize) -> u8
    requires x { x < 16 }
    requires y { y < 16 }
    ensures { (pcm_disabled : Bool) (items : List Item) (motion : ℕ → ℕ → Option PlaceMotion)
        → AreMarked pcm_disabled items marks.now → motion (x + 1) (y + 1) ≡ None
        → result ≡ top_strength (beside_of sides.now motion) items x y }
{
    let transform = marks.transform_top[16 * y + x];
    let prediction = marks.prediction_top[16 * y + x];
    if is_edge(
        transform,
        prediction,
        sides.deblocking_disabled,
        sides.filter_top,
        y,
    ) {
        2
    } else {
        0
    }
}

/// Whether an edge before a column of places, or above a row of them, is filtered.
fn is_filtered(disabled: bool, side: bool, line: usize) -> bool
    ensures { result ≡ is_filtered disabled side line }
{
    !disabled && line % 2 == 0 && (if line == 0 { side } else { true })
}

/// Whether there is an edge that is filtered. Most places have none, so that is asked first.
fn is_edge(transform: bool, prediction: bool, disabled: bool, side: bool, line: usize) -> bool
    ensures { result ≡ (is_filtered disabled side line && (transform || prediction)) }
{
    (transform | prediction) && is_filtered(disabled, side, line)
}

/// Whether it is a transform edge where one side is coded.
fn is_coded(transform: bool, before: bool, behind: bool) -> bool
    ensures { result ≡ (transform && (before || behind)) }
{
    transform && (before || behind)
}

/// Whether a place of the unit or beside it is coded, column and row counted from 1.
#[tactic(auto, unfolding(spec_boundary_strengths::specs::Strengths::coded_around))]
fn coded_around(marks: &Marks, sides: &UnitSides, column: usize, row: usize) -> bool
    requires column { column ≤ 16 }
    requires row { row ≤ 16 }
    ensures { (pcm_disabled : Bool) (items : List Item) (motion : ℕ → ℕ → Option PlaceMotion)
        → AreMarked pcm_disabled items marks.now → result ≡ coded_around (beside_of sides.now motion) items column row }
{
    if column == 0 || row == 0 {
        sides.coded(column, row)
    } else {
        marks.coded[16 * (row - 1) + (column - 1)]
    }
}

/// bS of an edge behind a place, by the motion behind it. Without any there, that of the place isn't asked.
fn strength_behind<V: PlaceMotions>(
    coded: bool,
    view: &V,
    column: usize,
    row: usize,
    behind: &Option<PlaceMotion>,
) -> u8
    requires column { column ≤ 16 }
    requires row { row ≤ 16 }
    ensures { result ≡ strength coded (V.motion_at view.now column row) behind.now }
{
    match *behind {
        None => 2,
        Some(_) => strength(coded, &view.motion(column, row), behind),
    }
}

/// bS of an edge by the motion on both sides, and whether it is a transform edge where one of them is coded.
#[tactic(auto, unfolding(spec_boundary_strengths::specs::Strengths::strength))]
fn strength(coded: bool, p: &Option<PlaceMotion>, q: &Option<PlaceMotion>) -> u8
    ensures { result ≡ strength coded p.now q.now }
{
    match (*p, *q) {
        (None, None) => 2,
        (None, Some(_)) => 2,
        (Some(_), None) => 2,
        (Some(before), Some(behind)) => {
            if coded {
                1
            } else {
                motion_strength(&before, &behind)
            }
        }
    }
}
