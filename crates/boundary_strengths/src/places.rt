//! The places of a coding tree unit.

ghost use Rattle.std.specs.Prelude.{◌≡◌, ℕ, ◌+◌, ◌*◌, ◌<◌, ◌≤◌, pos, ◌-ℤ◌, Bool, false, ◌||◌, List, slice_index_or};
ghost use Rattle.std.specs.Prelude.{None, Option};
ghost use Rattle.std.specs.List.{All};
ghost use Rattle.ctu_records.specs.declared.item.Item.{Item};
ghost use Rattle.ctu_records.specs.Places.{by_place};
ghost use Rattle.ctu_records.specs.Tree.{qp_at};
ghost use Rattle.spec_motion.specs.Units.{IsPlacedItem};
ghost use Rattle.spec_boundary_strengths.specs.PictureBuffer.{PlaceMotion};
ghost use Rattle.spec_boundary_strengths.specs.declared.place.UnitPlace.{UnitPlace};
ghost use Rattle.spec_boundary_strengths.specs.Places.{unit_place};
ghost use Rattle.spec_boundary_strengths.specs.Strengths.{left_strength, top_strength};
ghost use Rattle.boundary_strengths.specs.Held.{AreMarked, beside_of};

use crate::edges::{intra_left, intra_top, left_strength, top_strength};
use crate::marks::{Marks, marks_of};
use crate::motions::PlaceMotions;
use crate::sides::UnitSides;
use ctu_records::Records;
use spec_boundary_strengths::UnitPlace;

/// What deblocking asks of the places of a unit of so many places a side, in 16 rows of 16: of others nothing is told.
/// A prediction unit that doesn't lie in the greatest unit is passed over.
pub fn unit_places<V: PlaceMotions>(
    records: &Records,
    sides: &UnitSides,
    view: &V,
    side: usize,
    places: &mut [UnitPlace; 256],
)
    requires side { side ≤ 16 }
    requires offset { sides.now.qp_bd_offset ≤ 48 }
    ensures { All IsPlacedItem records.now.items → ((i j : ℕ) → qp_at records.now.items i j ≤ 127)
        → (x y : ℕ) (d : UnitPlace) → x < side → y < side
        → by_place d places.new x y
        ≡ unit_place (beside_of sides.now (V.motion_at view.now)) sides.now.pcm_loop_filter_disabled
        sides.now.qp_bd_offset records.now.items x y }
{
    let marks = marks_of(records.items(), sides.pcm_loop_filter_disabled);
    if view.is_intra(side) {
        fill_intra(records, &marks, sides, side, places);
    } else {
        fill(records, &marks, sides, view, side, places);
    }
}

/// The same by the marks of its items.
fn fill<V: PlaceMotions>(
    records: &Records,
    marks: &Marks,
    sides: &UnitSides,
    view: &V,
    side: usize,
    places: &mut [UnitPlace; 256],
)
    requires side { side ≤ 16 }
    requires offset { sides.now.qp_bd_offset ≤ 48 }
    ensures { AreMarked sides.now.pcm_loop_filter_disabled records.now.items marks.now
        → ((i j : ℕ) → qp_at records.now.items i j ≤ 127)
        → (x y : ℕ) (d : UnitPlace) → x < side → y < side
        → by_place d places.new x y
        ≡ unit_place (beside_of sides.now (V.motion_at view.now)) sides.now.pcm_loop_filter_disabled
        sides.now.qp_bd_offset records.now.items x y }
{
    for y in 0..side {
        fill_row(records, marks, sides, view, y, side, places);
    }
}

/// The same where no place of the unit has motion.
fn fill_intra(
    records: &Records,
    marks: &Marks,
    sides: &UnitSides,
    side: usize,
    places: &mut [UnitPlace; 256],
)
    requires side { side ≤ 16 }
    requires offset { sides.now.qp_bd_offset ≤ 48 }
    ensures { AreMarked sides.now.pcm_loop_filter_disabled records.now.items marks.now
        → ((i j : ℕ) → qp_at records.now.items i j ≤ 127)
        → (motion : ℕ → ℕ → Option PlaceMotion)
        → ((i j : ℕ) → i < side → j < side → motion (i + 1) (j + 1) ≡ None)
        → (x y : ℕ) (d : UnitPlace) → x < side → y < side
        → by_place d places.new x y
        ≡ unit_place (beside_of sides.now motion) sides.now.pcm_loop_filter_disabled sides.now.qp_bd_offset
        records.now.items x y }
{
    for y in 0..side {
        fill_intra_row(records, marks, sides, y, side, places);
    }
}

/// What is asked of the first places of a row without motion; the rows above it stay.
fn fill_intra_row(
    records: &Records,
    marks: &Marks,
    sides: &UnitSides,
    y: usize,
    side: usize,
    places: &mut [UnitPlace; 256],
)
    requires y { y < 16 }
    requires side { side ≤ 16 }
    requires offset { sides.now.qp_bd_offset ≤ 48 }
    ensures row { AreMarked sides.now.pcm_loop_filter_disabled records.now.items marks.now
        → ((i j : ℕ) → qp_at records.now.items i j ≤ 127)
        → (motion : ℕ → ℕ → Option PlaceMotion) → ((i : ℕ) → i < side → motion (i + 1) (y + 1) ≡ None)
        → (x : ℕ) (d : UnitPlace) → x < side
        → by_place d places.new x y
        ≡ unit_place (beside_of sides.now motion) sides.now.pcm_loop_filter_disabled sides.now.qp_bd_offset
        records.now.items x y }
    ensures above { (q : ℕ) (d : UnitPlace) → q < 16 * y
        → slice_index_or places.new q d ≡ slice_index_or places.old q d }
{
    for x in 0..side {
        places[16 * y + x] = intra_place(records, marks, sides, x, y);
    }
}

/// What is asked of a place without motion.
fn intra_place(records: &Records, marks: &Marks, sides: &UnitSides, x: usize, y: usize) -> UnitPlace
    requires x { x < 16 }
    requires y { y < 16 }
    requires offset { sides.now.qp_bd_offset ≤ 48 }
    ensures { AreMarked sides.now.pcm_loop_filter_disabled records.now.items marks.now
        → qp_at records.now.items x y ≤ 127
        → (motion : ℕ → ℕ → Option PlaceMotion) → motion (x + 1) (y + 1) ≡ None
        → result
        ≡ unit_place (beside_of sides.now motion) sides.now.pcm_loop_filter_disabled sides.now.qp_bd_offset
        records.now.items x y }
{
    UnitPlace {
        left_strength: intra_left(marks, sides, x, y),
        top_strength: intra_top(marks, sides, x, y),
        coded: marks.coded[16 * y + x],
        qp_y: qp_y(records.qp(x, y), sides.qp_bd_offset),
        kept: marks.kept[16 * y + x],
    }
}

/// What is asked of the first places of a row; the rows above it stay.
fn fill_row<V: PlaceMotions>(
    records: &Records,
    marks: &Marks,
    sides: &UnitSides,
    view: &V,
    y: usize,
    side: usize,
    places: &mut [UnitPlace; 256],
)
    requires y { y < 16 }
    requires side { side ≤ 16 }
    requires offset { sides.now.qp_bd_offset ≤ 48 }
    ensures row { AreMarked sides.now.pcm_loop_filter_disabled records.now.items marks.now
        → ((i j : ℕ) → qp_at records.now.items i j ≤ 127)
        → (x : ℕ) (d : UnitPlace) → x < side
        → by_place d places.new x y
        ≡ unit_place (beside_of sides.now (V.motion_at view.now)) sides.now.pcm_loop_filter_disabled
        sides.now.qp_bd_offset records.now.items x y }
    ensures above { (q : ℕ) (d : UnitPlace) → q < 16 * y
        → slice_index_or places.new q d ≡ slice_index_or places.old q d }
{
    for x in 0..side {
        places[16 * y + x] = place(records, marks, sides, view, x, y);
    }
}

/// What is asked of a place.
fn place<V: PlaceMotions>(
    records: &Records,
    marks: &Marks,
    sides: &UnitSides,
    view: &V,
    x: usize,
    y: usize,
) -> UnitPlace
    requires x { x < 16 }
    requires y { y < 16 }
    requires offset { sides.now.qp_bd_offset ≤ 48 }
    ensures { AreMarked sides.now.pcm_loop_filter_disabled records.now.items marks.now
        → qp_at records.now.items x y ≤ 127
        → result
        ≡ unit_place (beside_of sides.now (V.motion_at view.now)) sides.now.pcm_loop_filter_disabled
        sides.now.qp_bd_offset records.now.items x y }
{
    let strengths = place_strengths(marks, sides, view, x, y);
    UnitPlace {
        left_strength: strengths.left,
        top_strength: strengths.top,
        coded: marks.coded[16 * y + x],
        qp_y: qp_y(records.qp(x, y), sides.qp_bd_offset),
        kept: marks.kept[16 * y + x],
    }
}

/// The strengths of the edges at the left of a place and at its top.
#[derive(Clone, Copy)]
struct Strengths {
    left: u8,
    top: u8,
}

/// Those of a place. Most places are at no edge.
#[inline(always)]
fn place_strengths<V: PlaceMotions>(
    marks: &Marks,
    sides: &UnitSides,
    view: &V,
    x: usize,
    y: usize,
) -> Strengths
    requires x { x < 16 }
    requires y { y < 16 }
    ensures left { (pcm_disabled : Bool) (items : List Item) → AreMarked pcm_disabled items marks.now
        → result.left ≡ left_strength (beside_of sides.now (V.motion_at view.now)) items x y }
    ensures top { (pcm_disabled : Bool) (items : List Item) → AreMarked pcm_disabled items marks.now
        → result.top ≡ top_strength (beside_of sides.now (V.motion_at view.now)) items x y }
{
    if is_at_edge(marks, x, y) {
        edge_strengths(marks, sides, view, x, y)
    } else {
        Strengths { left: 0, top: 0 }
    }
}

/// Whether a place is at the left side of a transform or prediction block, or at its top.
fn is_at_edge(marks: &Marks, x: usize, y: usize) -> bool
    requires x { x < 16 }
    requires y { y < 16 }
    ensures { result
        ≡ (((by_place false marks.now.transform_left x y || by_place false marks.now.prediction_left x y)
        || by_place false marks.now.transform_top x y) || by_place false marks.now.prediction_top x y) }
{
    let k = 16 * y + x;
    marks.transform_left[k]
        | marks.prediction_left[k]
        | marks.transform_top[k]
        | marks.prediction_top[k]
}

/// Those of a place at an edge.
#[inline(never)]
fn edge_strengths<V: PlaceMotions>(
    marks: &Marks,
    sides: &UnitSides,
    view: &V,
    x: usize,
    y: usize,
) -> Strengths
    requires x { x < 16 }
    requires y { y < 16 }
    ensures left { (pcm_disabled : Bool) (items : List Item) → AreMarked pcm_disabled items marks.now
        → result.left ≡ left_strength (beside_of sides.now (V.motion_at view.now)) items x y }
    ensures top { (pcm_disabled : Bool) (items : List Item) → AreMarked pcm_disabled items marks.now
        → result.top ≡ top_strength (beside_of sides.now (V.motion_at view.now)) items x y }
{
    let motion = view.motion(x + 1, y + 1);
    Strengths {
        left: left_strength(marks, sides, view, &motion, x, y),
        top: top_strength(marks, sides, view, &motion, x, y),
    }
}

/// QpY by Qp'Y and QpBdOffsetY.
fn qp_y(qp: u8, offset: u8) -> i8
    requires { offset ≤ 48 }
    ensures { qp ≤ 127 → result ≡ pos qp -ℤ pos offset }
{
    qp.min(127) as i8 - offset as i8
}
