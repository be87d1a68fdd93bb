//! Values by place in 16 rows of 16.

ghost use Rattle.std.specs.Prelude.{◌≡◌, ℕ, Bool, false, ◌+◌, ◌*◌, ◌^◌, ◌<◌, ◌≤◌, ◌&&◌, ◌||◌, cond, min, nat_le};
ghost use Rattle.std.specs.Prelude.{nat_lt, length, slice_index_or};
ghost use Rattle.ctu_records.specs.Places.{by_place};
ghost use Rattle.ctu_records.specs.Prediction.{is_inside};
ghost use Rattle.spec_boundary_strengths.specs.Edges.{stands_left, stands_top};

use ctu_records::{Rectangle, Square};

/// One value in so many cells from one on. Most blocks have a width of a few.
fn fill<T: Copy>(cells: &mut [T], first: usize, count: usize, value: T)
    requires { first + count ≤ length cells.old }
    ensures { (q : ℕ) (d : T) → slice_index_or cells.new q d
        ≡ cond (nat_le first q && nat_lt q (first + count)) value (slice_index_or cells.old q d) }
{
    match count {
        1 => fill_some::<T, 1>(cells, first, value),
        2 => fill_some::<T, 2>(cells, first, value),
        4 => fill_some::<T, 4>(cells, first, value),
        8 => fill_some::<T, 8>(cells, first, value),
        16 => fill_some::<T, 16>(cells, first, value),
        _ => fill_many(cells, first, count, value),
    }
}

/// One value in `N` cells, which is one store.
fn fill_some<T: Copy, const N: usize>(cells: &mut [T], first: usize, value: T)
    requires { first + N ≤ length cells.old }
    ensures { (q : ℕ) (d : T) → slice_index_or cells.new q d
        ≡ cond (nat_le first q && nat_lt q (first + N)) value (slice_index_or cells.old q d) }
{
    for k in 0..N {
        cells[first + k] = value;
    }
}

/// One value in any number of cells.
fn fill_many<T: Copy>(cells: &mut [T], first: usize, count: usize, value: T)
    requires { first + count ≤ length cells.old }
    ensures { (q : ℕ) (d : T) → slice_index_or cells.new q d
        ≡ cond (nat_le first q && nat_lt q (first + count)) value (slice_index_or cells.old q d) }
{
    for k in first..first + count {
        cells[k] = value;
    }
}

/// One value in a block of places.
fn fill_block<T: Copy>(cells: &mut [T], x: usize, y: usize, width: usize, height: usize, value: T)
    requires count { length cells.old ≡ 256 }
    requires x { x + width ≤ 16 }
    requires y { y + height ≤ 16 }
    ensures { (i j : ℕ) (d : T) → i < 16 → j < 16
        → by_place d cells.new i j
        ≡ cond ((nat_le x i && nat_lt i (x + width)) && (nat_le y j && nat_lt j (y + height))) value
        (by_place d cells.old i j) }
{
    for row in y..y + height {
        fill(cells, 16 * row + x, width, value);
    }
}

/// One value in a block, as far as it lies in the greatest unit.
#[tactic(auto, using(crate::proofs::Cells::cut_block))]
pub(crate) fn lay_block<T: Copy>(cells: &mut [T], block: Rectangle, value: T)
    requires count { length cells.old ≡ 256 }
    ensures { (i j : ℕ) (d : T) → i < 16 → j < 16
        → by_place d cells.new i j ≡ cond (is_inside block i j) value (by_place d cells.old i j) }
{
    let x = usize::from(block.x);
    let y = usize::from(block.y);
    if x < 16 && y < 16 {
        let width = usize::from(block.width).min(16 - x);
        let height = usize::from(block.height).min(16 - y);
        fill_block(cells, x, y, width, height, value);
    }
}

/// Marks the places at the left side of a block.
pub(crate) fn mark_left(marks: &mut [bool], block: Rectangle)
    requires count { length marks.old ≡ 256 }
    ensures { (i j : ℕ) → i < 16 → j < 16
        → by_place false marks.new i j ≡ (by_place false marks.old i j || stands_left block i j) }
{
    let side = Rectangle {
        x: block.x,
        y: block.y,
        width: 1,
        height: block.height,
    };
    lay_block(marks, side, true);
}

/// Marks the places at its top.
pub(crate) fn mark_top(marks: &mut [bool], block: Rectangle)
    requires count { length marks.old ≡ 256 }
    ensures { (i j : ℕ) → i < 16 → j < 16
        → by_place false marks.new i j ≡ (by_place false marks.old i j || stands_top block i j) }
{
    let side = Rectangle {
        x: block.x,
        y: block.y,
        width: block.width,
        height: 1,
    };
    lay_block(marks, side, true);
}

/// The block of a square, as far as it may lie in the greatest unit.
pub(crate) fn block_of(square: Square) -> Rectangle
    ensures x { result.x ≡ square.x }
    ensures y { result.y ≡ square.y }
    ensures width { result.width ≡ min (2 ^ square.log2_size) 16 }
    ensures height { result.height ≡ min (2 ^ square.log2_size) 16 }
{
    let side = side(square.log2_size);
    Rectangle {
        x: square.x,
        y: square.y,
        width: side,
        height: side,
    }
}

/// The side of a square in places, at most 16.
#[tactic(auto, using(crate::proofs::Cells::many_places))]
fn side(log2_size: u8) -> u8
    ensures { result ≡ min (2 ^ log2_size) 16 }
{
    if log2_size < 4 { 1 << log2_size } else { 16 }
}
