//! Values in cells.

ghost use Rattle.std.specs.Prelude.{◌≡◌, ℕ, ◌+◌, ◌-◌, ◌*◌, ◌<◌, ◌≤◌, ◌&&◌, cond, nat_le, nat_lt, length};
ghost use Rattle.std.specs.Prelude.{slice_index_or};
ghost use Rattle.ctu_motion.specs.Held.{cell};

/// One value in so many cells from one on.
pub(crate) fn fill<T: Copy>(cells: &mut [T], first: usize, count: usize, value: T)
    requires { first + count ≤ length cells.old }
    ensures { (q : ℕ) (d : T) → slice_index_or cells.new q d
        ≡ cond (nat_le first q && nat_lt q (first + count)) value (slice_index_or cells.old q d) }
{
    for k in first..first + count {
        cells[k] = value;
    }
}

/// One value in a block of places.
pub(crate) fn fill_block<T: Copy>(
    cells: &mut [T],
    x: usize,
    y: usize,
    width: usize,
    height: usize,
    value: T,
)
    requires count { length cells.old ≡ 578 }
    requires x { x + width ≤ 34 }
    requires y { y + height ≤ 17 }
    ensures { (i j : ℕ) (d : T) → i < 34 → j < 17
        → slice_index_or cells.new (cell i j) d
        ≡ cond ((nat_le x i && nat_lt i (x + width)) && (nat_le y j && nat_lt j (y + height))) value
        (slice_index_or cells.old (cell i j) d) }
{
    for row in y..y + height {
        fill(cells, 34 * row + x, width, value);
    }
}
