//! Values by place.

ghost use Rattle.std.specs.Prelude.{◌≡◌, ℕ, ◌+◌, ◌*◌, ◌<◌, ◌≤◌, cond, nat_le, nat_lt, ◌&&◌, length, slice_index_or};
ghost use Rattle.ctu_records.specs.Places.{overlay, by_place};

/// A square of one value over what was there.
pub fn lay<T: Copy>(cells: &mut [T], x: usize, y: usize, side: usize, value: T)
    requires count { length cells.old ≡ 256 }
    requires x { x + side ≤ 16 }
    requires y { y + side ≤ 16 }
    ensures { (i j : ℕ) (d : T) → i < 16 → j < 16
        → by_place d cells.new i j ≡ overlay x y side value (by_place d cells.old) i j }
{
    for row in y..y + side {
        lay_row(cells, 16 * row + x, side, value);
    }
}

/// So many places of a row from one on.
fn lay_row<T: Copy>(cells: &mut [T], first: usize, side: usize, value: T)
    requires { first + side ≤ length cells.old }
    ensures { (k : ℕ) (d : T) → slice_index_or cells.new k d
        ≡ cond (nat_le first k && nat_lt k (first + side)) value (slice_index_or cells.old k d) }
{
    for k in first..first + side {
        cells[k] = value;
    }
}
