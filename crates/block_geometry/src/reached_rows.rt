//! The rows of a reference picture that inter prediction of a block reads.

ghost use Rattle.std.specs.Prelude.{◌≡◌, ℕ, ◌+◌, ◌<◌, ◌≤◌, pos, negsuc, ◌+ℤ◌, ◌-ℤ◌, ◌≤ℤ◌};
ghost use Rattle.std.specs.Int.{int_shr};
ghost use Rattle.block_geometry.specs.Rows.{line_in, row_of_line, tap_line};

/// The first and the last row of coding tree blocks that the 8-tap luma filter reads in a reference picture of `height`
/// luma lines, for a block of `h` lines from line `y0` on with the vertical vector `my` in quarter samples (8.5.3.3.3):
/// the rows that have the lines `y0 + (my >> 2) - 3` to `y0 + h + (my >> 2) + 3`, each clamped into the picture.
pub fn needed_rows(y0: u32, h: u32, my: i16, height: u32, ctb_log2: u32) -> (u32, u32)
    requires y0 { y0 ≤ 8192 }
    requires h { h ≤ 8192 }
    requires some_height { 1 ≤ height }
    requires height { height ≤ 8192 }
    requires ctb_log2 { ctb_log2 ≤ 6 }
    ensures first { result.0 ≡ row_of_line height ctb_log2 (pos y0 +ℤ int_shr my 2 -ℤ pos 3) }
    ensures last { result.1 ≡ row_of_line height ctb_log2 (pos (y0 + h) +ℤ int_shr my 2 +ℤ pos 3) }
    ensures covers { (y tap : ℕ) → y0 ≤ y → y < y0 + h → tap < 8
        → (result.0 ≤ row_of_line height ctb_log2 (tap_line y my tap))
        × (row_of_line height ctb_log2 (tap_line y my tap) ≤ result.1) }
{
    let moved = whole_samples(my);
    let first = row_of(height, ctb_log2, moved_line(y0, moved, -3));
    let last = row_of(height, ctb_log2, moved_line(y0 + h, moved, 3));
    (first, last)
}

/// The line `y` under a vector of `moved` whole samples, `by` lines further down.
fn moved_line(y: u32, moved: i32, by: i32) -> i32
    requires y { y ≤ 16384 }
    requires moved_low { negsuc 8191 ≤ℤ moved }
    requires moved_high { moved ≤ℤ pos 8191 }
    requires by_low { negsuc 7 ≤ℤ by }
    requires by_high { by ≤ℤ pos 7 }
    ensures { result ≡ pos y +ℤ moved +ℤ by }
{
    y as i32 + moved + by
}

/// The whole samples of a vector in quarter samples, rounded down.
fn whole_samples(my: i16) -> i32
    ensures value { result ≡ int_shr my 2 }
    ensures low { negsuc 8191 ≤ℤ result }
    ensures high { result ≤ℤ pos 8191 }
{
    i32::from(my) >> 2
}

/// The row of coding tree blocks that has the line `y`, clamped into the picture.
fn row_of(height: u32, ctb_log2: u32, y: i32) -> u32
    requires some_height { 1 ≤ height }
    requires height { height ≤ 8192 }
    requires ctb_log2 { ctb_log2 ≤ 6 }
    ensures { result ≡ row_of_line height ctb_log2 y }
{
    clamped(height, y) >> ctb_log2
}

/// The line `y`, clamped into the picture.
fn clamped(height: u32, y: i32) -> u32
    requires some_height { 1 ≤ height }
    requires height { height ≤ 8192 }
    ensures { result ≡ line_in height y }
{
    if y < 0 { 0 } else { (y as u32).min(height - 1) }
}
