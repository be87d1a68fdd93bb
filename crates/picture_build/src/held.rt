//! Samples of planes as pictures that are built refer to them: clamped into the picture, and held to a greatest one.

ghost use Rattle.std.specs.Prelude.{◌≡◌, ◌+◌, ◌-◌, ◌*◌, ◌<◌, ◌≤◌, ℕ, ℤ, pos, ◌+ℤ◌, ◌≤ℤ◌, length, cond, nat_le, nat_lt};
ghost use Rattle.std.specs.Prelude.{◌&&◌};
ghost use Rattle.std.specs.List.{All};
ghost use Rattle.inter_pred.specs.Passes.{at, IsByte};
ghost use Rattle.picture_buffer.specs.Planes.{plane_height, plane_width};
ghost use Rattle.picture_build.specs.Referring.{held_sample};

use crate::inside::{first_inside, inner_lines};
use inter_pred::{Window, clamped, held_line};
use picture_buffer::Planes;

/// The samples of a window, in lines of 72, of a component that has samples: those of places outside the picture are
/// the nearest ones inside, and none exceeds a greatest one.
pub(crate) fn component_window(planes: &Planes, greatest: u16, from: Window, out: &mut [u16; 5112])
    requires component { from.component < 3 }
    requires columns { (0 < plane_width planes.now from.component) × (plane_width planes.now from.component ≤ 65536) }
    requires rows { (0 < plane_height planes.now from.component) × (plane_height planes.now from.component ≤ 65536) }
    requires size { (from.width ≤ 71) × (from.height ≤ 71) }
    requires place { (from.x ≤ℤ pos 1073741824) × (from.y ≤ℤ pos 1073741824) }
    ensures value { (i j : ℕ) → i < from.width → j < from.height
        → at out.new (72 * j + i)
        ≡ held_sample planes.now from.component greatest (from.x +ℤ pos i) (from.y +ℤ pos j) }
    ensures bytes { ((x y : ℤ) → held_sample planes.now from.component greatest x y < 256)
        → All IsByte out.old → All IsByte out.new }
{
    match from.component {
        0 => window_of(planes, 0, greatest, from, out),
        1 => window_of(planes, 1, greatest, from, out),
        _ => window_of(planes, 2, greatest, from, out),
    }
}

/// The same of component `c`. Most windows lie inside it, and have one of a few widths.
#[inline(always)]
fn window_of(planes: &Planes, c: usize, greatest: u16, from: Window, out: &mut [u16; 5112])
    requires component { c < 3 }
    requires columns { (0 < plane_width planes.now c) × (plane_width planes.now c ≤ 65536) }
    requires rows { (0 < plane_height planes.now c) × (plane_height planes.now c ≤ 65536) }
    requires size { (from.width ≤ 71) × (from.height ≤ 71) }
    requires place { (from.x ≤ℤ pos 1073741824) × (from.y ≤ℤ pos 1073741824) }
    ensures value { (i j : ℕ) → i < from.width → j < from.height
        → at out.new (72 * j + i) ≡ held_sample planes.now c greatest (from.x +ℤ pos i) (from.y +ℤ pos j) }
    ensures bytes { ((x y : ℤ) → held_sample planes.now c greatest x y < 256)
        → All IsByte out.old → All IsByte out.new }
{
    match first_inside(planes, c, from) {
        Some(first) => match from.width {
            8 => inner_lines::<8>(planes, c, greatest, from, first, out),
            16 => inner_lines::<16>(planes, c, greatest, from, first, out),
            24 => inner_lines::<24>(planes, c, greatest, from, first, out),
            32 => inner_lines::<32>(planes, c, greatest, from, first, out),
            40 => inner_lines::<40>(planes, c, greatest, from, first, out),
            64 => inner_lines::<64>(planes, c, greatest, from, first, out),
            71 => inner_lines::<71>(planes, c, greatest, from, first, out),
            _ => held_window(planes, c, greatest, from, out),
        },
        None => held_window(planes, c, greatest, from, out),
    }
}

/// The same line by line, wherever the window lies.
#[inline(always)]
fn held_window(planes: &Planes, c: usize, greatest: u16, from: Window, out: &mut [u16; 5112])
    requires component { c < 3 }
    requires columns { (0 < plane_width planes.now c) × (plane_width planes.now c ≤ 65536) }
    requires rows { (0 < plane_height planes.now c) × (plane_height planes.now c ≤ 65536) }
    requires size { (from.width ≤ 71) × (from.height ≤ 71) }
    requires place { (from.x ≤ℤ pos 1073741824) × (from.y ≤ℤ pos 1073741824) }
    ensures value { (i j : ℕ) → i < from.width → j < from.height
        → at out.new (72 * j + i) ≡ held_sample planes.now c greatest (from.x +ℤ pos i) (from.y +ℤ pos j) }
    ensures bytes { ((x y : ℤ) → held_sample planes.now c greatest x y < 256)
        → All IsByte out.old → All IsByte out.new }
{
    for j in 0..from.height {
        lay_row(planes, c, greatest, from, from.y + j as i32, out, 72 * j);
    }
}

/// A line of them, from a place on.
#[inline(always)]
fn lay_row(
    planes: &Planes,
    c: usize,
    greatest: u16,
    from: Window,
    y: i32,
    out: &mut [u16],
    to: usize,
)
    requires component { c < 3 }
    requires columns { (0 < plane_width planes.now c) × (plane_width planes.now c ≤ 65536) }
    requires rows { (0 < plane_height planes.now c) × (plane_height planes.now c ≤ 65536) }
    requires size { from.width ≤ 71 }
    requires room { to + from.width ≤ length out.old }
    requires place { from.x ≤ℤ pos 1073741824 }
    ensures value { (q : ℕ) → at out.new q
        ≡ cond (nat_le to q && nat_lt q (to + from.width))
        (held_sample planes.now c greatest (from.x +ℤ pos (q - to)) y) (at out.old q) }
    ensures bytes { ((x y : ℤ) → held_sample planes.now c greatest x y < 256)
        → All IsByte out.old → All IsByte out.new }
{
    clamped_row(
        planes,
        c,
        greatest,
        from.x,
        y,
        &mut out[to..to + from.width],
    );
}

/// The samples of a line of component `c` from a column on, both clamped into the picture, and the samples held to a
/// greatest one.
#[inline(always)]
pub(crate) fn clamped_row(planes: &Planes, c: usize, greatest: u16, x: i32, y: i32, out: &mut [u16])
    requires component { c < 3 }
    requires columns { (0 < plane_width planes.now c) × (plane_width planes.now c ≤ 65536) }
    requires rows { (0 < plane_height planes.now c) × (plane_height planes.now c ≤ 65536) }
    requires count { length out.old ≤ 71 }
    requires place { x ≤ℤ pos 1073741824 }
    ensures { (k : ℕ) → k < length out.old → at out.new k ≡ held_sample planes.now c greatest (x +ℤ pos k) y }
{
    let line = planes.row(c, clamped(y, planes.height(c)));
    held_line(line, x, greatest, out);
}

/// A window of zeros, where there is no picture, or none of its samples.
pub(crate) fn clear_window(out: &mut [u16; 5112])
    ensures value { (k : ℕ) → k < 5112 → at out.new k ≡ 0 }
    ensures bytes { All IsByte out.new }
{
    *out = [0; 5112];
}
