//! Windows that lie inside a picture: the most of them, and the fastest to read.

ghost use Rattle.std.specs.Prelude.{◌≡◌, ◌+◌, ◌-◌, ◌*◌, ◌<◌, ◌≤◌, ℕ, ℤ, pos, length, min, cond, nat_le, nat_lt};
ghost use Rattle.std.specs.Prelude.{◌&&◌, IfSome, ◌+ℤ◌};
ghost use Rattle.std.specs.List.{All};
ghost use Rattle.inter_pred.specs.Passes.{at, IsByte};
ghost use Rattle.picture_buffer.specs.Planes.{plane_height, plane_width};
ghost use Rattle.picture_build.specs.Referring.{held_sample};

use inter_pred::Window;
use picture_buffer::Planes;
use std::simd::prelude::*;

/// The column and the line where a window begins, if it lies inside component `c`.
pub(crate) fn first_inside(planes: &Planes, c: usize, from: Window) -> Option<(usize, usize)>
    requires component { c < 3 }
    requires size { (from.width ≤ 71) × (from.height ≤ 71) }
    ensures first { IfSome result (λ first. (from.x ≡ pos first.0) × (from.y ≡ pos first.1)) }
    ensures columns { IfSome result (λ first. first.0 + from.width ≤ plane_width planes.now c) }
    ensures lines { IfSome result (λ first. first.1 + from.height ≤ plane_height planes.now c) }
{
    if from.x < 0 || from.y < 0 {
        return None;
    }
    let (x, y) = (from.x as usize, from.y as usize);
    let is_wide = x + from.width <= planes.width(c) as usize;
    let is_high = y + from.height <= planes.height(c) as usize;
    if is_wide && is_high {
        Some((x, y))
    } else {
        None
    }
}

/// The samples of a window inside component `c`, in lines of `WIDTH`, from its first column and line on.
pub(crate) fn inner_lines<const WIDTH: usize>(
    planes: &Planes,
    c: usize,
    greatest: u16,
    from: Window,
    first: (usize, usize),
    out: &mut [u16; 5112],
)
    requires component { c < 3 }
    requires width { (8 ≤ WIDTH) × (WIDTH ≤ 71) }
    requires size { (from.width ≡ WIDTH) × (from.height ≤ 71) }
    requires first { (from.x ≡ pos first.0) × (from.y ≡ pos first.1) }
    requires columns { first.0 + from.width ≤ plane_width planes.now c }
    requires lines { first.1 + from.height ≤ plane_height planes.now c }
    requires rows { plane_height planes.now c ≤ 65536 }
    ensures value { (i j : ℕ) → i < from.width → j < from.height
        → at out.new (72 * j + i)
        ≡ held_sample planes.now c greatest (from.x +ℤ pos i) (from.y +ℤ pos j) }
    ensures bytes { ((x y : ℤ) → held_sample planes.now c greatest x y < 256) → All IsByte out.old
        → All IsByte out.new }
{
    for j in 0..from.height {
        let row = planes.row(c, (first.1 + j) as u32);
        inner_line::<WIDTH>(row, first.0, greatest, out, 72 * j);
    }
}

/// `WIDTH` samples of a row from a place on, laid from another on.
#[inline(always)]
fn inner_line<const WIDTH: usize>(
    row: &[u16],
    from: usize,
    greatest: u16,
    out: &mut [u16],
    to: usize,
)
    requires width { 8 ≤ WIDTH }
    requires row { from + WIDTH ≤ length row.now }
    requires room { to + WIDTH ≤ length out.old }
    ensures value { (q : ℕ) → at out.new q
        ≡ cond (nat_le to q && nat_lt q (to + WIDTH)) (min (at row.now (from + (q - to))) greatest) (at out.old q) }
    ensures bytes { ((k : ℕ) → k < WIDTH → min (at row.now (from + k)) greatest < 256) → All IsByte out.old
        → All IsByte out.new }
{
    copy_eights::<WIDTH>(row, from, greatest, &mut out[to..to + WIDTH]);
}

/// `WIDTH` samples of a row from a place on, eight at once. The last eight may lie over some of those before.
#[inline(always)]
fn copy_eights<const WIDTH: usize>(row: &[u16], from: usize, greatest: u16, out: &mut [u16])
    requires width { 8 ≤ WIDTH }
    requires row { from + WIDTH ≤ length row.now }
    requires count { length out.old ≡ WIDTH }
    ensures { (k : ℕ) → k < length out.old → at out.new k ≡ min (at row.now (from + k)) greatest }
{
    for k in 0..(WIDTH + 7) / 8 {
        let place = (8 * k).min(WIDTH - 8);
        eight(row, from + place, greatest).copy_to_slice(&mut out[place..]);
    }
}

/// Eight samples of a row.
#[inline(always)]
fn eight(row: &[u16], start: usize, greatest: u16) -> u16x8
    requires { start + 8 ≤ length row.now }
    ensures long { length result ≡ 8 }
    ensures value { (k : ℕ) → k < 8 → at result k ≡ min (at row.now (start + k)) greatest }
{
    u16x8::from_slice(&row[start..]).simd_min(u16x8::splat(greatest))
}
