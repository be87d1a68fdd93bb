//! Blocks at whole samples of a reference picture.

ghost use Rattle.std.specs.Prelude.{◌≡◌, ◌<◌, ◌≤◌, ◌+◌, ◌-◌, ◌*◌, ℕ, length, cond, nat_le, nat_lt, ◌&&◌};
ghost use Rattle.std.specs.Prelude.{min};
ghost use Rattle.std.specs.List.{All};
ghost use Rattle.inter_pred.specs.Passes.{at, IsByte, IsRaised};

use crate::line::copy_line as copy_held;

/// The samples of a window at 14 bits, 16,896 above.
pub fn copy(window: &[u16; 5112], width: usize, height: usize, out: &mut [u16; 4096])
    requires size { (width ≤ 64) × (height ≤ 64) }
    requires raised { All IsRaised window.now }
    ensures { (x y : ℕ) → x < width → y < height → at out.new (64 * y + x) ≡ 16896 + at window.now (72 * y + x) }
{
    for y in 0..height {
        copy_line(window, 72 * y, width, out, 64 * y);
    }
}

/// A line of them.
fn copy_line(window: &[u16], from: usize, width: usize, out: &mut [u16], to: usize)
    requires raised { All IsRaised window.now }
    requires window { from + width ≤ length window.now }
    requires out { to + width ≤ length out.old }
    ensures { (q : ℕ) → at out.new q
        ≡ cond (nat_le to q && nat_lt q (to + width)) (16896 + at window.now (from + (q - to))) (at out.old q) }
{
    for k in 0..width {
        out[to + k] = 16896 + window[from + k];
    }
}

/// The samples of a window of 8 bits, 16,896 above.
pub fn copy_bytes(window: &[u16; 5112], width: usize, height: usize, out: &mut [u16; 4096])
    requires size { (width ≤ 64) × (height ≤ 64) }
    requires bytes { All IsByte window.now }
    ensures { (x y : ℕ) → x < width → y < height → at out.new (64 * y + x) ≡ 16896 + 64 * at window.now (72 * y + x) }
{
    for y in 0..height {
        copy_byte_line(window, 72 * y, width, out, 64 * y);
    }
}

/// A line of them.
fn copy_byte_line(window: &[u16], from: usize, width: usize, out: &mut [u16], to: usize)
    requires bytes { All IsByte window.now }
    requires window { from + width ≤ length window.now }
    requires out { to + width ≤ length out.old }
    ensures { (q : ℕ) → at out.new q
        ≡ cond (nat_le to q && nat_lt q (to + width)) (16896 + 64 * at window.now (from + (q - to))) (at out.old q) }
{
    for k in 0..width {
        out[to + k] = 16896 + 64 * window[from + k];
    }
}

/// The samples of a window of 8 bits, in lines of 64. Most blocks have one of a few widths.
pub fn lay_bytes(window: &[u16; 5112], width: usize, height: usize, out: &mut [u16; 4096])
    requires { (width ≤ 64) × (height ≤ 64) }
    ensures { (x y : ℕ) → x < width → y < height → at out.new (64 * y + x) ≡ min (at window.now (72 * y + x)) 255 }
{
    match width {
        8 => lay_byte_lines::<8>(window, height, out),
        16 => lay_byte_lines::<16>(window, height, out),
        32 => lay_byte_lines::<32>(window, height, out),
        64 => lay_byte_lines::<64>(window, height, out),
        _ => lay_any_lines(window, width, height, out),
    }
}

/// Lines of `WIDTH` of them.
fn lay_byte_lines<const WIDTH: usize>(window: &[u16; 5112], height: usize, out: &mut [u16; 4096])
    requires { (WIDTH ≤ 64) × (height ≤ 64) }
    ensures { (x y : ℕ) → x < WIDTH → y < height → at out.new (64 * y + x) ≡ min (at window.now (72 * y + x)) 255 }
{
    for y in 0..height {
        lay_byte_line(window, 72 * y, WIDTH, out, 64 * y);
    }
}

/// Lines of any width.
fn lay_any_lines(window: &[u16; 5112], width: usize, height: usize, out: &mut [u16; 4096])
    requires { (width ≤ 64) × (height ≤ 64) }
    ensures { (x y : ℕ) → x < width → y < height → at out.new (64 * y + x) ≡ min (at window.now (72 * y + x)) 255 }
{
    for y in 0..height {
        lay_byte_line(window, 72 * y, width, out, 64 * y);
    }
}

/// A line of them.
#[inline(always)]
fn lay_byte_line(window: &[u16], from: usize, width: usize, out: &mut [u16], to: usize)
    requires window { from + width ≤ length window.now }
    requires out { to + width ≤ length out.old }
    ensures { (q : ℕ) → at out.new q
        ≡ cond (nat_le to q && nat_lt q (to + width)) (min (at window.now (from + (q - to))) 255) (at out.old q) }
{
    copy_held(window, from, 255, &mut out[to..to + width]);
}
