//! The window of a reference picture that a block reads.

ghost use Rattle.std.specs.Prelude.{◌≡◌, ◌<◌, ◌≤◌, ◌+◌, ◌-◌, ◌*◌, ◌^◌, ℕ, ℤ, pos, ◌+ℤ◌, ◌≤ℤ◌, length, cond, nat_le};
ghost use Rattle.std.specs.Prelude.{nat_lt, ◌&&◌};
ghost use Rattle.std.specs.List.{All};
ghost use Rattle.spec_inter_prediction.specs.Taps.{IsDepth};
ghost use Rattle.inter_pred.specs.Passes.{at, IsByte, IsRaised};

use crate::reference::{RefWindow, Window};

/// The samples of a window at 14 bits, in lines of 72.
pub fn gather<V: RefWindow>(view: &mut V, from: Window, depth: u32, window: &mut [u16; 5112])
    requires depth { IsDepth depth }
    requires size { (from.width ≤ 71) × (from.height ≤ 71) }
    requires place { (from.x ≤ℤ pos 1073741824) × (from.y ≤ℤ pos 1073741824) }
    requires small { (x y : ℤ) → V.reference_at view.old from.picture from.component x y < 2 ^ depth }
    requires raised { All IsRaised window.old }
    ensures value { (i j : ℕ) → i < from.width → j < from.height
        → at window.new (72 * j + i)
        ≡ 2 ^ (14 - depth) * V.reference_at view.old from.picture from.component (from.x +ℤ pos i) (from.y +ℤ pos j) }
    ensures raised { All IsRaised window.new }
    ensures same { V.reference_at view.new ≡ V.reference_at view.old }
{
    for j in 0..from.height {
        lay_line(view, from, from.y + j as i32, depth, window, 72 * j);
    }
}

/// A line of the window, from a place on.
fn lay_line<V: RefWindow>(
    view: &mut V,
    from: Window,
    y: i32,
    depth: u32,
    window: &mut [u16],
    to: usize,
)
    requires depth { IsDepth depth }
    requires size { from.width ≤ 71 }
    requires room { to + from.width ≤ length window.old }
    requires place { from.x ≤ℤ pos 1073741824 }
    requires small { (x y : ℤ) → V.reference_at view.old from.picture from.component x y < 2 ^ depth }
    requires raised { All IsRaised window.old }
    ensures value { (q : ℕ) → at window.new q
        ≡ cond (nat_le to q && nat_lt q (to + from.width))
        (2 ^ (14 - depth) * V.reference_at view.old from.picture from.component (from.x +ℤ pos (q - to)) y)
        (at window.old q) }
    ensures raised { All IsRaised window.new }
    ensures same { V.reference_at view.new ≡ V.reference_at view.old }
{
    gather_line(view, from, y, depth, &mut window[to..to + from.width]);
}

/// A line of the window.
fn gather_line<V: RefWindow>(view: &mut V, from: Window, y: i32, depth: u32, line: &mut [u16])
    requires depth { IsDepth depth }
    requires count { length line.old ≤ 71 }
    requires place { from.x ≤ℤ pos 1073741824 }
    requires small { (x y : ℤ) → V.reference_at view.old from.picture from.component x y < 2 ^ depth }
    ensures value { (k : ℕ) → k < length line.old
        → at line.new k ≡ 2 ^ (14 - depth) * V.reference_at view.old from.picture from.component (from.x +ℤ pos k) y }
    ensures raised { All IsRaised line.new }
    ensures same { V.reference_at view.new ≡ V.reference_at view.old }
{
    view.row(from.picture, from.component, from.x, y, line);
    raise(line, depth);
}

/// The samples of a window as they are, of 8 bits, in lines of 72.
pub fn gather_bytes<V: RefWindow>(view: &mut V, from: Window, window: &mut [u16; 5112])
    requires size { (from.width ≤ 71) × (from.height ≤ 71) }
    requires place { (from.x ≤ℤ pos 1073741824) × (from.y ≤ℤ pos 1073741824) }
    requires small { (x y : ℤ) → V.reference_at view.old from.picture from.component x y < 256 }
    requires bytes { All IsByte window.old }
    ensures value { (i j : ℕ) → i < from.width → j < from.height
        → at window.new (72 * j + i)
        ≡ V.reference_at view.old from.picture from.component (from.x +ℤ pos i) (from.y +ℤ pos j) }
    ensures bytes { All IsByte window.new }
    ensures same { V.reference_at view.new ≡ V.reference_at view.old }
{
    view.window(from, window);
}

/// Samples at 14 bits.
fn raise(line: &mut [u16], depth: u32)
    requires depth { IsDepth depth }
    requires small { (k : ℕ) → k < length line.old → at line.old k < 2 ^ depth }
    ensures value { (k : ℕ) → k < length line.old → at line.new k ≡ 2 ^ (14 - depth) * at line.old k }
    ensures raised { All IsRaised line.new }
{
    for k in 0..line.len() {
        line[k] = raised(line[k], depth);
    }
}

/// A sample at 14 bits.
#[inline(always)]
fn raised(sample: u16, depth: u32) -> u16
    requires depth { IsDepth depth }
    requires small { sample < 2 ^ depth }
    ensures value { result ≡ 2 ^ (14 - depth) * sample }
    ensures high { IsRaised result }
{
    sample << (14 - depth)
}
