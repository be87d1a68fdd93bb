//! A line of a picture, read at any column.

ghost use Rattle.std.specs.Prelude.{◌≡◌, ◌<◌, ◌≤◌, ◌+◌, ℕ, ℤ, pos, negsuc, ◌+ℤ◌, ◌≤ℤ◌, length, min};
ghost use Rattle.spec_inter_prediction.specs.Taps.{clamped};
ghost use Rattle.inter_pred.specs.Passes.{at};

use std::simd::prelude::*;

/// A coordinate of a picture's side, Clip3(0, `side` - 1, `v`).
#[inline(always)]
#[tactic(auto, unfolding(spec_inter_prediction::specs::Taps::clamped))]
pub fn clamped(v: i32, side: u32) -> u32
    requires some_side { 0 < side }
    requires side { side ≤ 65536 }
    ensures value { result ≡ clamped v side }
    ensures inside { result < side }
{
    v.clamp(0, side as i32 - 1) as u32
}

/// The samples of a line from a column on, held to a greatest one; outside the line the nearest one inside.
#[inline(always)]
pub fn held_line(line: &[u16], x: i32, greatest: u16, out: &mut [u16])
    requires some_line { 0 < length line.now }
    requires line { length line.now ≤ 65536 }
    requires count { length out.old ≤ 71 }
    requires place { x ≤ℤ pos 1073741824 }
    ensures { (k : ℕ) → k < length out.old
        → at out.new k ≡ min (at line.now (clamped (x +ℤ pos k) (length line.now))) greatest }
{
    if 0 <= x && x as usize + out.len() <= line.len() {
        copy_line(line, x as usize, greatest, out);
    } else {
        outside_line(line, x, greatest, out);
    }
}

/// Samples of a line from a place on.
#[inline(always)]
pub(crate) fn copy_line(line: &[u16], from: usize, greatest: u16, out: &mut [u16])
    requires { from + length out.old ≤ length line.now }
    ensures { (k : ℕ) → k < length out.old → at out.new k ≡ min (at line.now (from + k)) greatest }
{
    let mut k = 0;
    while out.len() - k >= 8 {
        eight(line, from + k, greatest).copy_to_slice(&mut out[k..]);
        k += 8;
    }
    while k < out.len() {
        out[k] = line[from + k].min(greatest);
        k += 1;
    }
}

/// Eight of them.
#[inline(always)]
fn eight(line: &[u16], start: usize, greatest: u16) -> u16x8
    requires { start + 8 ≤ length line.now }
    ensures long { length result ≡ 8 }
    ensures value { (k : ℕ) → k < 8 → at result k ≡ min (at line.now (start + k)) greatest }
{
    u16x8::from_slice(&line[start..]).simd_min(u16x8::splat(greatest))
}

/// The same where some of the places are outside.
fn outside_line(line: &[u16], x: i32, greatest: u16, out: &mut [u16])
    requires some_line { 0 < length line.now }
    requires line { length line.now ≤ 65536 }
    requires count { length out.old ≤ 71 }
    requires place { x ≤ℤ pos 1073741824 }
    ensures { (k : ℕ) → k < length out.old
        → at out.new k ≡ min (at line.now (clamped (x +ℤ pos k) (length line.now))) greatest }
{
    for k in 0..out.len() {
        out[k] = line[clamped(x + k as i32, line.len() as u32) as usize].min(greatest);
    }
}
