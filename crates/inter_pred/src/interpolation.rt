//! Lines and columns of a window, filtered.

ghost use Rattle.std.specs.Prelude.{◌≡◌, ◌<◌, ◌≤◌, ◌+◌, ◌-◌, ◌*◌, ◌^◌, ℕ, ℤ, length, pos, ◌+ℤ◌, cond, nat_le, nat_lt};
ghost use Rattle.std.specs.Prelude.{◌&&◌};
ghost use Rattle.std.specs.List.{All};
ghost use Rattle.inter_pred.specs.Passes.{at, filter, across, IsMiddle, IsRaised};

use crate::sums::{chroma_sum, luma_sum};

/// The samples from a place on, weighted by the luma filter, 393,216 above.
#[inline(always)]
fn luma_line<const Q: u32>(window: &[u16], start: usize) -> u32
    requires span { start + 8 ≤ length window.now }
    requires raised { All IsRaised window.now }
    ensures value { pos result ≡ pos 393216 +ℤ filter 8 Q (λ i. pos (at window.now (start + i))) }
    ensures high { result ≤ 1835008 }
{
    luma_sum::<Q>(
        393216,
        u32::from(window[start]),
        u32::from(window[start + 1]),
        u32::from(window[start + 2]),
        u32::from(window[start + 3]),
        u32::from(window[start + 4]),
        u32::from(window[start + 5]),
        u32::from(window[start + 6]),
        u32::from(window[start + 7]),
    )
}

/// The same by the chroma filter.
#[inline(always)]
fn chroma_line<const Q: u32>(window: &[u16], start: usize) -> u32
    requires span { start + 4 ≤ length window.now }
    requires raised { All IsRaised window.now }
    ensures value { pos result ≡ pos 393216 +ℤ filter 4 Q (λ i. pos (at window.now (start + i))) }
    ensures high { result ≤ 1835008 }
{
    chroma_sum::<Q>(
        393216,
        u32::from(window[start]),
        u32::from(window[start + 1]),
        u32::from(window[start + 2]),
        u32::from(window[start + 3]),
    )
}

/// The same by the filter of so many taps.
#[inline(always)]
fn line_sum<const TAPS: usize, const Q: u32>(window: &[u16], start: usize) -> u32
    requires taps { 4 ≤ TAPS }
    requires span { start + TAPS ≤ length window.now }
    requires raised { All IsRaised window.now }
    ensures value { pos result ≡ pos 393216 +ℤ filter TAPS Q (λ i. pos (at window.now (start + i))) }
    ensures high { result ≤ 1835008 }
{
    if TAPS == 8 {
        luma_line::<Q>(window, start)
    } else {
        chroma_line::<Q>(window, start)
    }
}

/// What a line gives at a place, 6144 above.
#[inline(always)]
fn across<const TAPS: usize, const Q: u32>(window: &[u16], start: usize) -> u16
    requires taps { 4 ≤ TAPS }
    requires span { start + TAPS ≤ length window.now }
    requires raised { All IsRaised window.now }
    ensures value { pos result ≡ pos 6144 +ℤ across TAPS Q window.now start }
    ensures small { IsMiddle result }
{
    (line_sum::<TAPS, Q>(window, start) >> 6) as u16
}

/// A line of the window, filtered from a place on.
fn line<const TAPS: usize, const Q: u32>(
    window: &[u16],
    from: usize,
    width: usize,
    middle: &mut [u16],
    to: usize,
)
    requires taps { (4 ≤ TAPS) × (TAPS ≤ 8) }
    requires window { from + width + TAPS ≤ length window.now + 1 }
    requires raised { All IsRaised window.now }
    requires middle { to + width ≤ length middle.old }
    requires small { All IsMiddle middle.old }
    ensures value { (q : ℕ) → pos (at middle.new q)
        ≡ cond (nat_le to q && nat_lt q (to + width)) (pos 6144 +ℤ across TAPS Q window.now (from + (q - to)))
        (pos (at middle.old q)) }
    ensures small { All IsMiddle middle.new }
{
    for k in 0..width {
        middle[to + k] = across::<TAPS, Q>(window, from + k);
    }
}

/// The lines of the window, filtered.
fn lines<const TAPS: usize, const Q: u32>(
    window: &[u16; 5112],
    width: usize,
    height: usize,
    middle: &mut [u16; 4544],
)
    requires taps { (4 ≤ TAPS) × (TAPS ≤ 8) }
    requires size { (width ≤ 64) × (height ≤ 71) }
    requires raised { All IsRaised window.now }
    requires small { All IsMiddle middle.old }
    ensures value { (x y : ℕ) → x < width → y < height
        → pos (at middle.new (64 * y + x)) ≡ pos 6144 +ℤ across TAPS Q window.now (72 * y + x) }
    ensures small { All IsMiddle middle.new }
{
    for y in 0..height {
        line::<TAPS, Q>(window, 72 * y, width, middle, 64 * y);
    }
}

/// The lines of the window, filtered at a fraction.
pub fn lines_at<const TAPS: usize>(
    fraction: u32,
    window: &[u16; 5112],
    width: usize,
    height: usize,
    middle: &mut [u16; 4544],
)
    requires taps { (4 ≤ TAPS) × (TAPS ≤ 8) }
    requires fraction { fraction < 8 }
    requires size { (width ≤ 64) × (height ≤ 71) }
    requires raised { All IsRaised window.now }
    requires small { All IsMiddle middle.old }
    ensures value { (x y : ℕ) → x < width → y < height
        → pos (at middle.new (64 * y + x)) ≡ pos 6144 +ℤ across TAPS fraction window.now (72 * y + x) }
    ensures small { All IsMiddle middle.new }
{
    match fraction {
        0 => lines::<TAPS, 0>(window, width, height, middle),
        1 => lines::<TAPS, 1>(window, width, height, middle),
        2 => lines::<TAPS, 2>(window, width, height, middle),
        3 => lines::<TAPS, 3>(window, width, height, middle),
        4 => lines::<TAPS, 4>(window, width, height, middle),
        5 => lines::<TAPS, 5>(window, width, height, middle),
        6 => lines::<TAPS, 6>(window, width, height, middle),
        _ => lines::<TAPS, 7>(window, width, height, middle),
    }
}
