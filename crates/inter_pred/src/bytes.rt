//! Windows of 8-bit samples, filtered in one direction in 16 bits.

ghost use Rattle.std.specs.Prelude.{◌≡◌, ◌<◌, ◌≤◌, ◌+◌, ◌-◌, ◌*◌, ℕ, ℤ, length, pos, ◌+ℤ◌, cond, nat_le, nat_lt, ◌&&◌};
ghost use Rattle.std.specs.List.{All};
ghost use Rattle.inter_pred.specs.Passes.{at, tapped, IsByte, IsMiddle};

use crate::sums::{chroma_sum_16, luma_sum_16};

/// The samples from a place on, `STEP` places apart, weighted by the luma filter, `base` above.
#[inline(always)]
#[tactic(auto, unfolding(crate::specs::Passes::tapped))]
fn luma_tapped<const Q: u32, const STEP: usize>(window: &[u16], start: usize, base: u16) -> u16
    requires step { STEP ≤ 72 }
    requires span { start + STEP * 7 < length window.now }
    requires bytes { All IsByte window.now }
    requires base { (6144 ≤ base) × (base ≤ 16896) }
    ensures value { pos result ≡ pos base +ℤ tapped 8 Q STEP window.now start }
    ensures high { result ≤ base + 22440 }
{
    luma_sum_16::<Q>(
        base,
        window[start],
        window[start + STEP],
        window[start + STEP * 2],
        window[start + STEP * 3],
        window[start + STEP * 4],
        window[start + STEP * 5],
        window[start + STEP * 6],
        window[start + STEP * 7],
    )
}

/// The same by the chroma filter.
#[inline(always)]
#[tactic(auto, unfolding(crate::specs::Passes::tapped))]
fn chroma_tapped<const Q: u32, const STEP: usize>(window: &[u16], start: usize, base: u16) -> u16
    requires step { STEP ≤ 72 }
    requires span { start + STEP * 3 < length window.now }
    requires bytes { All IsByte window.now }
    requires base { (6144 ≤ base) × (base ≤ 16896) }
    ensures value { pos result ≡ pos base +ℤ tapped 4 Q STEP window.now start }
    ensures high { result ≤ base + 22440 }
{
    chroma_sum_16::<Q>(
        base,
        window[start],
        window[start + STEP],
        window[start + STEP * 2],
        window[start + STEP * 3],
    )
}

/// The same by the filter of so many taps.
#[inline(always)]
#[tactic(auto, unfolding(crate::specs::Passes::tapped))]
fn tapped<const TAPS: usize, const Q: u32, const STEP: usize>(
    window: &[u16],
    start: usize,
    base: u16,
) -> u16
    requires taps { 4 ≤ TAPS }
    requires step { STEP ≤ 72 }
    requires span { (i : ℕ) → i < TAPS → start + STEP * i < length window.now }
    requires bytes { All IsByte window.now }
    requires base { (6144 ≤ base) × (base ≤ 16896) }
    ensures value { pos result ≡ pos base +ℤ tapped TAPS Q STEP window.now start }
    ensures high { result ≤ base + 22440 }
{
    if TAPS == 8 {
        luma_tapped::<Q, STEP>(window, start, base)
    } else {
        chroma_tapped::<Q, STEP>(window, start, base)
    }
}

/// A line of a window, filtered from a place on.
#[inline(always)]
fn line<const TAPS: usize, const Q: u32, const STEP: usize>(
    window: &[u16],
    from: usize,
    width: usize,
    base: u16,
    out: &mut [u16],
    to: usize,
)
    requires taps { 4 ≤ TAPS }
    requires step { STEP ≤ 72 }
    requires span { (k i : ℕ) → k < width → i < TAPS → from + k + STEP * i < length window.now }
    requires bytes { All IsByte window.now }
    requires base { (6144 ≤ base) × (base ≤ 16896) }
    requires out { to + width ≤ length out.old }
    ensures value { (q : ℕ) → pos (at out.new q)
        ≡ cond (nat_le to q && nat_lt q (to + width))
        (pos base +ℤ tapped TAPS Q STEP window.now (from + (q - to))) (pos (at out.old q)) }
    ensures small { base ≤ 6144 → All IsMiddle out.old → All IsMiddle out.new }
{
    for k in 0..width {
        out[to + k] = tapped::<TAPS, Q, STEP>(window, from + k, base);
    }
}

/// The lines of a window, filtered.
fn lines<const TAPS: usize, const Q: u32, const STEP: usize>(
    window: &[u16; 5112],
    width: usize,
    height: usize,
    base: u16,
    out: &mut [u16],
)
    requires taps { 4 ≤ TAPS }
    requires step { STEP ≤ 72 }
    requires size { (width ≤ 64) × (height ≤ 71) }
    requires span { (x y i : ℕ) → x < width → y < height → i < TAPS → 72 * y + x + STEP * i < 5112 }
    requires bytes { All IsByte window.now }
    requires base { (6144 ≤ base) × (base ≤ 16896) }
    requires out { 64 * height ≤ length out.old }
    ensures value { (x y : ℕ) → x < width → y < height
        → pos (at out.new (64 * y + x)) ≡ pos base +ℤ tapped TAPS Q STEP window.now (72 * y + x) }
    ensures small { base ≤ 6144 → All IsMiddle out.old → All IsMiddle out.new }
{
    for y in 0..height {
        line::<TAPS, Q, STEP>(window, 72 * y, width, base, out, 64 * y);
    }
}

/// The lines of a window, filtered at a fraction across, or down where `STEP` leads from line to line, in lines of 64.
pub fn filter_bytes<const TAPS: usize, const STEP: usize>(
    fraction: u32,
    window: &[u16; 5112],
    width: usize,
    height: usize,
    base: u16,
    out: &mut [u16],
)
    requires taps { 4 ≤ TAPS }
    requires fraction { fraction < 8 }
    requires step { STEP ≤ 72 }
    requires size { (width ≤ 64) × (height ≤ 71) }
    requires span { (x y i : ℕ) → x < width → y < height → i < TAPS → 72 * y + x + STEP * i < 5112 }
    requires bytes { All IsByte window.now }
    requires base { (6144 ≤ base) × (base ≤ 16896) }
    requires out { 64 * height ≤ length out.old }
    ensures value { (x y : ℕ) → x < width → y < height
        → pos (at out.new (64 * y + x)) ≡ pos base +ℤ tapped TAPS fraction STEP window.now (72 * y + x) }
    ensures small { base ≤ 6144 → All IsMiddle out.old → All IsMiddle out.new }
{
    match fraction {
        0 => lines::<TAPS, 0, STEP>(window, width, height, base, out),
        1 => lines::<TAPS, 1, STEP>(window, width, height, base, out),
        2 => lines::<TAPS, 2, STEP>(window, width, height, base, out),
        3 => lines::<TAPS, 3, STEP>(window, width, height, base, out),
        4 => lines::<TAPS, 4, STEP>(window, width, height, base, out),
        5 => lines::<TAPS, 5, STEP>(window, width, height, base, out),
        6 => lines::<TAPS, 6, STEP>(window, width, height, base, out),
        _ => lines::<TAPS, 7, STEP>(window, width, height, base, out),
    }
}
