//! Columns of what the lines of a window give, filtered.

ghost use Rattle.std.specs.Prelude.{◌≡◌, ◌<◌, ◌≤◌, ◌+◌, ◌-◌, ◌*◌, ◌^◌, ℕ, ℤ, length, pos, ◌+ℤ◌, cond, nat_le};
ghost use Rattle.std.specs.Prelude.{nat_lt, ◌&&◌};
ghost use Rattle.std.specs.List.{All};
ghost use Rattle.inter_pred.specs.Passes.{at, filter, down, IsMiddle};

use crate::sums::{chroma_sum, luma_sum};

/// A value in 32 bits. The remainder, which is the value, tells the compiler that 16 bits with a sign hold it, so that
/// four products take one instruction.
#[inline(always)]
fn widened(value: u16) -> u32
    requires { IsMiddle value }
    ensures { result ≡ value }
{
    u32::from(value % 32768)
}

/// The values of a column from a place on, weighted by the luma filter, 688,128 above.
#[inline(always)]
fn luma_column<const Q: u32>(middle: &[u16], start: usize) -> u32
    requires span { start + 448 < length middle.now }
    requires small { All IsMiddle middle.now }
    ensures value { pos result ≡ pos 688128 +ℤ filter 8 Q (λ j. pos (at middle.now (start + 64 * j))) }
    ensures high { result ≤ 3211264 }
{
    luma_sum::<Q>(
        688128,
        widened(middle[start]),
        widened(middle[start + 64]),
        widened(middle[start + 128]),
        widened(middle[start + 192]),
        widened(middle[start + 256]),
        widened(middle[start + 320]),
        widened(middle[start + 384]),
        widened(middle[start + 448]),
    )
}

/// The same by the chroma filter.
#[inline(always)]
fn chroma_column<const Q: u32>(middle: &[u16], start: usize) -> u32
    requires span { start + 192 < length middle.now }
    requires small { All IsMiddle middle.now }
    ensures value { pos result ≡ pos 688128 +ℤ filter 4 Q (λ j. pos (at middle.now (start + 64 * j))) }
    ensures high { result ≤ 3211264 }
{
    chroma_sum::<Q>(
        688128,
        widened(middle[start]),
        widened(middle[start + 64]),
        widened(middle[start + 128]),
        widened(middle[start + 192]),
    )
}

/// The same by the filter of so many taps.
#[inline(always)]
fn column_sum<const TAPS: usize, const Q: u32>(middle: &[u16], start: usize) -> u32
    requires taps { 4 ≤ TAPS }
    requires span { start + 64 * TAPS < length middle.now + 64 }
    requires small { All IsMiddle middle.now }
    ensures value { pos result ≡ pos 688128 +ℤ filter TAPS Q (λ j. pos (at middle.now (start + 64 * j))) }
    ensures high { result ≤ 3211264 }
{
    if TAPS == 8 {
        luma_column::<Q>(middle, start)
    } else {
        chroma_column::<Q>(middle, start)
    }
}

/// What a column gives at a place, 16,896 above.
#[inline(always)]
fn down<const TAPS: usize, const Q: u32>(middle: &[u16], start: usize) -> u16
    requires taps { 4 ≤ TAPS }
    requires span { start + 64 * TAPS < length middle.now + 64 }
    requires small { All IsMiddle middle.now }
    ensures { pos result ≡ pos 16896 +ℤ down TAPS Q middle.now start }
{
    (column_sum::<TAPS, Q>(middle, start) >> 6) as u16
}

/// A line of what the columns give.
fn line<const TAPS: usize, const Q: u32>(middle: &[u16], from: usize, width: usize, out: &mut [u16])
    requires taps { (4 ≤ TAPS) × (TAPS ≤ 8) }
    requires middle { from + width + 64 * TAPS ≤ length middle.now + 64 }
    requires small { All IsMiddle middle.now }
    requires out { from + width ≤ length out.old }
    ensures { (q : ℕ) → pos (at out.new q)
        ≡ cond (nat_le from q && nat_lt q (from + width)) (pos 16896 +ℤ down TAPS Q middle.now q) (pos (at out.old q)) }
{
    for k in 0..width {
        out[from + k] = down::<TAPS, Q>(middle, from + k);
    }
}

/// The columns, filtered.
fn columns<const TAPS: usize, const Q: u32>(
    middle: &[u16; 4544],
    width: usize,
    height: usize,
    out: &mut [u16; 4096],
)
    requires taps { (4 ≤ TAPS) × (TAPS ≤ 8) }
    requires size { (width ≤ 64) × (height ≤ 64) }
    requires small { All IsMiddle middle.now }
    ensures { (x y : ℕ) → x < width → y < height
        → pos (at out.new (64 * y + x)) ≡ pos 16896 +ℤ down TAPS Q middle.now (64 * y + x) }
{
    for y in 0..height {
        line::<TAPS, Q>(middle, 64 * y, width, out);
    }
}

/// The columns, filtered at a fraction, 16,896 above.
pub fn columns_at<const TAPS: usize>(
    fraction: u32,
    middle: &[u16; 4544],
    width: usize,
    height: usize,
    out: &mut [u16; 4096],
)
    requires taps { (4 ≤ TAPS) × (TAPS ≤ 8) }
    requires fraction { fraction < 8 }
    requires size { (width ≤ 64) × (height ≤ 64) }
    requires small { All IsMiddle middle.now }
    ensures { (x y : ℕ) → x < width → y < height
        → pos (at out.new (64 * y + x)) ≡ pos 16896 +ℤ down TAPS fraction middle.now (64 * y + x) }
{
    match fraction {
        0 => columns::<TAPS, 0>(middle, width, height, out),
        1 => columns::<TAPS, 1>(middle, width, height, out),
        2 => columns::<TAPS, 2>(middle, width, height, out),
        3 => columns::<TAPS, 3>(middle, width, height, out),
        4 => columns::<TAPS, 4>(middle, width, height, out),
        5 => columns::<TAPS, 5>(middle, width, height, out),
        6 => columns::<TAPS, 6>(middle, width, height, out),
        _ => columns::<TAPS, 7>(middle, width, height, out),
    }
}
