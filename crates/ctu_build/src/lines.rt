//! Lines of samples.

ghost use Rattle.ctu_build.specs.Held.{added, cell, inside_of, IsInside};
ghost use Rattle.std.specs.Prelude.{◌≡◌, ℕ, ◌+◌, ◌-◌, ◌*◌, ◌<◌, ◌≤◌, ◌^◌, ◌&&◌, pos, negsuc, ◌≤ℤ◌, cond, true, false};
ghost use Rattle.std.specs.Prelude.{nat_le, nat_lt, length, slice_index_or};
ghost use Rattle.spec_arithmetic.specs.Clipping.{clip1};
ghost use Rattle.std.specs.List.{All};
ghost use Rattle.spec_transforms.specs.Matrices.{at};
ghost use Rattle.spec_transforms.specs.Scaling.{IsDepth};
ghost use Rattle.spec_transforms.specs.Transforms.{IsResidual};

use crate::place::Place;

/// One value in so many cells from one on.
pub(crate) fn fill<T: Copy>(cells: &mut [T], first: usize, count: usize, value: T)
    requires { first + count ≤ length cells.old }
    ensures { (q : ℕ) (d : T) → slice_index_or cells.new q d
        ≡ cond (nat_le first q && nat_lt q (first + count)) value (slice_index_or cells.old q d) }
{
    for k in first..first + count {
        cells[k] = value;
    }
}

/// Samples over the cells from one on.
pub(crate) fn copy(cells: &mut [u16], first: usize, samples: &[u16])
    requires { first + length samples.now ≤ length cells.old }
    ensures { (q : ℕ) → slice_index_or cells.new q 0
        ≡ cond (nat_le first q && nat_lt q (first + length samples.now)) (slice_index_or samples.now (q - first) 0)
        (slice_index_or cells.old q 0) }
{
    cells[first..first + samples.len()].copy_from_slice(samples);
}

/// The cell of the first sample of a line of a square.
fn first_of(place: Place, line: usize) -> usize
    requires c { place.c < 3 }
    requires x { place.x < 64 }
    requires y { place.y < 64 }
    requires line { line < 64 }
    ensures { result ≡ cell place.c (place.x + 1) (place.y + 1 + line) }
{
    8385 * usize::from(place.c) + 129 * (place.y as usize + 1 + line) + (place.x as usize + 1)
}

/// Samples over a square.
pub(crate) fn lay_lines(values: &mut [u16], place: Place, block: &[u16])
    requires place { IsInside place }
    requires room { length values.old ≡ 25155 }
    requires block { 2 ^ place.log2 * 2 ^ place.log2 ≤ length block.now }
    ensures { (c i j : ℕ) → c < 3 → i < 129 → j < 65
        → slice_index_or values.new (cell c i j) 0
        ≡ cond (inside_of place (2 ^ place.log2) c i j)
        (slice_index_or block.now (2 ^ place.log2 * (j - (place.y + 1)) + (i - (place.x + 1))) 0)
        (slice_index_or values.old (cell c i j) 0) }
{
    match place.log2 {
        2 => lay_square::<4>(values, place, block),
        3 => lay_square::<8>(values, place, block),
        4 => lay_square::<16>(values, place, block),
        _ => lay_square::<32>(values, place, block),
    }
}

/// Samples over a square of `N` on a side.
fn lay_square<const N: usize>(values: &mut [u16], place: Place, block: &[u16])
    requires place { IsInside place }
    requires side { N ≡ 2 ^ place.log2 }
    requires room { length values.old ≡ 25155 }
    requires block { 2 ^ place.log2 * 2 ^ place.log2 ≤ length block.now }
    ensures { (c i j : ℕ) → c < 3 → i < 129 → j < 65
        → slice_index_or values.new (cell c i j) 0
        ≡ cond (inside_of place (2 ^ place.log2) c i j)
        (slice_index_or block.now (2 ^ place.log2 * (j - (place.y + 1)) + (i - (place.x + 1))) 0)
        (slice_index_or values.old (cell c i j) 0) }
{
    for line in 0..N {
        lay_line::<N>(values, first_of(place, line), block, N * line);
    }
}

/// The samples of a square are known.
pub(crate) fn mark_lines(known: &mut [bool], place: Place)
    requires place { IsInside place }
    requires room { length known.old ≡ 25155 }
    ensures { (c i j : ℕ) → c < 3 → i < 129 → j < 65
        → slice_index_or known.new (cell c i j) false
        ≡ cond (inside_of place (2 ^ place.log2) c i j) true (slice_index_or known.old (cell c i j) false) }
{
    match place.log2 {
        2 => mark_square::<4>(known, place),
        3 => mark_square::<8>(known, place),
        4 => mark_square::<16>(known, place),
        _ => mark_square::<32>(known, place),
    }
}

/// The samples of a square of `N` on a side are known.
fn mark_square<const N: usize>(known: &mut [bool], place: Place)
    requires place { IsInside place }
    requires side { N ≡ 2 ^ place.log2 }
    requires room { length known.old ≡ 25155 }
    ensures { (c i j : ℕ) → c < 3 → i < 129 → j < 65
        → slice_index_or known.new (cell c i j) false
        ≡ cond (inside_of place (2 ^ place.log2) c i j) true (slice_index_or known.old (cell c i j) false) }
{
    for line in 0..N {
        mark_line::<N>(known, first_of(place, line));
    }
}

/// `N` samples from a cell on are known.
pub(crate) fn mark_line<const N: usize>(known: &mut [bool], first: usize)
    requires { first + N ≤ length known.old }
    ensures { (q : ℕ) → slice_index_or known.new q false
        ≡ cond (nat_le first q && nat_lt q (first + N)) true (slice_index_or known.old q false) }
{
    for k in 0..N {
        known[first + k] = true;
    }
}

/// Residuals added to the samples of a square that are known.
pub(crate) fn add_lines(
    values: &mut [u16],
    known: &[bool],
    place: Place,
    residuals: &[i32],
    depth: u32,
)
    requires place { IsInside place }
    requires room { length values.old ≡ 25155 }
    requires known { length known.now ≡ 25155 }
    requires block { 2 ^ place.log2 * 2 ^ place.log2 ≤ length residuals.now }
    requires depth { IsDepth depth }
    requires residuals { All IsResidual residuals.now }
    ensures { (c i j : ℕ) → c < 3 → i < 129 → j < 65
        → slice_index_or values.new (cell c i j) 0
        ≡ cond (inside_of place (2 ^ place.log2) c i j)
        (added depth (slice_index_or known.now (cell c i j) false)
        (at residuals.now (2 ^ place.log2 * (j - (place.y + 1)) + (i - (place.x + 1))))
        (slice_index_or values.old (cell c i j) 0))
        (slice_index_or values.old (cell c i j) 0) }
{
    match place.log2 {
        2 => add_square::<4>(values, known, place, residuals, depth),
        3 => add_square::<8>(values, known, place, residuals, depth),
        4 => add_square::<16>(values, known, place, residuals, depth),
        _ => add_square::<32>(values, known, place, residuals, depth),
    }
}

/// Residuals added to the samples of a square of `N` on a side that are known.
fn add_square<const N: usize>(
    values: &mut [u16],
    known: &[bool],
    place: Place,
    residuals: &[i32],
    depth: u32,
)
    requires place { IsInside place }
    requires side { N ≡ 2 ^ place.log2 }
    requires room { length values.old ≡ 25155 }
    requires known { length known.now ≡ 25155 }
    requires block { 2 ^ place.log2 * 2 ^ place.log2 ≤ length residuals.now }
    requires depth { IsDepth depth }
    requires residuals { All IsResidual residuals.now }
    ensures { (c i j : ℕ) → c < 3 → i < 129 → j < 65
        → slice_index_or values.new (cell c i j) 0
        ≡ cond (inside_of place (2 ^ place.log2) c i j)
        (added depth (slice_index_or known.now (cell c i j) false)
        (at residuals.now (2 ^ place.log2 * (j - (place.y + 1)) + (i - (place.x + 1))))
        (slice_index_or values.old (cell c i j) 0))
        (slice_index_or values.old (cell c i j) 0) }
{
    for line in 0..N {
        let line = Line {
            first: first_of(place, line),
            from: N * line,
        };
        add_line::<N>(values, known, line, residuals, depth);
    }
}

/// `N` samples of a block over the cells from one on.
pub(crate) fn lay_line<const N: usize>(values: &mut [u16], first: usize, block: &[u16], from: usize)
    requires room { first + N ≤ length values.old }
    requires enough { from + N ≤ length block.now }
    ensures { (q : ℕ) → slice_index_or values.new q 0
        ≡ cond (nat_le first q && nat_lt q (first + N)) (slice_index_or block.now (from + (q - first)) 0)
        (slice_index_or values.old q 0) }
{
    values[first..first + N].copy_from_slice(&block[from..from + N]);
}

/// A line of a block: the cell of its first sample, and the number of that sample in the block.
#[derive(Clone, Copy)]
struct Line {
    first: usize,
    from: usize,
}

/// Residuals added to the samples of a line of `N` that are known.
fn add_line<const N: usize>(
    values: &mut [u16],
    known: &[bool],
    line: Line,
    residuals: &[i32],
    depth: u32,
)
    requires room { line.first + N ≤ length values.old }
    requires known { line.first + N ≤ length known.now }
    requires enough { line.from + N ≤ length residuals.now }
    requires depth { IsDepth depth }
    requires residuals { All IsResidual residuals.now }
    ensures { (q : ℕ) → slice_index_or values.new q 0
        ≡ cond (nat_le line.first q && nat_lt q (line.first + N))
        (added depth (slice_index_or known.now q false) (at residuals.now (line.from + (q - line.first)))
        (slice_index_or values.old q 0))
        (slice_index_or values.old q 0) }
{
    let mut sums = [0; N];
    for k in 0..N {
        let place = line.first + k;
        sums[k] = added(values[place], known[place], residuals[line.from + k], depth);
    }
    lay_line::<N>(values, line.first, &sums, 0);
}

/// A sample and a residual, where the sample is known.
#[tactic(auto, unfolding(crate::specs::Held::added))]
fn added(sample: u16, known: bool, residual: i32, depth: u32) -> u16
    requires depth { IsDepth depth }
    requires residual { IsResidual residual }
    ensures { result ≡ added depth known residual sample }
{
    let sum = clipped(i32::from(sample) + residual, depth);
    if known { sum } else { sample }
}

/// Clip1.
fn clipped(value: i32, depth: u32) -> u16
    requires depth { IsDepth depth }
    ensures { result ≡ clip1 depth value }
{
    value.clamp(0, greatest_sample(depth)) as u16
}

/// The greatest sample of so many bits.
fn greatest_sample(depth: u32) -> i32
    requires depth { IsDepth depth }
    ensures value { result ≡ pos (2 ^ depth - 1) }
    ensures least { pos 0 ≤ℤ result }
    ensures greatest { result ≤ℤ pos 65535 }
{
    (1 << depth) - 1
}
