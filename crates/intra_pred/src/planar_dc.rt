//! Planar and DC prediction (8.4.4.2.4, 8.4.4.2.5).

ghost use Rattle.std.specs.Prelude.{◌≡◌, ◌≤◌, ◌<◌, ◌+◌, ◌-◌, ◌*◌, ◌^◌, ◌/◌, ℕ, true, length, cond, nat_le, nat_lt};
ghost use Rattle.std.specs.Prelude.{◌&&◌};
ghost use Rattle.spec_arithmetic.specs.Sums.{sum_below};
ghost use Rattle.spec_intra_prediction.specs.Neighbours.{at, left_at, above_at};
ghost use Rattle.spec_intra_prediction.specs.PlanarDc.{planar, dc, levelled, mean_beside};

use crate::rows::{columns, lay};

/// Writes the planar prediction of a block, line after line.
pub fn planar(edge: &[u16], log2: u32, out: &mut [u16])
    requires log2 { (2 ≤ log2) × (log2 ≤ 5) }
    requires edge { length edge.now ≡ 4 * 2 ^ log2 + 1 }
    requires out { 2 ^ log2 * 2 ^ log2 ≤ length out.old }
    ensures value { (x y : ℕ) → x < 2 ^ log2 → y < 2 ^ log2 → at out.new (2 ^ log2 * y + x) ≡ planar log2 edge.now x y }
    ensures rest { (k : ℕ) → 2 ^ log2 * 2 ^ log2 ≤ k → at out.new k ≡ at out.old k }
{
    let n = columns(log2);
    for y in 0..n {
        planar_line(edge, log2, y, out);
    }
}

/// A line of the planar prediction.
fn planar_line(edge: &[u16], log2: u32, y: usize, out: &mut [u16])
    requires log2 { (2 ≤ log2) × (log2 ≤ 5) }
    requires y { y < 2 ^ log2 }
    requires edge { length edge.now ≡ 4 * 2 ^ log2 + 1 }
    requires out { 2 ^ log2 * y + 2 ^ log2 ≤ length out.old }
    ensures { (q : ℕ) → at out.new q
        ≡ cond (nat_le (2 ^ log2 * y) q && nat_lt q (2 ^ log2 * y + 2 ^ log2))
        (planar log2 edge.now (q - 2 ^ log2 * y) y)
        (at out.old q) }
{
    match log2 {
        2 => planar_samples::<4>(edge, log2, y, out),
        3 => planar_samples::<8>(edge, log2, y, out),
        4 => planar_samples::<16>(edge, log2, y, out),
        _ => planar_samples::<32>(edge, log2, y, out),
    }
}

/// A line of the planar prediction of so many columns.
#[inline(always)]
fn planar_samples<const COUNT: usize>(edge: &[u16], log2: u32, y: usize, out: &mut [u16])
    requires log2 { (2 ≤ log2) × (log2 ≤ 5) }
    requires n { COUNT ≡ 2 ^ log2 }
    requires few { COUNT ≤ 32 }
    requires y { y < COUNT }
    requires edge { length edge.now ≡ 4 * COUNT + 1 }
    requires out { COUNT * y + COUNT ≤ length out.old }
    ensures { (q : ℕ) → at out.new q
        ≡ cond (nat_le (COUNT * y) q && nat_lt q (COUNT * y + COUNT)) (planar log2 edge.now (q - COUNT * y) y)
        (at out.old q) }
{
    let left = edge[2 * COUNT - (y + 1)];
    let right = edge[2 * COUNT + 1 + COUNT];
    let below = edge[2 * COUNT - (COUNT + 1)];
    for x in 0..COUNT {
        let across = part_way(COUNT, x, left, right);
        let down = part_way(COUNT, y, edge[2 * COUNT + 1 + x], below);
        out[COUNT * y + x] = mean_of(log2, COUNT, across, down);
    }
}

/// A sample on the way from one place to another, `n` times.
fn part_way(n: usize, k: usize, from: u16, to: u16) -> u32
    requires n { n ≤ 32 }
    requires k { k < n }
    ensures value { result ≡ (n - 1 - k) * from + (k + 1) * to }
    ensures greatest { result ≤ n * 65535 }
{
    (n - 1 - k) as u32 * u32::from(from) + (k + 1) as u32 * u32::from(to)
}

/// The mean of two sums of so many samples, rounded.
fn mean_of(log2: u32, n: usize, first: u32, second: u32) -> u16
    requires log2 { log2 ≤ 5 }
    requires n { n ≡ 2 ^ log2 }
    requires first { first ≤ n * 65535 }
    requires second { second ≤ n * 65535 }
    ensures { result ≡ (first + second + n) / 2 ^ (log2 + 1) }
{
    ((first + second + n as u32) >> (log2 + 1)) as u16
}

/// Writes the DC prediction of a block, line after line; `edges` says whether its first line and column are filtered.
#[tactic(auto, unfolding(spec_intra_prediction::specs::PlanarDc::dc))]
pub fn dc(edge: &[u16], edges: bool, log2: u32, out: &mut [u16])
    requires log2 { (2 ≤ log2) × (log2 ≤ 5) }
    requires edge { length edge.now ≡ 4 * 2 ^ log2 + 1 }
    requires out { 2 ^ log2 * 2 ^ log2 ≤ length out.old }
    ensures value { (x y : ℕ) → x < 2 ^ log2 → y < 2 ^ log2
        → at out.new (2 ^ log2 * y + x) ≡ dc edges log2 edge.now x y }
    ensures rest { (k : ℕ) → 2 ^ log2 * 2 ^ log2 ≤ k → at out.new k ≡ at out.old k }
{
    let n = columns(log2);
    let mean = mean_beside(edge, log2, n);
    for y in 0..n {
        level_line(edge, Level { mean, edges }, n, y, out);
    }
}

/// The mean of a block's neighbours, and whether its first line and column are filtered.
#[derive(Clone, Copy)]
struct Level {
    mean: u16,
    edges: bool,
}

/// The mean of the samples on the left and above.
#[tactic(auto, unfolding(spec_intra_prediction::specs::PlanarDc::mean_beside))]
fn mean_beside(edge: &[u16], log2: u32, n: usize) -> u16
    requires log2 { (2 ≤ log2) × (log2 ≤ 5) }
    requires n { n ≡ 2 ^ log2 }
    requires edge { length edge.now ≡ 4 * n + 1 }
    ensures { result ≡ mean_beside log2 edge.now }
{
    let mut above = 0;
    let mut left = 0;
    for k in 0..n {
        above += u32::from(edge[2 * n + 1 + k]);
        left += u32::from(edge[2 * n - (k + 1)]);
    }
    mean_of(log2, n, above, left)
}

/// A line of the DC prediction.
fn level_line(edge: &[u16], level: Level, n: usize, y: usize, out: &mut [u16])
    requires n { (4 ≤ n) × (n ≤ 32) }
    requires y { y < n }
    requires edge { length edge.now ≡ 4 * n + 1 }
    requires out { n * y + n ≤ length out.old }
    ensures { (q : ℕ) → at out.new q
        ≡ cond (nat_le (n * y) q && nat_lt q (n * y + n)) (levelled level.edges n edge.now level.mean (q - n * y) y)
        (at out.old q) }
{
    if level.edges && y == 0 {
        first_line(edge, n, level.mean, out);
    } else {
        lay(out, n * y, n, level.mean);
        if level.edges {
            out[n * y] = closer(edge[2 * n - (y + 1)], level.mean);
        }
    }
}

/// The first line of the DC prediction, filtered.
fn first_line(edge: &[u16], n: usize, mean: u16, out: &mut [u16])
    requires n { (4 ≤ n) × (n ≤ 32) }
    requires edge { length edge.now ≡ 4 * n + 1 }
    requires out { n ≤ length out.old }
    ensures { (q : ℕ) → at out.new q ≡ cond (nat_lt q n) (levelled true n edge.now mean q 0) (at out.old q) }
{
    for x in 0..n {
        out[x] = closer(edge[2 * n + 1 + x], mean);
    }
    out[0] = corner(edge[2 * n - 1], mean, edge[2 * n + 1]);
}

/// A mean, closer to the sample beside it.
fn closer(beside: u16, mean: u16) -> u16
    ensures { result ≡ (beside + 3 * mean + 2) / 4 }
{
    ((u32::from(beside) + 3 * u32::from(mean) + 2) / 4) as u16
}

/// A mean, closer to the samples on its left and above.
fn corner(left: u16, mean: u16, above: u16) -> u16
    ensures { result ≡ (left + 2 * mean + above + 2) / 4 }
{
    ((u32::from(left) + 2 * u32::from(mean) + u32::from(above) + 2) / 4) as u16
}
