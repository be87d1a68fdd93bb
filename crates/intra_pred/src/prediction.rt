//! Intra prediction of a block from its neighbours (8.4.4.2).

ghost use Rattle.std.specs.Prelude.{◌≡◌, ◌≤◌, ◌<◌, ◌+◌, ◌*◌, ◌^◌, ◌-◌, ℕ, length, take, cond, nat_le, nat_lt, ◌&&◌};
ghost use Rattle.spec_intra_prediction.specs.Neighbours.{at, left_side};
ghost use Rattle.spec_intra_prediction.specs.Prediction.{predicted, predicted_from, directed, has_filtered_edges};
ghost use Rattle.spec_intra_prediction.specs.Angular.{angular};

use crate::angular::{Direction, angular};
use crate::planar_dc::{dc, planar};
use crate::rows::columns;
use crate::smoothing::{filter, is_filtered};

/// Writes the prediction of a block of N = 2^`log2` columns in component `c` by a mode (0 planar, 1 DC, 2 to 34
/// directions), line after line, from its 4N + 1 substituted neighbours. `strong` is
/// strong_intra_smoothing_enabled_flag, `depth` the bits of a sample.
#[tactic(auto, using(crate::proofs::Sizes::small))]
pub fn predict(edge: &[u16], c: u8, log2: u32, mode: u8, strong: bool, depth: u32, out: &mut [u16])
    requires log2 { (2 ≤ log2) × (log2 ≤ 5) }
    requires mode { mode ≤ 34 }
    requires depth { (8 ≤ depth) × (depth ≤ 16) }
    requires edge { length edge.now ≡ 4 * 2 ^ log2 + 1 }
    requires out { 2 ^ log2 * 2 ^ log2 ≤ length out.old }
    ensures value { (x y : ℕ) → x < 2 ^ log2 → y < 2 ^ log2
        → at out.new (2 ^ log2 * y + x) ≡ predicted c log2 mode strong depth edge.now x y }
    ensures rest { (k : ℕ) → 2 ^ log2 * 2 ^ log2 ≤ k → at out.new k ≡ at out.old k }
{
    let predicted = Predicted {
        c,
        log2,
        mode,
        depth,
    };
    if is_filtered(c, log2, mode) {
        let mut smooth = [0; 129];
        filter(edge, log2, strong, depth, &mut smooth);
        predict_from(&smooth[..edge.len()], predicted, out);
    } else {
        predict_from(edge, predicted, out);
    }
}

/// A block of 2^`log2` columns of component `c`, its mode, and the bits of a sample.
#[derive(Clone, Copy)]
struct Predicted {
    c: u8,
    log2: u32,
    mode: u8,
    depth: u32,
}

/// The prediction of a block from neighbours that are filtered where they have to be.
#[tactic(auto, unfolding(spec_intra_prediction::specs::Prediction::predicted_from))]
fn predict_from(edge: &[u16], block: Predicted, out: &mut [u16])
    requires log2 { (2 ≤ block.log2) × (block.log2 ≤ 5) }
    requires mode { block.mode ≤ 34 }
    requires depth { (8 ≤ block.depth) × (block.depth ≤ 16) }
    requires edge { length edge.now ≡ 4 * 2 ^ block.log2 + 1 }
    requires out { 2 ^ block.log2 * 2 ^ block.log2 ≤ length out.old }
    ensures value { (x y : ℕ) → x < 2 ^ block.log2 → y < 2 ^ block.log2
        → at out.new (2 ^ block.log2 * y + x) ≡ predicted_from block.c block.log2 block.mode block.depth edge.now x y }
    ensures rest { (k : ℕ) → 2 ^ block.log2 * 2 ^ block.log2 ≤ k → at out.new k ≡ at out.old k }
{
    let edges = has_filtered_edges(block.c, block.log2);
    match block.mode {
        0 => planar(edge, block.log2, out),
        1 => dc(edge, edges, block.log2, out),
        _ => directed(
            edge,
            Direction {
                log2: block.log2,
                mode: block.mode,
                edges,
                depth: block.depth,
            },
            out,
        ),
    }
}

/// Whether DC, horizontal and vertical filter the edges of a block.
fn has_filtered_edges(c: u8, log2: u32) -> bool
    ensures { result ≡ has_filtered_edges c log2 }
{
    c == 0 && log2 < 5
}

/// The prediction of a block along a direction.
fn directed(edge: &[u16], direction: Direction, out: &mut [u16])
    requires log2 { (2 ≤ direction.log2) × (direction.log2 ≤ 5) }
    requires mode { (2 ≤ direction.mode) × (direction.mode ≤ 34) }
    requires depth { (8 ≤ direction.depth) × (direction.depth ≤ 16) }
    requires edge { length edge.now ≡ 4 * 2 ^ direction.log2 + 1 }
    requires out { 2 ^ direction.log2 * 2 ^ direction.log2 ≤ length out.old }
    ensures value { (x y : ℕ) → x < 2 ^ direction.log2 → y < 2 ^ direction.log2
        → at out.new (2 ^ direction.log2 * y + x)
        ≡ directed direction.edges direction.log2 direction.mode direction.depth edge.now x y }
    ensures rest { (k : ℕ) → 2 ^ direction.log2 * 2 ^ direction.log2 ≤ k → at out.new k ≡ at out.old k }
{
    let n = columns(direction.log2);
    let mut sides = [0; 65];
    turn(edge, n, &mut sides);
    let left = &sides[..2 * n + 1];
    let above = &edge[2 * n..];
    if 18 <= direction.mode {
        angular(above, left, direction, out);
    } else if n <= 8 {
        across(left, above, direction, &mut [0; 64], out);
    } else if n <= 16 {
        across(left, above, direction, &mut [0; 256], out);
    } else {
        across(left, above, direction, &mut [0; 1024], out);
    }
}

/// The prediction of a block from the left, written with columns for lines at first.
fn across(left: &[u16], above: &[u16], direction: Direction, turned: &mut [u16], out: &mut [u16])
    requires log2 { (2 ≤ direction.log2) × (direction.log2 ≤ 5) }
    requires mode { (2 ≤ direction.mode) × (direction.mode ≤ 34) }
    requires depth { (8 ≤ direction.depth) × (direction.depth ≤ 16) }
    requires left { length left.now ≡ 2 * 2 ^ direction.log2 + 1 }
    requires above { length above.now ≡ 2 * 2 ^ direction.log2 + 1 }
    requires turned { 2 ^ direction.log2 * 2 ^ direction.log2 ≤ length turned.old }
    requires out { 2 ^ direction.log2 * 2 ^ direction.log2 ≤ length out.old }
    ensures value { (x y : ℕ) → x < 2 ^ direction.log2 → y < 2 ^ direction.log2
        → at out.new (2 ^ direction.log2 * y + x)
        ≡ angular direction.edges direction.log2 direction.mode direction.depth left.now above.now y x }
    ensures rest { (k : ℕ) → 2 ^ direction.log2 * 2 ^ direction.log2 ≤ k → at out.new k ≡ at out.old k }
{
    angular(left, above, direction, turned);
    transpose(turned, direction.log2, out);
}

/// Writes the samples on the left, from the corner down.
fn turn(edge: &[u16], n: usize, left: &mut [u16; 65])
    requires n { n ≤ 32 }
    requires edge { length edge.now ≡ 4 * n + 1 }
    ensures { take (2 * n + 1) left.new ≡ left_side n edge.now }
{
    for k in 0..2 * n + 1 {
        left[k] = edge[2 * n - k];
    }
}

/// Writes lines as columns.
fn transpose(turned: &[u16], log2: u32, out: &mut [u16])
    requires log2 { (2 ≤ log2) × (log2 ≤ 5) }
    requires turned { 2 ^ log2 * 2 ^ log2 ≤ length turned.now }
    requires out { 2 ^ log2 * 2 ^ log2 ≤ length out.old }
    ensures value { (x y : ℕ) → x < 2 ^ log2 → y < 2 ^ log2
        → at out.new (2 ^ log2 * y + x) ≡ at turned.now (2 ^ log2 * x + y) }
    ensures rest { (k : ℕ) → 2 ^ log2 * 2 ^ log2 ≤ k → at out.new k ≡ at out.old k }
{
    match log2 {
        2 => transpose_lines::<4>(turned, out),
        3 => transpose_lines::<8>(turned, out),
        4 => transpose_lines::<16>(turned, out),
        _ => transpose_lines::<32>(turned, out),
    }
}

/// Writes so many lines as columns.
#[inline(always)]
fn transpose_lines<const COUNT: usize>(turned: &[u16], out: &mut [u16])
    requires few { COUNT ≤ 32 }
    requires turned { COUNT * COUNT ≤ length turned.now }
    requires out { COUNT * COUNT ≤ length out.old }
    ensures value { (x y : ℕ) → x < COUNT → y < COUNT → at out.new (COUNT * y + x) ≡ at turned.now (COUNT * x + y) }
    ensures rest { (k : ℕ) → COUNT * COUNT ≤ k → at out.new k ≡ at out.old k }
{
    for y in 0..COUNT {
        transpose_line::<COUNT>(turned, y, out);
    }
}

/// Writes a column as a line.
#[inline(always)]
fn transpose_line<const COUNT: usize>(turned: &[u16], y: usize, out: &mut [u16])
    requires few { COUNT ≤ 32 }
    requires y { y < COUNT }
    requires turned { COUNT * COUNT ≤ length turned.now }
    requires out { COUNT * y + COUNT ≤ length out.old }
    ensures { (q : ℕ) → at out.new q
        ≡ cond (nat_le (COUNT * y) q && nat_lt q (COUNT * y + COUNT)) (at turned.now (COUNT * (q - COUNT * y) + y))
        (at out.old q) }
{
    for x in 0..COUNT {
        out[COUNT * y + x] = turned[COUNT * x + y];
    }
}
