//! The neighbours of a block.

ghost use Rattle.std.specs.Prelude.{◌≡◌, ◌≤◌, ◌<◌, ◌+◌, ◌-◌, ◌*◌, ◌^◌, ℕ, Option, cond, nat_le, nat_lt, ◌&&◌, length};
ghost use Rattle.std.specs.Prelude.{take, slice_index_or};
ghost use Rattle.spec_intra_prediction.specs.Neighbours.{beside, known_beside};
ghost use Rattle.spec_intra_prediction.specs.Substitution.{substituted};

use crate::border::Border;
use crate::rows::columns;
use crate::substitution::substitute;

/// Writes the 4N + 1 neighbours of a block of N = 2^`log2` columns at (`x`, `y`) of component `c`, substituted where
/// they aren't available (8.4.4.2.2): from the bottom of the left column up, the corner, and from there to the right
/// above.
pub fn neighbours<V: Border>(
    view: &V,
    c: u8,
    x: u32,
    y: u32,
    log2: u32,
    depth: u32,
    out: &mut [u16],
)
    requires log2_low { 2 ≤ log2 }
    requires log2_high { log2 ≤ 5 }
    requires x { x < 2 ^ 31 }
    requires y { y < 2 ^ 31 }
    requires some_depth { 1 ≤ depth }
    requires depth { depth ≤ 16 }
    requires room { 4 * 2 ^ log2 + 1 ≤ length out.old }
    ensures { take (4 * 2 ^ log2 + 1) out.new ≡ substituted depth (beside (V.known view.now c) (2 ^ log2) x y) }
{
    let n = columns(log2);
    let mut offered = [None; 129];
    gather(view, c, x, y, n as u32, &mut offered);
    substitute(&offered[..4 * n + 1], depth, out);
}

/// What is known at the places beside a block, in the order of substitution.
fn gather<V: Border>(view: &V, c: u8, x: u32, y: u32, n: u32, offered: &mut [Option<u16>; 129])
    requires n { n ≤ 32 }
    requires x { x < 2 ^ 31 }
    requires y { y < 2 ^ 31 }
    ensures { take (4 * n + 1) offered.new ≡ beside (V.known view.now c) n x y }
{
    'left: for k in 0..2 * n + 1 {
        offered[k as usize] = view.sample(c, x, y + (2 * n - k));
    }
    'above: for k in 2 * n + 1..4 * n + 1 {
        offered[k as usize] = view.sample(c, x + (k - 2 * n), y);
    }
}
