//! The factors of one block.

ghost use Rattle.std.specs.Prelude.{◌≡◌, ℕ, ◌-◌, ◌*◌, ◌/◌, ◌^◌, ◌<◌, ◌≤◌, length, slice_index_or};
ghost use Rattle.scaling_factors.specs.Blocks.{block_of_list, IsSize};
ghost use Rattle.spec_reconstruction.specs.Factors.{listed_factor};

use block_geometry::{Scan, scan_index};
use header_types::ScalingList;

/// How many columns and rows a block has.
pub(crate) fn side_of(log2: u32) -> usize
    requires { IsSize log2 }
    ensures value { result ≡ 2 ^ log2 }
    ensures some { 4 ≤ result }
    ensures few { result ≤ 32 }
{
    1 << log2
}

/// The factors of a block by a list, row after row.
pub(crate) fn lay_list(list: &ScalingList, log2: u32, block: &mut [u8])
    requires size { IsSize log2 }
    requires room { length block.old ≡ 2 ^ log2 * 2 ^ log2 }
    ensures { block.new ≡ block_of_list list.now log2 }
{
    let side = side_of(log2) as u32;
    for k in 0..block.len() {
        block[k] = listed_factor(list, log2, k as u32 % side, k as u32 / side);
    }
}

/// ScalingFactor at column `x` and line `y`.
#[tactic(auto, unfolding(spec_reconstruction::specs::Factors::listed_factor))]
fn listed_factor(list: &ScalingList, log2: u32, x: u32, y: u32) -> u8
    requires size { IsSize log2 }
    requires x { x < 2 ^ log2 }
    requires y { y < 2 ^ log2 }
    ensures { result ≡ listed_factor list.now log2 x y }
{
    if log2 == 2 {
        factor_at(list, scan_index(2, Scan::Diagonal, x, y))
    } else if 3 < log2 && x == 0 && y == 0 {
        list.dc
    } else {
        factor_at(
            list,
            scan_index(3, Scan::Diagonal, eighth(x, log2), eighth(y, log2)),
        )
    }
}

/// The column or the line of a list of 8x8 factors that stands for one of a block.
fn eighth(place: u32, log2: u32) -> u32
    requires least { 3 ≤ log2 }
    requires greatest { log2 ≤ 5 }
    requires place { place < 2 ^ log2 }
    ensures value { result ≡ place / 2 ^ (log2 - 3) }
    ensures few { result < 8 }
{
    place >> (log2 - 3)
}

/// A factor of a list, 16 past its end.
fn factor_at(list: &ScalingList, i: u32) -> u8
    ensures { result ≡ slice_index_or list.now.factors i 16 }
{
    match list.factors.as_slice().get(i as usize) {
        None => 16,
        Some(factor) => *factor,
    }
}
