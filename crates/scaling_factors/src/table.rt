//! The factors of all blocks.

ghost use Rattle.std.specs.Prelude.{◌≡◌, ℕ, Bool, ◌+◌, ◌*◌, ◌^◌, ◌<◌, ◌≤◌, ◌++◌, length, take, Some, None};
ghost use Rattle.scaling_factors.specs.Blocks.{IsSize};
ghost use Rattle.spec_reconstruction.specs.Factors.{factors_in_rows, factors_of_size, matrix_of, scaling_factors};

use crate::block::{lay_list, side_of};
use header_types::ScalingLists;
use spec_reconstruction::ScalingFactors;

/// The lists of the blocks of intra coding units, or of inter ones.
#[derive(Clone, Copy)]
struct UnitLists<'a> {
    lists: &'a ScalingLists,
    intra: bool,
}

/// The factors where there are no scaling lists: 16 each.
pub fn flat_factors() -> ScalingFactors
    ensures { (intra : Bool) → result ≡ scaling_factors None intra }
{
    ScalingFactors {
        by_place: [16; 2032],
    }
}

/// The factors of the blocks of intra coding units by these lists, or of inter ones. What a list doesn't have is 16.
#[tactic(auto, unfolding(spec_reconstruction::specs::Factors::scaling_factors))]
pub fn listed_factors(lists: &ScalingLists, intra: bool) -> ScalingFactors
    ensures { result ≡ scaling_factors (Some lists.now) intra }
{
    let lists = &UnitLists { lists, intra };
    let mut by_place = [16; 2032];
    lay_size(lists, 2, 0, &mut by_place);
    lay_size(lists, 3, 48, &mut by_place);
    lay_size(lists, 4, 240, &mut by_place);
    lay_block(lists, 5, 0, 1008, &mut by_place);
    ScalingFactors { by_place }
}

/// The factors of blocks of a size for Y, Cb and Cr, one after the other.
fn lay_size(lists: &UnitLists<'_>, log2: u32, first: usize, factors: &mut [u8])
    requires size { IsSize log2 }
    requires room { first + 3 * (2 ^ log2 * 2 ^ log2) ≤ length factors.old }
    ensures count { length factors.new ≡ length factors.old }
    ensures value { take (first + 3 * (2 ^ log2 * 2 ^ log2)) factors.new
        ≡ take first factors.old ++ factors_of_size (Some lists.now.lists.now) lists.now.intra log2 }
{
    let count = side_of(log2) * side_of(log2);
    lay_block(lists, log2, 0, first, factors);
    lay_block(lists, log2, 1, first + count, factors);
    lay_block(lists, log2, 2, first + 2 * count, factors);
}

/// The factors of blocks of a size and a component from a place on.
fn lay_block(lists: &UnitLists<'_>, log2: u32, c: usize, first: usize, factors: &mut [u8])
    requires size { IsSize log2 }
    requires component { c < 3 }
    requires room { first + 2 ^ log2 * 2 ^ log2 ≤ length factors.old }
    ensures count { length factors.new ≡ length factors.old }
    ensures value { take (first + 2 ^ log2 * 2 ^ log2) factors.new
        ≡ take first factors.old ++ factors_in_rows (Some lists.now.lists.now) lists.now.intra log2 c }
{
    let count = side_of(log2) * side_of(log2);
    fill_block(lists, log2, c, &mut factors[first..first + count]);
}

/// The factors of blocks of a size and a component.
#[tactic(auto, unfolding(spec_reconstruction::specs::Factors::scaling_factor))]
fn fill_block(lists: &UnitLists<'_>, log2: u32, c: usize, block: &mut [u8])
    requires size { IsSize log2 }
    requires component { c < 3 }
    requires room { length block.old ≡ 2 ^ log2 * 2 ^ log2 }
    ensures { block.new ≡ factors_in_rows (Some lists.now.lists.now) lists.now.intra log2 c }
{
    let list = 6 * (log2 as usize - 2) + matrix_of(lists.intra, log2, c);
    match lists.lists.lists.as_slice().get(list) {
        None => block.fill(16),
        Some(list) => lay_list(list, log2, block),
    }
}

/// matrixId of blocks of a size and a component (Table 7-4).
fn matrix_of(intra: bool, log2: u32, c: usize) -> usize
    requires component { c < 3 }
    ensures value { result ≡ matrix_of intra log2 c }
    ensures few { result ≤ 5 }
{
    if intra {
        c
    } else if log2 == 5 {
        c + 1
    } else {
        c + 3
    }
}
