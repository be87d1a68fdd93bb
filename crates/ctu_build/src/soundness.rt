//! Whether what was read lies in a unit.

ghost use Rattle.std.specs.Prelude.{◌≡◌, ◌+◌, ◌^◌, ◌≤◌, nat_le, true};
ghost use Rattle.spec_reconstruction.specs.Sound.{IsCoded, IsSquare};
ghost use Rattle.spec_reconstruction.specs.SpecSliceData.{samples_of_place};

use ctu_records::{CodedBlock, Square};
use inter_samples::samples_of_place;

/// Whether so many samples or places from one on are among the first of them.
fn lies_inside(first: u32, log2: u8, all: u32) -> bool
    requires first { first ≤ 1024 }
    requires few { log2 ≤ 5 }
    ensures { result ≡ nat_le (first + 2 ^ log2) all }
{
    first + (1 << log2) <= all
}

/// Whether a square lies in the greatest unit, and is not greater than a transform block.
pub(crate) fn is_square(square: Square) -> bool
    ensures found { result ≡ true → IsSquare square }
    ensures only { IsSquare square → result ≡ true }
{
    square.log2_size <= 3
        && lies_inside(u32::from(square.x), square.log2_size, 16)
        && lies_inside(u32::from(square.y), square.log2_size, 16)
}

/// Whether a coded block lies in the greatest unit.
pub(crate) fn is_coded(block: CodedBlock) -> bool
    ensures found { result ≡ true → IsCoded block }
    ensures only { IsCoded block → result ≡ true }
{
    let side = samples_of_place(block.component);
    block.component < 3
        && 2 <= block.log2_size
        && block.log2_size <= 5
        && block.x < 16
        && block.y < 16
        && lies_inside(side * u32::from(block.x), block.log2_size, 64)
        && lies_inside(side * u32::from(block.y), block.log2_size, 64)
}
