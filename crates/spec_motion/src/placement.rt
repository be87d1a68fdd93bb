//! Which prediction units lie in a coding tree unit.

ghost use Rattle.std.specs.Prelude.{◌≡◌, ◌+◌, ◌^◌, ◌≤◌, nat_le, true};
ghost use Rattle.spec_motion.specs.Derivation.{IsPlaced};

use ctu_records::PredictionUnit;

/// Whether a prediction unit lies in a coding tree unit of 16 places a side, as the derivation of its motion asks.
pub fn is_placed(unit: &PredictionUnit) -> bool
    ensures found { result ≡ true → IsPlaced unit.now }
    ensures only { IsPlaced unit.now → result ≡ true }
{
    let square = unit.unit;
    square.log2_size <= 4
        && lies_inside(square.x, square.log2_size)
        && lies_inside(square.y, square.log2_size)
        && unit.part <= 3
}

/// Whether so many places from one on are among the first 16.
fn lies_inside(first: u8, log2: u8) -> bool
    requires few { log2 ≤ 4 }
    ensures { result ≡ nat_le (first + 2 ^ log2) 16 }
{
    u32::from(first) + (1 << log2) <= 16
}
