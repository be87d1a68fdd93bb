//! The quarters of a square of a coding tree unit.

ghost use Rattle.std.specs.Prelude.{◌≡◌, ◌+◌, ◌-◌, ◌^◌, ◌<◌, ◌≤◌};
ghost use Rattle.ctu_records.specs.Tree.{IsPlaced};
ghost use Rattle.spec_slice_data.specs.Modes.{lower_left, lower_right, upper_left, upper_right};

use ctu_records::Square;

/// The upper left quarter of a square.
#[tactic(auto, using(crate::proofs::Powers::halves))]
pub fn upper_left(square: Square) -> Square
    requires some { 0 < square.log2_size }
    requires placed { IsPlaced square }
    ensures value { result ≡ upper_left square }
    ensures placed { IsPlaced result }
{
    Square {
        x: square.x,
        y: square.y,
        log2_size: square.log2_size - 1,
    }
}

/// The upper right quarter of a square.
pub fn upper_right(square: Square) -> Square
    requires some { 0 < square.log2_size }
    requires placed { IsPlaced square }
    ensures value { result ≡ upper_right square }
    ensures placed { IsPlaced result }
{
    let half = half(square.log2_size);
    Square {
        x: square.x + half,
        y: square.y,
        log2_size: square.log2_size - 1,
    }
}

/// The lower left quarter of a square.
pub fn lower_left(square: Square) -> Square
    requires some { 0 < square.log2_size }
    requires placed { IsPlaced square }
    ensures value { result ≡ lower_left square }
    ensures placed { IsPlaced result }
{
    let half = half(square.log2_size);
    Square {
        x: square.x,
        y: square.y + half,
        log2_size: square.log2_size - 1,
    }
}

/// The lower right quarter of a square.
pub fn lower_right(square: Square) -> Square
    requires some { 0 < square.log2_size }
    requires placed { IsPlaced square }
    ensures value { result ≡ lower_right square }
    ensures placed { IsPlaced result }
{
    let half = half(square.log2_size);
    Square {
        x: square.x + half,
        y: square.y + half,
        log2_size: square.log2_size - 1,
    }
}

/// The half of a square's side.
fn half(log2_size: u8) -> u8
    requires some { 0 < log2_size }
    requires small { log2_size ≤ 4 }
    ensures value { result ≡ 2 ^ (log2_size - 1) }
    ensures whole { result + result ≡ 2 ^ log2_size }
{
    1 << (log2_size - 1)
}
